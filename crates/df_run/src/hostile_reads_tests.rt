// A disk that fails: a fault at each read in turn, of runs of each command. The input is read to its end before the first byte is written, and
// no read follows the one that failed.
use super::*;
use crate::hostile_runs::{CHECKS, FINISHED, LATER, LISTINGS, SOURCES, STOPPED, Told, UNREAD};
use crate::tests::run_over;
use std::process::Abort;
use std::test::Fail;

// The reads of an input in pieces: its pieces, and the end.
fn reads_of(size: usize, piece: usize) -> u64 {
    (size.div_ceil(piece.max(1)) as u64).saturating_add(1)
}

// Runs the words with a fault at one of the reads that there are.
fn assert_fault(
    rt: &(impl Abort + AllocGlobal),
    told: &Told<'_>,
    piece: usize,
    failing: u64,
) -> Result<(), Fail> {
    let (words, input, _, wanted) = told;
    let (status, source, sink) = run_over(
        rt.alloc(),
        words,
        input.as_bytes(),
        piece,
        failing,
        4096,
    )?;
    assert_eq!(rt; status.code(), 4, "at read {failing}, not {wanted}");
    assert_eq!(rt; sink.bytes.len(), 0, "at read {failing}, not {wanted}");
    assert_eq!(rt; sink.calls, 0, "at read {failing}, not {wanted}");
    assert_eq!(rt; source.calls, failing);
    assert_eq!(rt; source.faults, 1);
    Ok(())
}

// Runs the words with a fault at a read that doesn't come, as the input has ended: the whole answer.
fn assert_whole(
    rt: &(impl Abort + AllocGlobal),
    told: &Told<'_>,
    piece: usize,
    reads: u64,
) -> Result<(), Fail> {
    let (words, input, code, wanted) = told;
    let (status, source, sink) = run_over(
        rt.alloc(),
        words,
        input.as_bytes(),
        piece,
        reads.saturating_add(1),
        4096,
    )?;
    assert_eq!(rt; status.code(), *code, "not {wanted}");
    assert_eq!(rt; sink.bytes.as_slice(), wanted.as_bytes());
    assert_eq!(rt; source.calls, reads, "at {wanted}");
    assert_eq!(rt; source.faults, 0);
    Ok(())
}

// Runs with a fault at each read in turn, and then without one.
fn assert_read_faults(
    rt: &(impl Abort + AllocGlobal),
    runs: &[Told<'_>],
    piece: usize,
) -> Result<(), Fail> {
    for told in runs {
        let reads = reads_of(told.1.len(), piece);
        for passed in 0..reads {
            assert_fault(rt, told, piece, passed + 1)?;
        }
        assert_whole(rt, told, piece, reads)?;
    }
    Ok(())
}

#[test]
fn sources_fail_at_each_read(rt: HostRuntime) -> Result<(), Fail> {
    assert_read_faults(&rt, SOURCES, 1)?;
    assert_read_faults(&rt, SOURCES, 16)
}

#[test]
fn searches_fail_at_each_read(rt: HostRuntime) -> Result<(), Fail> {
    for runs in [FINISHED, STOPPED, LISTINGS] {
        assert_read_faults(&rt, runs, 1)?;
        assert_read_faults(&rt, runs, 16)?;
    }
    Ok(())
}

// Also after a line that is refused.
#[test]
fn later_searches_fail_at_each_read(rt: HostRuntime) -> Result<(), Fail> {
    assert_read_faults(&rt, LATER, 1)?;
    assert_read_faults(&rt, LATER, 16)
}

// Also after a line that is refused.
#[test]
fn checks_fail_at_each_read(rt: HostRuntime) -> Result<(), Fail> {
    assert_read_faults(&rt, CHECKS, 5)?;
    assert_read_faults(&rt, CHECKS, 16)
}

// A source that fails at its first read, of which nothing is read.
#[test]
fn workloads_and_other_words_read_nothing(rt: HostRuntime) -> Result<(), Fail> {
    for (words, input, code, wanted) in UNREAD {
        let (status, source, sink) = run_over(rt.alloc(), words, input.as_bytes(), 16, 1, 4096)?;
        assert_eq!(rt; status.code(), *code, "not {wanted}");
        assert_eq!(rt; sink.bytes.as_slice(), wanted.as_bytes());
        assert_eq!(rt; source.calls, 0);
        assert_eq!(rt; source.faults, 0);
    }
    Ok(())
}

// Each command that reads a source.
const READERS: &[&[&str]] = &[
    &["show"],
    &["table"],
    &["verify"],
    &["orbits"],
    &["matrix"],
    &["solve"],
    &["solve", "--json"],
];

// An input whose first line is no statement, and which is as large as a source may be: that line is refused. With a byte more, the size is;
// and a read that fails comes before either.
#[test]
fn large_sources_fail_at_their_last_reads(rt: HostRuntime) -> Result<(), Fail> {
    let mut input = Vec::new(rt.alloc());
    input.push(b'x')?;
    input.push(b'\n')?;
    input.resize(1_048_576, b'#')?;
    for words in READERS {
        for (failing, code, wanted) in [
            (256u64, 4, ""),
            (257, 4, ""),
            (258, 3, "source refused line 1 BadWord\n"),
        ] {
            let (status, source, sink) = run_over(
                rt.alloc(),
                words,
                input.as_slice(),
                4096,
                failing,
                4096,
            )?;
            assert_eq!(rt; status.code(), code, "at read {failing}");
            assert_eq!(rt; sink.bytes.as_slice(), wanted.as_bytes());
            assert_eq!(rt; source.calls, failing.min(257));
        }
    }
    Ok(())
}

#[test]
fn too_large_sources_fail_at_their_last_reads(rt: HostRuntime) -> Result<(), Fail> {
    let mut input = Vec::new(rt.alloc());
    input.push(b'x')?;
    input.push(b'\n')?;
    input.resize(1_048_577, b'#')?;
    for words in READERS {
        for (failing, code) in [(256u64, 4), (257, 4), (258, 8)] {
            let (status, source, sink) = run_over(
                rt.alloc(),
                words,
                input.as_slice(),
                4096,
                failing,
                4096,
            )?;
            assert_eq!(rt; status.code(), code, "at read {failing}");
            assert_eq!(rt; sink.bytes.len(), 0);
            assert_eq!(rt; sink.calls, 0);
            assert_eq!(rt; source.calls, failing.min(257));
        }
    }
    Ok(())
}
