// A pipe that closes: each room of the sink in turn, and a fault at each write in turn, of runs of each command. What was written is a proper
// prefix of the text, and no write follows the one that failed.
use super::*;
use crate::hostile_runs::{CHECKS, FINISHED, LATER, LISTINGS, SOURCES, STOPPED, Told, UNREAD};
use crate::tests::run_over;
use arrayvec::ArrayVec;
use df_io::{MemSink, MemSource};
use std::alloc::{AllocError, Global};
use std::process::Abort;
use std::test::Fail;

// Runs the words into a sink that has room for less than the text.
fn assert_room(rt: &(impl Abort + AllocGlobal), told: &Told<'_>, room: usize) -> Result<(), Fail> {
    let (words, input, _, wanted) = told;
    let (status, source, sink) = run_over(rt.alloc(), words, input.as_bytes(), 64, 0, room)?;
    let text = wanted.as_bytes();
    assert!(rt; room < text.len());
    let prefix = &text[..room];
    assert_eq!(rt; status.code(), 5, "at room {room} of {wanted}");
    assert_eq!(rt; sink.bytes.as_slice(), prefix, "at room {room}");
    assert_eq!(rt; sink.faults, 1, "at room {room} of {wanted}");
    assert_eq!(rt; source.faults, 0);
    Ok(())
}

// Runs the words into a sink that has room for just the text, or for more.
fn assert_written(
    rt: &(impl Abort + AllocGlobal),
    told: &Told<'_>,
    room: usize,
) -> Result<(), Fail> {
    let (words, input, code, wanted) = told;
    let (status, _, sink) = run_over(rt.alloc(), words, input.as_bytes(), 64, 0, room)?;
    assert_eq!(rt; status.code(), *code, "at room {room} of {wanted}");
    assert_eq!(rt; sink.bytes.as_slice(), wanted.as_bytes());
    assert_eq!(rt; sink.faults, 0);
    Ok(())
}

// Runs with each room in turn, up to the first that is enough.
fn assert_rooms(rt: &(impl Abort + AllocGlobal), runs: &[Told<'_>]) -> Result<(), Fail> {
    for told in runs {
        let size = told.3.len();
        for room in 0..size {
            assert_room(rt, told, room)?;
        }
        assert_written(rt, told, size)?;
        assert_written(rt, told, size.saturating_add(1))?;
    }
    Ok(())
}

#[test]
fn sources_are_answered_into_each_room(rt: HostRuntime) -> Result<(), Fail> {
    assert_rooms(&rt, SOURCES)
}

#[test]
fn finished_searches_are_told_into_each_room(rt: HostRuntime) -> Result<(), Fail> {
    assert_rooms(&rt, FINISHED)
}

#[test]
fn stopped_searches_are_told_into_each_room(rt: HostRuntime) -> Result<(), Fail> {
    assert_rooms(&rt, STOPPED)
}

#[test]
fn listings_are_told_into_each_room(rt: HostRuntime) -> Result<(), Fail> {
    assert_rooms(&rt, LISTINGS)
}

#[test]
fn later_searches_are_told_into_each_room(rt: HostRuntime) -> Result<(), Fail> {
    assert_rooms(&rt, LATER)
}

#[test]
fn checks_are_told_into_each_room(rt: HostRuntime) -> Result<(), Fail> {
    assert_rooms(&rt, CHECKS)
}

#[test]
fn workloads_and_other_words_are_told_into_each_room(rt: HostRuntime) -> Result<(), Fail> {
    assert_rooms(&rt, UNREAD)
}

// Runs the words into a sink with room enough, of which the write of one number fails.
fn run_into(
    alloc: Global,
    words: &[&str],
    input: &[u8],
    failing: u64,
) -> Result<(Status, MemSink), AllocError> {
    let mut owned = Vec::new(alloc);
    for word in words {
        owned.push(String::from_str(alloc, word)?)?;
    }
    let bytes = Vec::from_slice(alloc, input)?;
    let mut source = MemSource::new(bytes, 64, ArrayVec::new());
    let mut fails = ArrayVec::new();
    fails.push(failing);
    let mut sink = MemSink::new(alloc, 4096, fails)?;
    let status = run(alloc, owned.as_slice(), &mut source, &mut sink);
    Ok((status, sink))
}

// Runs with a fault at each write in turn, up to the first run without one; each gets further than the one before.
fn assert_write_faults(rt: &(impl Abort + AllocGlobal), told: &Told<'_>) -> Result<(), Fail> {
    let (words, input, code, wanted) = told;
    let text = wanted.as_bytes();
    let (_, whole) = run_into(rt.alloc(), words, input.as_bytes(), 0)?;
    let writes = whole.calls;
    let mut before = 0usize;
    for passed in 0..writes {
        let failing = passed + 1;
        let (status, sink) = run_into(rt.alloc(), words, input.as_bytes(), failing)?;
        let size = sink.bytes.len();
        assert_eq!(rt; status.code(), 5, "at write {failing} of {wanted}");
        assert!(rt; size < text.len(), "at write {failing} of {wanted}");
        assert_eq!(rt; sink.bytes.as_slice(), &text[..size]);
        assert_eq!(rt; sink.calls, failing);
        assert!(rt; failing == 1 && size == 0 || size > before);
        before = size;
    }
    let (status, sink) = run_into(
        rt.alloc(),
        words,
        input.as_bytes(),
        writes.saturating_add(1),
    )?;
    assert_eq!(rt; status.code(), *code, "not {wanted}");
    assert_eq!(rt; sink.bytes.as_slice(), text);
    assert_eq!(rt; sink.faults, 0);
    Ok(())
}

#[test]
fn sinks_fail_at_each_write(rt: HostRuntime) -> Result<(), Fail> {
    for runs in [SOURCES, FINISHED, STOPPED, LISTINGS, LATER, CHECKS, UNREAD] {
        for told in runs {
            assert_write_faults(&rt, told)?;
        }
    }
    Ok(())
}
