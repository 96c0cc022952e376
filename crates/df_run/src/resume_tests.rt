// The command `resume`: dossiers that were written by hand, from the definitions of a node and of the walk; and faults.
use super::*;
use crate::tests::run_over;
use std::alloc::{AllocError, Global};
use std::process::Abort;
use std::test::Fail;

pub(crate) const SEVEN: &str = "source 6\ngroup 7\nfixed 0\nshift all\nk 3\nlambda 1\nhole 1\n";

pub(crate) const EIGHT: &str = "source 6\ngroup 8\nfixed 1\nshift all\nk 3\nlambda 1\nhole 1\n";

const RESIDUE: &str = "source 7\ngroup 7\nfixed 0\nshift all\nmult 6\nk 3\nlambda 3\nhole 3\n";

// Pieces of a text, joined.
pub(crate) fn joined(alloc: Global, pieces: &[&str]) -> Result<String, AllocError> {
    let mut text = String::new(alloc);
    for piece in pieces {
        text.push_str(piece)?;
    }
    Ok(text)
}

// Runs the words over a dossier of each head, in pieces of three lengths, and compares the exit status and the text, which has
// the same head and source lines.
fn assert_goes_on<'t>(
    rt: &(impl Abort + AllocGlobal),
    words: &[&str],
    source: &'t str,
    log: &'t str,
    code: u8,
    wanted: &'t str,
) -> Result<(), Fail> {
    for head in ["dossier 1\n", "dossier 2\n"] {
        let input = joined(rt.alloc(), &[head, source, log])?;
        let text = joined(rt.alloc(), &[head, source, wanted])?;
        for piece in [1usize, 7, 4096] {
            let (status, source, sink) = run_over(
                rt.alloc(),
                words,
                input.as_bytes(),
                piece,
                0,
                65_536,
            )?;
            assert_eq!(rt; status.code(), code, "at {log}");
            assert_eq!(rt; sink.bytes.as_slice(), text.as_bytes(), "at {log}");
            assert_eq!(rt; source.at, input.len());
        }
    }
    Ok(())
}

// Runs `resume` over an input, which is refused with a line of text and read to its end.
pub(crate) fn assert_refused(
    rt: &(impl Abort + AllocGlobal),
    pieces: &[&str],
    wanted: &str,
) -> Result<(), Fail> {
    let input = joined(rt.alloc(), pieces)?;
    let (status, source, sink) = run_over(rt.alloc(), &["resume"], input.as_bytes(), 16, 0, 4096)?;
    assert_eq!(rt; status.code(), 3, "not {wanted}");
    assert_eq!(rt; sink.bytes.as_slice(), wanted.as_bytes(), "not {wanted}");
    assert_eq!(rt; source.at, input.len());
    Ok(())
}

// The planes of order 2 from each of their nodes.
#[test]
fn goes_on_through_the_planes_of_order_2(rt: HostRuntime) -> Result<(), Fail> {
    for (words, log, code, wanted) in [
        (
            &["resume", "--log"][..],
            "from 0\nbranch 0\nsettled\ndesign 0 1 3\nend spent designs 1 nodes 2 next 1\n",
            0,
            "from 1\nbranch 1\nsettled\ndesign 0 1 5\nunder 0\nend finished designs 1 nodes 2\n",
        ),
        (
            &["resume", "--budget", "1", "--log"][..],
            "from 0\nbranch 0\nsettled\ndesign 0 1 3\nend spent designs 1 nodes 2 next 1\n",
            7,
            "from 1\nbranch 1\nend spent designs 0 nodes 1 next 2 1\n",
        ),
        (
            &["resume", "--log"][..],
            "from 1\nbranch 1\nend spent designs 0 nodes 1 next 2 1\n",
            0,
            "from 2 1\nsettled\ndesign 0 1 5\nunder 0\nend finished designs 1 nodes 1\n",
        ),
        (
            &["resume", "--blocks", "--budget", "2"][..],
            "from 0\nend spent designs 0 nodes 1 next 1 0\n",
            7,
            "from 1 0\ndesign 0 1 3\n# block 0 1 3\n# block 0 2 6\n# block 0 4 5\n# block 1 2 4\n# block 1 5 6\n# block 2 3 5\n# block 3 4 6\nend spent designs 1 nodes 2 next 2 1\n",
        ),
        (
            &["resume"][..],
            "from 2 1 # any path\n\ndesign 0 1 2 ; 0 1 3\nover 4\nend spent designs 7 nodes 9 next 0 # all\n",
            0,
            "from 0\ndesign 0 1 3\ndesign 0 1 5\nend finished designs 2 nodes 4\n",
        ),
    ] {
        assert_goes_on(&rt, words, SEVEN, log, code, wanted)?;
    }
    Ok(())
}

// A fixed point; four planes of order 3; differences in a subgroup.
#[test]
fn goes_on_through_other_designs(rt: HostRuntime) -> Result<(), Fail> {
    for (words, source, log, code, wanted) in [
        (
            &["resume", "--log"][..],
            EIGHT,
            "from 0\nend spent designs 1 nodes 4 next 1\n",
            0,
            "from 1\nbranch 1\nbranch 2\nsettled\ndesign 0 1 6 ; 0 4 inf1\nunder 3\nunder 0\nend finished designs 1 nodes 3\n",
        ),
        (
            &["resume", "--log", "--budget", "2"][..],
            EIGHT,
            "from 0\nend spent designs 0 nodes 2 next 2 0\n",
            7,
            "from 2 0\nbranch 2\nsettled\ndesign 0 1 3 ; 0 4 inf1\nunder 3\nend spent designs 1 nodes 2 next 1\n",
        ),
        (
            &["resume"][..],
            "source 6\ngroup 13\nfixed 0\nshift all\nk 4\nlambda 1\nhole 1\n",
            "from 0\nend spent designs 2 nodes 4 next 2\n",
            0,
            "from 2\ndesign 0 1 5 11\ndesign 0 1 8 10\nend finished designs 2 nodes 4\n",
        ),
        (
            &["resume"][..],
            "source 8\ngroup 8\nfixed 0\nsubgroup N 4\nshift all\nk 3\nlambda 1\ninside N 0\nhole 1\n",
            "from 0\nend spent designs 1 nodes 2 next 1\n",
            0,
            "from 1\ndesign 0 1 6\nend finished designs 1 nodes 2\n",
        ),
    ] {
        assert_goes_on(&rt, words, source, log, code, wanted)?;
    }
    Ok(())
}

// The first 67 columns are left out, and the walk begins behind them: a search from the first column on would pass every
// design that holds one of them.
#[test]
fn goes_on_behind_67_columns(rt: HostRuntime) -> Result<(), Fail> {
    assert_goes_on(
        &rt,
        &["resume", "--budget", "1"],
        "source 6\ngroup 73\nfixed 0\nshift all\nk 3\nlambda 1\nhole 1\n",
        "from 0\nend spent designs 0 nodes 1 next 67\n",
        7,
        "from 67\nend spent designs 0 nodes 1 next 68 67\n",
    )
}

// The rules are those of the head: by the rules with divisors the path is given up, and by the others it is a node.
#[test]
fn goes_on_by_the_rules_of_the_head(rt: HostRuntime) -> Result<(), Fail> {
    let log = "from 0\nend spent designs 1 nodes 5 next 1\n";
    assert_refused(
        &rt,
        &["dossier 2\n", RESIDUE, log],
        "path refused residue 1\n",
    )?;
    let input = joined(rt.alloc(), &["dossier 1\n", RESIDUE, log])?;
    let wanted = joined(
        rt.alloc(),
        &[
            "dossier 1\n",
            RESIDUE,
            "from 1\nend finished designs 0 nodes 2\n",
        ],
    )?;
    let (status, _, sink) = run_over(rt.alloc(), &["resume"], input.as_bytes(), 16, 0, 4096)?;
    assert_eq!(rt; status.code(), 0);
    assert_eq!(rt; sink.bytes.as_slice(), wanted.as_bytes());
    Ok(())
}

// A fault at each read, also after a line that is refused and where the path is no node; and each room of the sink.
#[test]
fn tells_faults_of_a_search_that_goes_on(rt: HostRuntime) -> Result<(), Fail> {
    for end in [
        "next 1\n",
        "next 2 0 1\n",
        "next 1\nx # and more and more\n",
    ] {
        let log = "from 0\nend spent designs 1 nodes 2 ";
        let input = joined(rt.alloc(), &["dossier 2\n", SEVEN, log, end])?;
        for failing in 1..9u64 {
            let (status, source, sink) = run_over(
                rt.alloc(),
                &["resume"],
                input.as_bytes(),
                16,
                failing,
                4096,
            )?;
            assert_eq!(rt; status.code(), 4, "at call {failing}");
            assert_eq!(rt; sink.bytes.len(), 0);
            assert_eq!(rt; source.calls, failing);
        }
    }
    let input = joined(
        rt.alloc(),
        &[
            "dossier 2\n",
            SEVEN,
            "from 0\nend spent designs 0 nodes 1 next 1 0\n",
        ],
    )?;
    let words = &["resume", "--log", "--blocks", "--budget", "2"][..];
    let (status, _, whole) = run_over(rt.alloc(), words, input.as_bytes(), 16, 0, 4096)?;
    assert_eq!(rt; status.code(), 7);
    let wanted = whole.bytes.as_slice();
    for room in 0..wanted.len() {
        let (status, _, sink) = run_over(rt.alloc(), words, input.as_bytes(), 16, 0, room)?;
        assert_eq!(rt; status.code(), 5, "at room {room}");
        assert_eq!(rt; sink.bytes.as_slice(), &wanted[..room], "at room {room}");
    }
    Ok(())
}
