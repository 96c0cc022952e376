// The command `check` over chains of dossiers: in the right order and in others, cut anywhere, with other sources; and over what
// `solve` and `resume` wrote themselves.
use super::*;
use crate::check_tests::{HEAD, PLANES, assert_checked};
use crate::resume_tests::joined;
use crate::tests::run_over;
use std::alloc::{AllocError, Global};
use std::process::Abort;
use std::test::Fail;

// The search for the planes of order 2 with a budget of one node, of one more, and without another.
pub(crate) const FIRST: &str = "from 0\nbranch 0\nend spent designs 0 nodes 1 next 1 0\n";

pub(crate) const SECOND: &str =
    "from 1 0\nsettled\ndesign 0 1 3\nend spent designs 1 nodes 1 next 1\n";

pub(crate) const LAST: &str =
    "from 1\nbranch 1\nsettled\ndesign 0 1 5\nunder 0\nend finished designs 1 nodes 2\n";

// The same with two nodes at first.
const TWO: &str = "from 0\nbranch 0\nsettled\ndesign 0 1 3\nend spent designs 1 nodes 2 next 1\n";

// Dossiers of the planes of order 2, one after another.
pub(crate) fn chain_of(alloc: Global, logs: &[&str]) -> Result<String, AllocError> {
    let mut text = String::new(alloc);
    for log in logs {
        text.push_str(HEAD)?;
        text.push_str(log)?;
    }
    Ok(text)
}

#[test]
fn checks_chains_in_their_order_alone(rt: HostRuntime) -> Result<(), Fail> {
    for (logs, code, wanted) in [
        (&[TWO, LAST][..], 0, "complete 2\n"),
        (&[LAST, TWO][..], 1, "refused line 9 ChainBroken\n"),
        (&[TWO][..], 1, "refused line 13 OpenAtEnd\n"),
        (&[LAST][..], 1, "refused line 9 ChainBroken\n"),
        (&[FIRST, SECOND, LAST][..], 0, "complete 2\n"),
        (&[FIRST][..], 1, "refused line 11 OpenAtEnd\n"),
        (&[FIRST, SECOND][..], 1, "refused line 23 OpenAtEnd\n"),
        (&[FIRST, LAST][..], 1, "refused line 20 ChainBroken\n"),
        (
            &[FIRST, LAST, SECOND][..],
            1,
            "refused line 20 ChainBroken\n",
        ),
        (
            &[SECOND, FIRST, LAST][..],
            1,
            "refused line 9 ChainBroken\n",
        ),
        (
            &[SECOND, LAST, FIRST][..],
            1,
            "refused line 9 ChainBroken\n",
        ),
        (
            &[LAST, FIRST, SECOND][..],
            1,
            "refused line 9 ChainBroken\n",
        ),
        (
            &[LAST, SECOND, FIRST][..],
            1,
            "refused line 9 ChainBroken\n",
        ),
        (
            &[FIRST, FIRST, SECOND, LAST][..],
            1,
            "refused line 20 ChainBroken\n",
        ),
        (
            &[FIRST, SECOND, SECOND, LAST][..],
            1,
            "refused line 32 ChainBroken\n",
        ),
        (
            &[FIRST, SECOND, LAST, LAST][..],
            1,
            "refused line 46 ChainBroken\n",
        ),
        (
            &[FIRST, SECOND, LAST, FIRST][..],
            1,
            "refused line 46 ChainBroken\n",
        ),
    ] {
        let input = chain_of(rt.alloc(), logs)?;
        assert_checked(&rt, input.as_str(), code, wanted)?;
    }
    Ok(())
}

// The lines of the planes' log from a number on, as many as are told: the numbers are those of the log's own lines, from 0.
fn lines_between(alloc: Global, from: usize, to: usize) -> Result<String, AllocError> {
    let mut text = String::new(alloc);
    for (place, line) in PLANES.iter().enumerate() {
        if place >= from && place < to {
            text.push_str(line)?;
            text.push_str("\n")?;
        }
    }
    Ok(text)
}

const STOP: &str = "end spent designs 0 nodes 1 next 3 1\n";

const END: &str = "end finished designs 2 nodes 4\n";

// The planes' log up to a line, in a dossier with this end line.
fn begun(alloc: Global, cut: usize, end: &str) -> Result<String, AllocError> {
    let lines = lines_between(alloc, 9, cut)?;
    let mut text = String::new(alloc);
    text.push_str(HEAD)?;
    text.push_str("from 0\n")?;
    text.push_str(lines.as_str())?;
    text.push_str(end)?;
    Ok(text)
}

// The same, and the other lines in a dossier that begins with this line.
fn cut_at(alloc: Global, cut: usize, end: &str, from: &str) -> Result<String, AllocError> {
    let mut text = begun(alloc, cut, end)?;
    let lines = lines_between(alloc, cut, 16)?;
    text.push_str(HEAD)?;
    text.push_str(from)?;
    text.push_str(lines.as_str())?;
    text.push_str(END)?;
    Ok(text)
}

// Compares the answer to an input with the refusal of a line.
fn assert_refused_at(
    rt: &(impl Abort + AllocGlobal),
    input: &str,
    line: usize,
    fault: &str,
) -> Result<(), Fail> {
    let wanted = format!(in rt.alloc(); "refused line {line} {fault}\n")?;
    assert_checked(rt, input, 1, wanted.as_str())
}

// A dossier may stop between any two lines, also between an entry and its design, and at any path, if the next one begins there.
#[test]
fn checks_chains_that_are_cut_anywhere(rt: HostRuntime) -> Result<(), Fail> {
    for cut in 9..17usize {
        let chain = cut_at(rt.alloc(), cut, STOP, "from 3 1\n")?;
        assert_checked(&rt, chain.as_str(), 0, "complete 2\n")?;
        let elsewhere = cut_at(rt.alloc(), cut, STOP, "from 3 2\n")?;
        assert_refused_at(&rt, elsewhere.as_str(), cut + 10, "ChainBroken")?;
        let alone = begun(rt.alloc(), cut, STOP)?;
        assert_refused_at(&rt, alone.as_str(), cut + 1, "OpenAtEnd")?;
    }
    Ok(())
}

// A dossier that is finished in place of spent: its log is open, but for the last one, which has all lines.
#[test]
fn refuses_dossiers_that_are_finished_early(rt: HostRuntime) -> Result<(), Fail> {
    for cut in 9..16usize {
        let chain = cut_at(rt.alloc(), cut, END, "from 3 1\n")?;
        assert_refused_at(&rt, chain.as_str(), cut + 1, "OpenAtEnd")?;
    }
    let chain = cut_at(rt.alloc(), 16, END, "from 3 1\n")?;
    assert_refused_at(&rt, chain.as_str(), 26, "ChainBroken")
}

// Each dossier has the source of the first, byte for byte; its head may be another.
#[test]
fn compares_sources(rt: HostRuntime) -> Result<(), Fail> {
    for (head, code, wanted) in [
        (HEAD, 0, "complete 2\n"),
        (
            "\n# between\ndossier 1 # plain\nsource 06\ngroup 7\nfixed 0\nshift all\nk 3\nlambda 1\nhole 1\n",
            0,
            "complete 2\n",
        ),
        (
            "dossier 2\nsource 5\ngroup 7\n",
            1,
            "refused line 15 SourceDiffers\n",
        ),
        (
            "dossier 2\nsource 6\ngroup 07\n",
            1,
            "refused line 16 SourceDiffers\n",
        ),
        (
            "dossier 2\nsource 6\n\ngroup 7\n",
            1,
            "refused line 16 SourceDiffers\n",
        ),
        (
            "dossier 2\nsource 6\ngroup 7\nfixed 0\nshift all\nk 3\nlambda 1\nhole 1 #\n",
            1,
            "refused line 21 SourceDiffers\n",
        ),
        ("dossier 3\n", 3, "dossier refused line 14 BadHead\n"),
    ] {
        let input = joined(rt.alloc(), &[HEAD, TWO, head, LAST])?;
        assert_checked(&rt, input.as_str(), code, wanted)?;
    }
    let input = joined(rt.alloc(), &[HEAD, TWO, "dossier 2\nsource 6\ngroup 7\n"])?;
    assert_checked(&rt, input.as_str(), 3, "dossier refused line 0 BadHead\n")
}

// Runs a search with its log and a budget over an input, and gives the text and whether the search is spent.
fn search(
    rt: &(impl Abort + AllocGlobal),
    command: &str,
    blocks: bool,
    budget: u64,
    input: &str,
) -> Result<(String, bool), Fail> {
    let alloc = rt.alloc();
    let number = format!(in alloc; "{budget}")?;
    let mut words = Vec::new(alloc);
    words.push(command)?;
    words.push("--log")?;
    words.push("--budget")?;
    words.push(number.as_str())?;
    if blocks {
        words.push("--blocks")?;
    }
    let (status, _, sink) = run_over(alloc, words.as_slice(), input.as_bytes(), 4096, 0, 65_536)?;
    let spent = status.code() == 7;
    assert!(rt; spent || status.code() == 0, "after {input}");
    let text = std::str::from_utf8(sink.bytes.as_slice()).unwrap_or("");
    let text = joined(alloc, &[text])?;
    Ok((text, spent))
}

// The texts of a search with its log and of those that go on with it, joined. The first has one budget, and each later one another; every
// other one shows the blocks of its designs.
fn written(
    rt: &(impl Abort + AllocGlobal),
    command: &str,
    input: &str,
    first: u64,
    later: u64,
) -> Result<String, Fail> {
    let (mut text, mut spent) = search(rt, command, false, first, input)?;
    let mut all = joined(rt.alloc(), &[text.as_str()])?;
    let mut blocks = true;
    for _ in 0..100 {
        if spent {
            let (next, stopped) = search(rt, "resume", blocks, later, text.as_str())?;
            all.push_str(next.as_str())?;
            text = next;
            spent = stopped;
            blocks = !blocks;
        }
    }
    assert!(rt; !spent, "{input} has too many runs");
    Ok(all)
}

// What searches for the designs of a source wrote is complete, cut by any budgets: new ones, and ones that go on from the empty path
// by the rules without divisors, where that is a node.
fn assert_own_logs(
    rt: &(impl Abort + AllocGlobal),
    source: &str,
    lines: u64,
    nodes: u64,
    wanted: &str,
) -> Result<(), Fail> {
    let alloc = rt.alloc();
    let plain = format!(in alloc;
        "dossier 1\nsource {lines}\n{source}from 0\nend spent designs 0 nodes 1 next 0\n"
    )?;
    for before in 0..nodes {
        for later in [1u64, 3, 1_000_000] {
            let solved = written(rt, "solve", source, before + 1, later)?;
            assert_checked(rt, solved.as_str(), 0, wanted)?;
            let resumed = written(rt, "resume", plain.as_str(), before + 1, later)?;
            assert_checked(rt, resumed.as_str(), 0, wanted)?;
        }
    }
    Ok(())
}

#[test]
fn takes_own_logs_of_planes(rt: HostRuntime) -> Result<(), Fail> {
    assert_own_logs(&rt, "group 7\nk 3\nlambda 1\n", 3, 4, "complete 2\n")?;
    assert_own_logs(&rt, "group 13\nk 4\nlambda 1\n", 3, 8, "complete 4\n")
}

#[test]
fn takes_own_logs_with_a_fixed_point(rt: HostRuntime) -> Result<(), Fail> {
    assert_own_logs(
        &rt,
        "group 8\nfixed 1\nk 3\nlambda 1\n",
        4,
        7,
        "complete 2\n",
    )
}

#[test]
fn takes_own_logs_with_a_residue(rt: HostRuntime) -> Result<(), Fail> {
    assert_own_logs(
        &rt,
        "group 7\nmult 6\nk 3\nlambda 3\n",
        4,
        5,
        "complete 1\n",
    )
}

#[test]
fn takes_own_logs_of_two_sizes(rt: HostRuntime) -> Result<(), Fail> {
    assert_own_logs(
        &rt,
        "version 2\ngroup 6\nk 2 3\nlambda 1\nrequire 0 2 4\n",
        5,
        6,
        "complete 1\n",
    )
}

#[test]
fn takes_own_logs_without_a_design(rt: HostRuntime) -> Result<(), Fail> {
    assert_own_logs(&rt, "group 9\nk 3\nlambda 1\n", 3, 4, "complete 0\n")
}

// The design without blocks, a search whose first path is no node, and logs that are longer than a buffer.
#[test]
fn takes_other_own_logs(rt: HostRuntime) -> Result<(), Fail> {
    for (source, wanted) in [
        ("group 7\nk 3\nlambda 0\n", "complete 1\n"),
        ("group 13\nmult 12\nk 4\nlambda 1\n", "complete 0\n"),
        ("group 3 3\nk 3\nlambda 1\n", "complete 9\n"),
        ("group 9\nk 3\nlambda 1\n", "complete 0\n"),
    ] {
        let all = written(&rt, "solve", source, 1_000_000, 1)?;
        assert_checked(&rt, all.as_str(), 0, wanted)?;
    }
    Ok(())
}
