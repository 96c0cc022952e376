// Chains of runs, each of which reads the text that the one before wrote: their logs, joined, are that of one run, and their nodes
// add up to its nodes, whatever the budgets.
use super::*;
use crate::resume_tests::joined;
use crate::tests::run_over;
use df_io::MemSink;
use std::process::Abort;
use std::test::Fail;

// More than any search here has nodes, and a bound on how many runs a chain has.
const ALL: u64 = 1_000_000;

// The lines between the `from` line and the end line, and the end line without its first word.
fn log_and_end(text: &str) -> Option<(&str, &str)> {
    let (_, from) = text.split_once("\nfrom ")?;
    let (_, lines) = from.split_once("\n")?;
    lines.rsplit_once("end ")
}

// The number behind a word.
fn number_after(text: &str, word: &str) -> Option<u64> {
    let (_, rest) = text.split_once(word)?;
    let number = rest.split_ascii_whitespace().next()?;
    number.parse::<u64>().ok()
}

// The runs of a chain: their logs joined, and how many nodes and designs they tell of.
#[derive(Drop)]
struct Chain {
    log: String,
    nodes: u64,
    designs: u64,
}

// Runs `resume` with a budget, with the log or without. It is spent exactly where its end line says so.
fn resume_once(
    rt: &(impl Abort + AllocGlobal),
    input: &str,
    logged: bool,
    budget: u64,
) -> Result<MemSink, Fail> {
    let alloc = rt.alloc();
    let number = format!(in alloc; "{budget}")?;
    let mut words = Vec::new(alloc);
    words.push("resume")?;
    words.push("--budget")?;
    words.push(number.as_str())?;
    if logged {
        words.push("--log")?;
    }
    let (status, _, sink) = run_over(alloc, words.as_slice(), input.as_bytes(), 4096, 0, 65_536)?;
    let text = std::str::from_utf8(sink.bytes.as_slice()).unwrap_or("");
    let wanted = if text.contains("\nend spent ") { 7 } else { 0 };
    assert_eq!(rt; status.code(), wanted, "after {input}");
    Ok(sink)
}

// Follows a chain from a dossier to its end. The first run has one budget, and each later one another.
fn follow(
    rt: &(impl Abort + AllocGlobal),
    start: &str,
    logged: bool,
    first: u64,
    later: u64,
) -> Result<Chain, Fail> {
    let alloc = rt.alloc();
    let mut input = joined(alloc, &[start])?;
    let mut chain = Chain {
        log: String::new(alloc),
        nodes: 0,
        designs: 0,
    };
    let mut budget = first;
    for _ in 0..100 {
        let sink = resume_once(rt, input.as_str(), logged, budget)?;
        let text = std::str::from_utf8(sink.bytes.as_slice()).unwrap_or("");
        let (log, end) = log_and_end(text).unwrap_or(("", ""));
        chain.log.push_str(log)?;
        let nodes = number_after(end, " nodes ").unwrap_or(ALL);
        chain.nodes = chain.nodes.saturating_add(nodes);
        let designs = number_after(end, " designs ").unwrap_or(ALL);
        chain.designs = chain.designs.saturating_add(designs);
        if !end.starts_with("spent") {
            return Ok(chain);
        }
        assert_eq!(rt; nodes, budget, "after {input}");
        input = joined(alloc, &[text])?;
        budget = later;
    }
    assert!(rt; false, "{start} has too many runs");
    Ok(chain)
}

// Compares the chains of all budgets with one run, of a head.
fn assert_chains<'t>(
    rt: &(impl Abort + AllocGlobal),
    head: &'t str,
    source: &'t str,
    logged: bool,
    nodes: u64,
    designs: u64,
) -> Result<(), Fail> {
    let end = "from 0\nend spent designs 0 nodes 1 next 0\n";
    let start = joined(rt.alloc(), &[head, source, end])?;
    let whole = follow(rt, start.as_str(), logged, ALL, ALL)?;
    assert_eq!(rt; whole.nodes, nodes, "at {source}");
    assert_eq!(rt; whole.designs, designs, "at {source}");
    for before in 0..nodes {
        for later in [1u64, 2, 3, ALL] {
            let chain = follow(rt, start.as_str(), logged, before + 1, later)?;
            assert_eq!(rt; chain.log.as_str(), whole.log.as_str(), "at {source}");
            assert_eq!(rt; chain.nodes, nodes, "at {source}");
            assert_eq!(rt; chain.designs, designs, "at {source}");
        }
    }
    Ok(())
}

// Of one source with each head, with the log and without, whose one run is that of `solve`. The rules with divisors may have fewer
// nodes.
fn assert_all_chains(
    rt: &(impl Abort + AllocGlobal),
    source: &str,
    plain_nodes: u64,
    nodes: u64,
    designs: u64,
) -> Result<(), Fail> {
    for logged in [false, true] {
        assert_chains(rt, "dossier 1\n", source, logged, plain_nodes, designs)?;
        assert_chains(rt, "dossier 2\n", source, logged, nodes, designs)?;
    }
    Ok(())
}

#[test]
fn planes_of_order_2_in_chains(rt: HostRuntime) -> Result<(), Fail> {
    assert_all_chains(&rt, "source 3\ngroup 7\nk 3\nlambda 1\n", 4, 4, 2)
}

#[test]
fn a_fixed_point_in_chains(rt: HostRuntime) -> Result<(), Fail> {
    assert_all_chains(&rt, "source 4\ngroup 8\nfixed 1\nk 3\nlambda 1\n", 7, 7, 2)
}

#[test]
fn planes_of_order_3_in_chains(rt: HostRuntime) -> Result<(), Fail> {
    assert_all_chains(&rt, "source 3\ngroup 13\nk 4\nlambda 1\n", 8, 8, 4)
}

#[test]
fn a_residue_in_chains(rt: HostRuntime) -> Result<(), Fail> {
    assert_all_chains(&rt, "source 4\ngroup 7\nmult 6\nk 3\nlambda 3\n", 7, 5, 1)
}

#[test]
fn two_sizes_in_chains(rt: HostRuntime) -> Result<(), Fail> {
    let source = "source 5\nversion 2\ngroup 6\nk 2 3\nlambda 1\nrequire 0 2 4\n";
    assert_all_chains(&rt, source, 6, 6, 1)
}

#[test]
fn no_design_in_chains(rt: HostRuntime) -> Result<(), Fail> {
    assert_all_chains(&rt, "source 3\ngroup 9\nk 3\nlambda 1\n", 18, 18, 0)
}

// What `solve` writes is gone on with, and all is what one search writes.
#[test]
fn solve_and_then_resume(rt: HostRuntime) -> Result<(), Fail> {
    let source = "group 13\nk 4\nlambda 1\n";
    let alloc = rt.alloc();
    let (_, _, one) = run_over(alloc, &["solve", "--log"], source.as_bytes(), 64, 0, 65_536)?;
    let whole = std::str::from_utf8(one.bytes.as_slice()).unwrap_or("");
    let (wanted, _) = log_and_end(whole).unwrap_or(("", "none"));
    for first in 1..8u64 {
        let number = format!(in alloc; "{first}")?;
        let words = ["solve", "--log", "--budget", number.as_str()];
        let (status, _, sink) = run_over(alloc, &words, source.as_bytes(), 64, 0, 65_536)?;
        assert_eq!(rt; status.code(), 7);
        let text = std::str::from_utf8(sink.bytes.as_slice()).unwrap_or("");
        let (begun, _) = log_and_end(text).unwrap_or(("none", ""));
        for later in [1u64, 2, 3, ALL] {
            let chain = follow(&rt, text, true, later, later)?;
            let mut all = joined(alloc, &[begun])?;
            all.push_str(chain.log.as_str())?;
            assert_eq!(rt; all.as_str(), wanted, "after {first} and {later}");
            assert_eq!(rt; chain.nodes, 8 - first);
        }
    }
    Ok(())
}
