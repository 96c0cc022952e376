// The command `solve`: texts that were worked out by hand or by another program, from the definitions of a design and of a
// node.
use super::*;
use crate::tests::run_over;
use std::process::Abort;
use std::test::Fail;

const SEVEN: &str = "group 7\nk 3\nlambda 1\n";

// The lines of a search's text before its entries and designs.
const SEVEN_HEAD: &str =
    "dossier 2\nsource 6\ngroup 7\nfixed 0\nshift all\nk 3\nlambda 1\nhole 1\nfrom 0\n";

// Runs `solve` with these options over a source, and compares the exit status, the beginning and the end of its text.
fn assert_solved(
    rt: &(impl Abort + AllocGlobal),
    words: &[&str],
    source: &str,
    code: u8,
    begin: &str,
    end: &str,
) -> Result<(), Fail> {
    let (status, _, sink) = run_over(rt.alloc(), words, source.as_bytes(), 64, 0, 65_536)?;
    let text = sink.bytes.as_slice();
    assert_eq!(rt; status.code(), code, "at {source}");
    assert!(rt;
        text.starts_with(begin.as_bytes()),
        "the beginning at {source}"
    );
    assert!(rt; text.ends_with(end.as_bytes()), "the end at {source}");
    Ok(())
}

// The planes of order 2, each end of a budget, with and without the log and the blocks.
#[test]
fn tells_the_planes_of_order_2(rt: HostRuntime) -> Result<(), Fail> {
    for (words, code, wanted) in [
        (
            &["solve"][..],
            0,
            "design 0 1 3\ndesign 0 1 5\nend finished designs 2 nodes 4\n",
        ),
        (
            &["solve", "--log"][..],
            0,
            "branch 0\nsettled\ndesign 0 1 3\nbranch 1\nsettled\ndesign 0 1 5\nunder 0\nend finished designs 2 nodes 4\n",
        ),
        (
            &["solve", "--blocks", "--budget", "2"][..],
            7,
            "design 0 1 3\n# block 0 1 3\n# block 0 2 6\n# block 0 4 5\n# block 1 2 4\n# block 1 5 6\n# block 2 3 5\n# block 3 4 6\nend spent designs 1 nodes 2 next 1\n",
        ),
        (
            &["solve", "--budget", "1", "--log"][..],
            7,
            "branch 0\nend spent designs 0 nodes 1 next 1 0\n",
        ),
        (
            &["solve", "--budget", "3", "--log"][..],
            7,
            "branch 0\nsettled\ndesign 0 1 3\nbranch 1\nend spent designs 1 nodes 3 next 2 1\n",
        ),
        (
            &["solve", "--budget", "3"][..],
            7,
            "design 0 1 3\nend spent designs 1 nodes 3 next 2 1\n",
        ),
        (
            &["solve", "--budget", "4"][..],
            0,
            "design 0 1 3\ndesign 0 1 5\nend finished designs 2 nodes 4\n",
        ),
    ] {
        let (status, _, sink) = run_over(rt.alloc(), words, SEVEN.as_bytes(), 16, 0, 4096)?;
        let text = sink.bytes.as_slice();
        assert_eq!(rt; status.code(), code);
        assert!(rt; text.starts_with(SEVEN_HEAD.as_bytes()));
        assert_eq!(rt; text.len(), SEVEN_HEAD.len() + wanted.len());
        assert!(rt; text.ends_with(wanted.as_bytes()));
    }
    Ok(())
}

// The designs, in their order, and the nodes.
#[test]
fn lists_all_designs(rt: HostRuntime) -> Result<(), Fail> {
    for (source, end) in [
        (
            "group 7\nk 3\nlambda 0\n",
            "from 0\ndesign\nend finished designs 1 nodes 1\n",
        ),
        (
            "group 9\nk 3\nlambda 1\n",
            "from 0\nend finished designs 0 nodes 18\n",
        ),
        (
            "group 13\nk 4\nlambda 1\n",
            "from 0\ndesign 0 1 3 9\ndesign 0 1 4 6\ndesign 0 1 5 11\ndesign 0 1 8 10\nend finished designs 4 nodes 8\n",
        ),
        (
            "group 13\nmult 3\nk 4\nlambda 1\n",
            "from 0\ndesign 0 1 3 9\ndesign 0 1 4 6\ndesign 0 1 5 11\ndesign 0 1 8 10\nend finished designs 4 nodes 8\n",
        ),
        (
            "group 5\nk 5\nlambda 1\n",
            "from 0\ndesign 0 1 2 3 4\nend finished designs 1 nodes 2\n",
        ),
        (
            "group 8\nsubgroup N 4\nk 3\nlambda 1\ninside N 0\n",
            "from 0\ndesign 0 1 3\ndesign 0 1 6\nend finished designs 2 nodes 4\n",
        ),
        (
            "version 2\ngroup 6\nk 2 3\nlambda 1\nrequire 0 2 4\n",
            "from 0\ndesign 0 1 ; 0 2 4 ; 0 3\nend finished designs 1 nodes 6\n",
        ),
    ] {
        assert_solved(&rt, &["solve"], source, 0, "dossier 2\nsource ", end)?;
    }
    Ok(())
}

// The log, with a fixed point, with a row that has a residue, and where the empty path is no node; and a limit.
#[test]
fn tells_logs_and_limits(rt: HostRuntime) -> Result<(), Fail> {
    for (source, code, begin, end) in [
        (
            "group 8\nfixed 1\nk 3\nlambda 1\n",
            0,
            "dossier 2\nsource 6\ngroup 8\nfixed 1\nshift all\nk 3\nlambda 1\nhole 1\nfrom 0\n",
            "\nfrom 0\nbranch 0\nbranch 1\nover 0\nbranch 2\nsettled\ndesign 0 1 3 ; 0 4 inf1\nunder 3\nbranch 1\nbranch 2\nsettled\ndesign 0 1 6 ; 0 4 inf1\nunder 3\nunder 0\nend finished designs 2 nodes 7\n",
        ),
        (
            "group 7\nmult 6\nk 3\nlambda 3\n",
            0,
            "dossier 2\nsource 7\ngroup 7\nfixed 0\nshift all\nmult 6\nk 3\nlambda 3\nhole 3\nfrom 0\n",
            "\nfrom 0\nbranch 0\nbranch 1\nover 0\nbranch 2\nbranch 3\nsettled\ndesign 0 1 2 ; 0 1 4 ; 0 2 4\nunder 1\nunder 0\nresidue 1 2\nend finished designs 1 nodes 5\n",
        ),
        (
            "group 13\nmult 12\nk 4\nlambda 1\n",
            0,
            "dossier 2\n",
            "\nfrom 0\nunder 0\nend finished designs 0 nodes 0\n",
        ),
        (
            "group 64\nk 6\nlambda 1\n",
            3,
            "limit subsets 6 of 64 above 2000000\n",
            "limit subsets 6 of 64 above 2000000\n",
        ),
    ] {
        assert_solved(&rt, &["solve", "--log"], source, code, begin, end)?;
    }
    Ok(())
}

// Each budget below the number of nodes is spent, and the next is enough.
#[test]
fn spends_each_budget(rt: HostRuntime) -> Result<(), Fail> {
    for (budget, code, end) in [
        ("1", 7, "\nend spent designs 0 nodes 1 next 1 0\n"),
        ("2", 7, "\nend spent designs 0 nodes 2 next 2 0\n"),
        ("3", 7, "\nend spent designs 0 nodes 3 next 3 0 2\n"),
        (
            "4",
            7,
            "\ndesign 0 1 3 ; 0 4 inf1\nend spent designs 1 nodes 4 next 1\n",
        ),
        (
            "5",
            7,
            "\ndesign 0 1 3 ; 0 4 inf1\nend spent designs 1 nodes 5 next 2 1\n",
        ),
        (
            "6",
            7,
            "\ndesign 0 1 3 ; 0 4 inf1\nend spent designs 1 nodes 6 next 3 1 2\n",
        ),
        (
            "7",
            0,
            "\ndesign 0 1 3 ; 0 4 inf1\ndesign 0 1 6 ; 0 4 inf1\nend finished designs 2 nodes 7\n",
        ),
        (
            "8",
            0,
            "\ndesign 0 1 3 ; 0 4 inf1\ndesign 0 1 6 ; 0 4 inf1\nend finished designs 2 nodes 7\n",
        ),
    ] {
        let words = &["solve", "--budget", budget][..];
        let source = "group 8\nfixed 1\nk 3\nlambda 1\n";
        assert_solved(&rt, words, source, code, "dossier 2\n", end)?;
    }
    Ok(())
}

// A fault at each read, and each room of the sink.
#[test]
fn tells_faults_of_a_search(rt: HostRuntime) -> Result<(), Fail> {
    for failing in 1..4u64 {
        let (status, _, sink) = run_over(
            rt.alloc(),
            &["solve"],
            SEVEN.as_bytes(),
            16,
            failing,
            4096,
        )?;
        assert_eq!(rt; status.code(), 4, "at call {failing}");
        assert_eq!(rt; sink.bytes.len(), 0);
    }
    let words = &["solve", "--log", "--blocks", "--budget", "3"][..];
    let (status, _, whole) = run_over(rt.alloc(), words, SEVEN.as_bytes(), 16, 0, 4096)?;
    assert_eq!(rt; status.code(), 7);
    let wanted = whole.bytes.as_slice();
    for room in 0..wanted.len() {
        let (status, _, sink) = run_over(rt.alloc(), words, SEVEN.as_bytes(), 16, 0, room)?;
        assert_eq!(rt; status.code(), 5, "at room {room}");
        assert_eq!(rt; sink.bytes.as_slice(), &wanted[..room], "at room {room}");
    }
    Ok(())
}
