// The command `check`: logs of the planes of order 2, whole, cut off, forged and in another order, and what is read and written. Another
// program and a judge that goes by the definitions alone gave the texts.
use super::*;
use crate::resume_tests::joined;
use crate::tests::run_over;
use std::alloc::{AllocError, Global};
use std::process::Abort;
use std::test::Fail;

// The log of the planes of order 2, line by line: what `solve --log` writes of its canonical source.
pub(crate) const PLANES: &[&str] = &[
    "dossier 2",
    "source 6",
    "group 7",
    "fixed 0",
    "shift all",
    "k 3",
    "lambda 1",
    "hole 1",
    "from 0",
    "branch 0",
    "settled",
    "design 0 1 3",
    "branch 1",
    "settled",
    "design 0 1 5",
    "under 0",
    "end finished designs 2 nodes 4",
];

// Its head and source.
pub(crate) const HEAD: &str =
    "dossier 2\nsource 6\ngroup 7\nfixed 0\nshift all\nk 3\nlambda 1\nhole 1\n";

// Three designs of the blocks that a multiplier keeps, with an entry of a divisor.
const RESIDUE: &[&str] = &[
    "dossier 2",
    "source 7",
    "group 7",
    "fixed 0",
    "shift all",
    "mult 6",
    "k 3",
    "lambda 3",
    "hole 3",
    "from 0",
    "branch 0",
    "branch 1",
    "over 0",
    "branch 2",
    "branch 3",
    "settled",
    "design 0 1 2 ; 0 1 4 ; 0 2 4",
    "under 1",
    "under 0",
    "residue 1 2",
    "end finished designs 1 nodes 5",
];

// Lines as a text, each with its end.
pub(crate) fn text_of(alloc: Global, lines: &[&str]) -> Result<String, AllocError> {
    let mut text = String::new(alloc);
    for line in lines {
        text.push_str(line)?;
        text.push_str("\n")?;
    }
    Ok(text)
}

// Lines as a text, with others in place of the one of this number, from 1.
pub(crate) fn edited(
    alloc: Global,
    lines: &[&str],
    number: usize,
    others: &[&str],
) -> Result<String, AllocError> {
    let mut text = String::new(alloc);
    for (place, line) in lines.iter().enumerate() {
        if place + 1 == number {
            let inserted = text_of(alloc, others)?;
            text.push_str(inserted.as_str())?;
        } else {
            text.push_str(line)?;
            text.push_str("\n")?;
        }
    }
    Ok(text)
}

// Runs `check` over an input in pieces of three lengths, which is read to its end, and compares the exit status and the text.
pub(crate) fn assert_checked(
    rt: &(impl Abort + AllocGlobal),
    input: &str,
    code: u8,
    wanted: &str,
) -> Result<(), Fail> {
    for piece in [1usize, 7, 4096] {
        let (status, source, sink) = run_over(
            rt.alloc(),
            &["check"],
            input.as_bytes(),
            piece,
            0,
            4096,
        )?;
        assert_eq!(rt; status.code(), code, "at {input}");
        assert_eq!(rt; sink.bytes.as_slice(), wanted.as_bytes(), "at {input}");
        assert_eq!(rt; source.at, input.len());
    }
    Ok(())
}

// The same, of lines with others in place of one.
fn assert_edited(
    rt: &(impl Abort + AllocGlobal),
    lines: &[&str],
    number: usize,
    others: &[&str],
    code: u8,
    wanted: &str,
) -> Result<(), Fail> {
    let input = edited(rt.alloc(), lines, number, others)?;
    assert_checked(rt, input.as_str(), code, wanted)
}

#[test]
fn checks_whole_logs(rt: HostRuntime) -> Result<(), Fail> {
    let planes = text_of(rt.alloc(), PLANES)?;
    assert_checked(&rt, planes.as_str(), 0, "complete 2\n")?;
    let residue = text_of(rt.alloc(), RESIDUE)?;
    assert_checked(&rt, residue.as_str(), 0, "complete 1\n")?;
    let other = joined(
        rt.alloc(),
        &[
            HEAD,
            "from 0\nbranch 1\nsettled\ndesign 0 1 5\nbranch 0\nsettled\ndesign 0 1 3\nunder 0\nend finished designs 2 nodes 4\n",
        ],
    )?;
    assert_checked(&rt, other.as_str(), 0, "complete 2\n")
}

// Each line is left out in turn.
#[test]
fn tells_where_a_line_is_missing(rt: HostRuntime) -> Result<(), Fail> {
    for (number, code, wanted) in [
        (1, 3, "dossier refused line 1 BadHead\n"),
        (2, 3, "dossier refused line 2 BadHead\n"),
        (3, 3, "dossier refused line 3 BadSource Missing group\n"),
        (4, 3, "dossier refused line 8 BadSource BadWord\n"),
        (5, 3, "dossier refused line 8 BadSource BadWord\n"),
        (6, 3, "dossier refused line 8 BadSource BadWord\n"),
        (7, 3, "dossier refused line 8 BadSource BadWord\n"),
        (8, 3, "dossier refused line 8 BadSource BadWord\n"),
        (9, 3, "dossier refused line 9 BadHead\n"),
        (10, 1, "refused line 10 NotSettled row 0 need 1\n"),
        (11, 1, "refused line 11 NotEntry\n"),
        (12, 1, "refused line 12 DesignWanted\n"),
        (13, 1, "refused line 13 NotSettled row 0 need 1\n"),
        (14, 1, "refused line 14 NotEntry\n"),
        (15, 1, "refused line 15 DesignWanted\n"),
        (16, 1, "refused line 16 OpenAtEnd\n"),
        (17, 3, "dossier refused line 0 BadEnd\n"),
    ] {
        assert_edited(&rt, PLANES, number, &[], code, wanted)?;
    }
    Ok(())
}

// Each line stands twice in turn.
#[test]
fn tells_where_a_line_stands_twice(rt: HostRuntime) -> Result<(), Fail> {
    for (number, line, code, wanted) in [
        (1, "dossier 2", 3, "dossier refused line 2 BadHead\n"),
        (
            2,
            "source 6",
            3,
            "dossier refused line 3 BadSource BadWord\n",
        ),
        (
            3,
            "group 7",
            3,
            "dossier refused line 4 BadSource Repeated\n",
        ),
        (
            4,
            "fixed 0",
            3,
            "dossier refused line 5 BadSource Repeated\n",
        ),
        (
            5,
            "shift all",
            3,
            "dossier refused line 6 BadSource Repeated\n",
        ),
        (6, "k 3", 3, "dossier refused line 7 BadSource Repeated\n"),
        (
            7,
            "lambda 1",
            3,
            "dossier refused line 8 BadSource Repeated\n",
        ),
        (8, "hole 1", 3, "dossier refused line 9 BadHead\n"),
        (9, "from 0", 3, "dossier refused line 10 BadEntry\n"),
        (10, "branch 0", 1, "refused line 11 ColumnDecided\n"),
        (11, "settled", 1, "refused line 12 DesignWanted\n"),
        (12, "design 0 1 3", 1, "refused line 13 NotEntry\n"),
        (13, "branch 1", 1, "refused line 14 ColumnDecided\n"),
        (14, "settled", 1, "refused line 15 DesignWanted\n"),
        (15, "design 0 1 5", 1, "refused line 16 NotEntry\n"),
        (16, "under 0", 1, "refused line 17 AfterClose\n"),
        (
            17,
            "end finished designs 2 nodes 4",
            3,
            "dossier refused line 18 BadHead\n",
        ),
    ] {
        assert_edited(&rt, PLANES, number, &[line, line], code, wanted)?;
    }
    Ok(())
}

// A line is another one, or some.
#[test]
fn tells_where_a_line_is_another(rt: HostRuntime) -> Result<(), Fail> {
    for (number, others, code, wanted) in [
        (
            1,
            &["dossier 01"][..],
            3,
            "dossier refused line 1 BadHead\n",
        ),
        (2, &["source 5"][..], 3, "dossier refused line 8 BadHead\n"),
        (
            3,
            &["group 8"][..],
            1,
            "refused line 11 NotSettled row 3 need 1\n",
        ),
        (
            4,
            &["fixed 1"][..],
            1,
            "refused line 11 NotSettled row 3 need 1\n",
        ),
        (
            5,
            &["shift none"][..],
            1,
            "refused line 11 NotSettled row 2 need 1\n",
        ),
        (6, &["k 4"][..], 1, "refused line 10 ColumnRange\n"),
        (
            7,
            &["lambda 2"][..],
            1,
            "refused line 11 NotSettled row 1 need 1\n",
        ),
        (8, &["hole 7"][..], 0, "complete 2\n"),
        (9, &["from 1"][..], 1, "refused line 9 ChainBroken\n"),
        (
            9,
            &["from 0 # none", "", "# and so on"][..],
            0,
            "complete 2\n",
        ),
        (10, &["branch 2"][..], 1, "refused line 10 ColumnRange\n"),
        (
            10,
            &["settled"][..],
            1,
            "refused line 10 NotSettled row 0 need 1\n",
        ),
        (
            10,
            &["under 0"][..],
            1,
            "refused line 10 NotUnder need 1 cap 2\n",
        ),
        (
            10,
            &["cut 1 0"][..],
            1,
            "refused line 10 NotCut least 0 greatest 2\n",
        ),
        (11, &["over 0"][..], 1, "refused line 11 NotOver need 0\n"),
        (
            12,
            &["design 0 1 5"][..],
            1,
            "refused line 12 DesignDiffers place 0\n",
        ),
        (
            12,
            &["design"][..],
            1,
            "refused line 12 DesignDiffers place 0\n",
        ),
        (
            12,
            &["design 0 3 1"][..],
            3,
            "dossier refused line 12 BadDesign\n",
        ),
        (13, &["branch 0"][..], 1, "refused line 13 ColumnDecided\n"),
        (
            13,
            &["under 0"][..],
            1,
            "refused line 13 NotUnder need 1 cap 1\n",
        ),
        (13, &["design 0 1 3"][..], 1, "refused line 13 NotEntry\n"),
        (
            14,
            &["under 0"][..],
            1,
            "refused line 14 NotUnder need 0 cap 0\n",
        ),
        (
            15,
            &["design 0 1 4"][..],
            1,
            "refused line 15 DesignDiffers place 0\n",
        ),
        (
            15,
            &["design 0 1 5 ; 0 1 5"][..],
            1,
            "refused line 15 DesignDiffers place 1\n",
        ),
        (15, &["design 0 1 5 # ; 0"][..], 0, "complete 2\n"),
        (16, &["over 0"][..], 1, "refused line 16 NotOver need 1\n"),
        (16, &["over 3"][..], 1, "refused line 16 RowRange\n"),
        (
            16,
            &["under 0", "under 0"][..],
            1,
            "refused line 17 AfterClose\n",
        ),
        (
            17,
            &["end spent designs 2 nodes 4 next 0"][..],
            1,
            "refused line 17 OpenAtEnd\n",
        ),
        (
            17,
            &["end finished designs 9 nodes 9"][..],
            0,
            "complete 2\n",
        ),
        (
            17,
            &["end finished designs 2"][..],
            3,
            "dossier refused line 17 BadEnd\n",
        ),
        (
            17,
            &["end finished designs 2 nodes 4", "# the end", ""][..],
            0,
            "complete 2\n",
        ),
        (
            17,
            &["end finished designs 2 nodes 4", "x"][..],
            3,
            "dossier refused line 18 BadHead\n",
        ),
    ] {
        assert_edited(&rt, PLANES, number, others, code, wanted)?;
    }
    Ok(())
}

// Entries that close a log by a divisor or by a weighted sum of rows.
#[test]
fn checks_residues_and_cuts(rt: HostRuntime) -> Result<(), Fail> {
    for (number, line, code, wanted) in [
        (20, "cut 2 0 -1 2", 0, "complete 1\n"),
        (
            20,
            "cut 1 0",
            1,
            "refused line 20 NotCut least 0 greatest 3\n",
        ),
        (
            20,
            "residue 0 2",
            1,
            "refused line 20 NotResidue need 3 column 2\n",
        ),
        (
            20,
            "residue 1 3",
            1,
            "refused line 20 NotResidue need 3 column 1\n",
        ),
        (20, "residue 9 2", 1, "refused line 20 RowRange\n"),
        (20, "residue 1 1", 3, "dossier refused line 20 BadEntry\n"),
        (1, "dossier 1", 3, "dossier refused line 20 BadEntry\n"),
    ] {
        assert_edited(&rt, RESIDUE, number, &[line], code, wanted)?;
    }
    Ok(())
}

// What comes before the first source is whole, and a problem above a limit, whatever follows it.
#[test]
fn tells_bad_heads_and_limits(rt: HostRuntime) -> Result<(), Fail> {
    for (input, wanted) in [
        ("", "dossier refused line 0 BadHead\n"),
        ("# a\n\n", "dossier refused line 0 BadHead\n"),
        (
            "dossier 1\nsource 2\ngroup 7\nk 3\nfrom 0\n",
            "dossier refused line 2 BadSource Missing lambda\n",
        ),
        (
            "dossier 1\nsource 2\ngroup 7\nk 9\nx\n",
            "dossier refused line 4 BadSource SizeRange\n",
        ),
        (
            "dossier 1\nsource 3\ngroup 64\nk 6\nlambda 1\n",
            "limit subsets 6 of 64 above 2000000\n",
        ),
        (
            "dossier 1\nsource 3\ngroup 64\nk 6\nlambda 1\nx\n",
            "limit subsets 6 of 64 above 2000000\n",
        ),
        (
            "dossier 2\nsource 4\nversion 2\ngroup 128\nk 4\nlambda 1\nfrom 1\n",
            "limit subsets of 128 above 8000000\n",
        ),
    ] {
        assert_checked(&rt, input, 3, wanted)?;
    }
    Ok(())
}

// Runs `check` once over an input that is refused, whose orbits take their time.
fn assert_above(rt: &(impl Abort + AllocGlobal), input: &str, wanted: &str) -> Result<(), Fail> {
    let (status, source, sink) = run_over(rt.alloc(), &["check"], input.as_bytes(), 64, 0, 4096)?;
    assert_eq!(rt; status.code(), 3);
    assert_eq!(rt; sink.bytes.as_slice(), wanted.as_bytes());
    assert_eq!(rt; source.at, input.len());
    Ok(())
}

// The number of columns is known only once the orbits are there.
#[test]
fn tells_too_many_columns(rt: HostRuntime) -> Result<(), Fail> {
    assert_above(
        &rt,
        "dossier 1\nsource 4\ngroup 75\nshift none\nk 3\nlambda 1\nfrom 0\nunder 0\n",
        "limit columns 67525 above 65536\n",
    )
}

// So is that of entries.
#[test]
fn tells_too_many_entries(rt: HostRuntime) -> Result<(), Fail> {
    assert_above(
        &rt,
        "dossier 1\nsource 4\ngroup 60\nshift none\nk 3\nlambda 1\nfrom 0\nunder 0\n",
        "limit entries 60569400 above 16777216\n",
    )
}

// Each proper prefix of a log: without its last line feed it is complete. A line that is cut off can be the design without
// blocks, which isn't the wanted one.
#[test]
fn refuses_each_prefix(rt: HostRuntime) -> Result<(), Fail> {
    let planes = text_of(rt.alloc(), PLANES)?;
    let whole = planes.as_bytes();
    let mut refused = 0u64;
    let mut bad = 0u64;
    for size in 0..whole.len() {
        let prefix = &whole[..size];
        let (status, source, sink) = run_over(rt.alloc(), &["check"], prefix, 7, 0, 4096)?;
        let text = sink.bytes.as_slice();
        match status.code() {
            0 => {
                assert_eq!(rt; size, 170);
                assert_eq!(rt; text, b"complete 2\n".as_slice());
            }
            1 => {
                assert!(rt; prefix.ends_with(b"design") || prefix.ends_with(b"design "));
                assert!(rt; text.ends_with(b" DesignDiffers place 0\n"));
                refused = refused.saturating_add(1);
            }
            code => {
                assert_eq!(rt; code, 3);
                assert!(rt; text.starts_with(b"dossier refused line "));
                bad = bad.saturating_add(1);
            }
        }
        assert_eq!(rt; source.at, size);
    }
    assert_eq!(rt; refused, 4);
    assert_eq!(rt; bad, 166);
    Ok(())
}

// A fault at each read, also after a line that is refused; and each room of the sink.
#[test]
fn tells_faults_of_a_check(rt: HostRuntime) -> Result<(), Fail> {
    for (number, others) in [
        (17, &["end finished designs 2 nodes 4"][..]),
        (1, &["x"][..]),
        (3, &["group 8"][..]),
        (10, &["branch 2"][..]),
    ] {
        let input = edited(rt.alloc(), PLANES, number, others)?;
        for failing in 1..12u64 {
            let (status, source, sink) = run_over(
                rt.alloc(),
                &["check"],
                input.as_bytes(),
                16,
                failing,
                4096,
            )?;
            assert_eq!(rt; status.code(), 4, "at call {failing}");
            assert_eq!(rt; sink.bytes.len(), 0);
            assert_eq!(rt; source.calls, failing);
        }
        let (_, _, whole) = run_over(rt.alloc(), &["check"], input.as_bytes(), 16, 0, 4096)?;
        let wanted = whole.bytes.as_slice();
        for room in 0..wanted.len() {
            let (status, _, sink) = run_over(
                rt.alloc(),
                &["check"],
                input.as_bytes(),
                16,
                0,
                room,
            )?;
            assert_eq!(rt; status.code(), 5, "at room {room}");
            assert_eq!(rt; sink.bytes.as_slice(), &wanted[..room], "at room {room}");
        }
    }
    Ok(())
}
