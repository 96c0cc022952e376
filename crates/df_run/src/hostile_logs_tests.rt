// Logs that lie: forgeries of a log and of one with residues and cuts, each with the line and the fault that is told. Two other programs gave
// the answers to the forgeries of one token; one of them goes by the definitions alone.
use super::*;
use crate::check_tests::{PLANES, assert_checked, edited, text_of};
use crate::resume_tests::joined;
use std::alloc::{AllocError, Global};
use std::process::Abort;
use std::test::Fail;

// Designs of the blocks that a multiplier keeps, with cuts by one row and by two, and a residue.
pub(crate) const CUTS: &[&str] = &[
    "dossier 2",
    "source 7",
    "group 7",
    "fixed 0",
    "shift all",
    "mult 6",
    "k 3",
    "lambda 3",
    "hole 3",
    "from 0",
    "branch 0",
    "branch 1",
    "cut 1 0",
    "branch 2",
    "branch 3",
    "settled",
    "design 0 1 2 ; 0 1 4 ; 0 2 4",
    "under 1",
    "cut 1 0 -1 2",
    "residue 1 2",
    "end finished designs 1 nodes 5",
];

// What begins an answer of each exit status of `check`.
fn beginning(code: u8) -> &'static str {
    match code {
        0 => "complete ",
        1 => "refused line ",
        _ => "dossier refused line ",
    }
}

// An answer of `check`, without what begins it and its line feed, as a whole text.
pub(crate) fn answer_of(alloc: Global, code: u8, rest: &str) -> Result<String, AllocError> {
    let mut text = String::from_str(alloc, beginning(code))?;
    text.push_str(rest)?;
    text.push_str("\n")?;
    Ok(text)
}

// Runs `check` over lines with others in place of the one of each number.
fn assert_forged(
    rt: &(impl Abort + AllocGlobal),
    lines: &[&str],
    forgeries: &[(usize, &[&str], u8, &str)],
) -> Result<(), Fail> {
    for (number, others, code, rest) in forgeries {
        let input = edited(rt.alloc(), lines, *number, others)?;
        let wanted = answer_of(rt.alloc(), *code, rest)?;
        assert_checked(rt, input.as_str(), *code, wanted.as_str())?;
    }
    Ok(())
}

#[test]
fn tells_forgeries(rt: HostRuntime) -> Result<(), Fail> {
    assert_forged(
        &rt,
        PLANES,
        &[
            (10, &["branch 2"], 1, "10 ColumnRange"),
            (10, &["settled"], 1, "10 NotSettled row 0 need 1"),
            (13, &["under 0"], 1, "13 NotUnder need 1 cap 1"),
            (12, &[], 1, "12 DesignWanted"),
            (12, &["design 0 3 1"], 3, "12 BadDesign"),
            (13, &["branch 0"], 1, "13 ColumnDecided"),
            (13, &["design 0 1 3"], 1, "13 NotEntry"),
            (15, &["design 0 1 5 ; 0 1 5"], 1, "15 DesignDiffers place 1"),
            (16, &["over 3"], 1, "16 RowRange"),
            (16, &["under 0", "under 0"], 1, "17 AfterClose"),
            (
                17,
                &["end spent designs 2 nodes 4 next 2"],
                1,
                "17 OpenAtEnd",
            ),
            (17, &["end finished designs 9 nodes 9"], 0, "2"),
        ],
    )?;
    let planes = text_of(rt.alloc(), PLANES)?;
    let twice = joined(rt.alloc(), &[planes.as_str(), planes.as_str()])?;
    assert_checked(&rt, twice.as_str(), 1, "refused line 26 ChainBroken\n")
}

// Each line that makes a claim, with another token in the place of one.
#[test]
fn tells_forgeries_of_a_token(rt: HostRuntime) -> Result<(), Fail> {
    assert_forged(
        &rt,
        PLANES,
        &[
            (9, &["from 1"], 1, "9 ChainBroken"),
            (9, &["from 4294967295"], 1, "9 ChainBroken"),
            (9, &["from 4294967296"], 3, "9 BadHead"),
            (9, &["branch 0"], 3, "9 BadHead"),
            (10, &["branch 1"], 1, "12 DesignDiffers place 0"),
            (10, &["branch 4294967295"], 1, "10 ColumnRange"),
            (10, &["branch 4294967296"], 3, "10 BadEntry"),
            (10, &["over 0"], 1, "10 NotOver need 1"),
            (10, &["under 0"], 1, "10 NotUnder need 1 cap 2"),
            (10, &["residue 0"], 3, "10 BadEntry"),
            (10, &["cut 0"], 3, "10 BadEntry"),
            (11, &["design"], 1, "11 NotEntry"),
            (11, &["branch"], 3, "11 BadEntry"),
            (11, &["end"], 3, "11 BadEnd"),
            (12, &["design 0 2 3"], 1, "12 DesignDiffers place 0"),
            (12, &["design 0 1 2"], 1, "12 DesignDiffers place 0"),
            (12, &["design 0 1 6"], 1, "12 DesignDiffers place 0"),
            (12, &["design 0 1 7"], 3, "12 BadDesign"),
            (12, &["design 0 0 3"], 3, "12 BadDesign"),
            (12, &["design 1 1 3"], 3, "12 BadDesign"),
            (12, &["design 0 1 ;"], 3, "12 BadDesign"),
            (12, &["branch 0 1 3"], 3, "12 BadEntry"),
            (12, &["end 0 1 3"], 3, "12 BadEnd"),
            (13, &["branch 2"], 1, "13 ColumnRange"),
            (13, &["over 1"], 1, "13 NotOver need 1"),
            (13, &["under 1"], 1, "13 NotUnder need 1 cap 1"),
            (14, &["design"], 1, "14 NotEntry"),
            (15, &["design 0 2 5"], 1, "15 DesignDiffers place 0"),
            (15, &["design 0 1 3"], 1, "15 DesignDiffers place 0"),
            (15, &["design 0 1 inf1"], 3, "15 BadDesign"),
            (16, &["branch 0"], 1, "16 ColumnDecided"),
            (16, &["over 0"], 1, "16 NotOver need 1"),
            (16, &["under 1"], 0, "2"),
            (16, &["under 2"], 0, "2"),
            (16, &["under 3"], 1, "16 RowRange"),
            (16, &["under 4294967295"], 1, "16 RowRange"),
            (17, &["end finished designs 0 nodes 4"], 0, "2"),
            (
                17,
                &["end finished designs 2 nodes 18446744073709551615"],
                0,
                "2",
            ),
            (
                17,
                &["end finished designs 18446744073709551616 nodes 4"],
                3,
                "17 BadEnd",
            ),
            (17, &["end finished designs -1 nodes 4"], 3, "17 BadEnd"),
            (17, &["end spent designs 2 nodes 4"], 3, "17 BadEnd"),
            (17, &["end finished nodes 2 nodes 4"], 3, "17 BadEnd"),
        ],
    )
}

// The same of a log with residues and cuts. A weight or a row of a cut may be another where the need is outside of the bounds still.
#[test]
fn tells_forgeries_of_residues_and_cuts(rt: HostRuntime) -> Result<(), Fail> {
    let cuts = text_of(rt.alloc(), CUTS)?;
    assert_checked(&rt, cuts.as_str(), 0, "complete 1\n")?;
    assert_forged(
        &rt,
        CUTS,
        &[
            (10, &["from 1"], 1, "10 ChainBroken"),
            (11, &["branch 1"], 1, "12 ColumnDecided"),
            (11, &["branch 2"], 1, "13 NotCut least 0 greatest 2"),
            (11, &["branch 3"], 1, "13 NotCut least 0 greatest 3"),
            (11, &["branch 4"], 1, "11 ColumnRange"),
            (11, &["over 0"], 1, "11 NotOver need 3"),
            (11, &["under 0"], 1, "11 NotUnder need 3 cap 5"),
            (12, &["branch 0"], 1, "12 ColumnDecided"),
            (12, &["branch 2"], 1, "13 NotCut least 0 greatest 2"),
            (12, &["over 1"], 1, "12 NotOver need 2"),
            (12, &["under 1"], 1, "12 NotUnder need 2 cap 4"),
            (13, &["cut 2 0"], 0, "1"),
            (13, &["cut 1000 0"], 0, "1"),
            (13, &["cut -1000 0"], 0, "1"),
            (13, &["cut 1001 0"], 3, "13 BadEntry"),
            (13, &["cut 0 0"], 3, "13 BadEntry"),
            (13, &["cut -0 0"], 3, "13 BadEntry"),
            (13, &["cut 1 1"], 1, "13 NotCut least 0 greatest 2"),
            (13, &["cut 1 2"], 1, "13 NotCut least 0 greatest 3"),
            (13, &["cut 1 3"], 1, "13 RowRange"),
            (13, &["cut 1 4294967295"], 1, "13 RowRange"),
            (13, &["cut 1 4294967296"], 3, "13 BadEntry"),
            (13, &["cut 1 -1"], 3, "13 BadEntry"),
            (13, &["over 1 0"], 3, "13 BadEntry"),
            (13, &["residue 1 0"], 3, "13 BadEntry"),
            (13, &["residue 1 2"], 1, "13 NotResidue need 0 column -1"),
            (14, &["branch 0"], 1, "14 ColumnDecided"),
            (14, &["branch 1"], 1, "14 ColumnDecided"),
            (14, &["branch 3"], 1, "15 ColumnDecided"),
            (14, &["over 2"], 1, "14 NotOver need 3"),
            (14, &["under 2"], 1, "14 NotUnder need 3 cap 3"),
            (15, &["branch 2"], 1, "15 ColumnDecided"),
            (15, &["branch 4"], 1, "15 ColumnRange"),
            (15, &["over 3"], 1, "15 RowRange"),
            (15, &["under 3"], 1, "15 RowRange"),
            (
                17,
                &["design 0 1 3 ; 0 1 4 ; 0 2 4"],
                1,
                "17 DesignDiffers place 0",
            ),
            (
                17,
                &["design 0 1 2 ; 0 2 4 ; 0 2 4"],
                1,
                "17 DesignDiffers place 1",
            ),
            (
                17,
                &["design 0 1 2 ; 0 1 4 ; 0 1 4"],
                1,
                "17 DesignDiffers place 2",
            ),
            (17, &["design 0 1 2 0 0 1 4 ; 0 2 4"], 3, "17 BadDesign"),
            (18, &["branch 1"], 1, "18 ColumnDecided"),
            (18, &["over 1"], 1, "18 NotOver need 2"),
            (18, &["under 0"], 1, "18 NotUnder need 0 cap 0"),
            (18, &["under 2"], 0, "1"),
            (18, &["under 3"], 1, "18 RowRange"),
            (19, &["cut 2 0 -1 2"], 1, "19 NotCut least -1 greatest 0"),
            (19, &["cut 3 0 -1 2"], 1, "19 NotCut least -1 greatest 0"),
            (19, &["cut 4 0 -1 2"], 0, "1"),
            (19, &["cut -1 0 -1 2"], 0, "1"),
            (19, &["cut 1000 0 -1 2"], 0, "1"),
            (19, &["cut 1 1 -1 2"], 0, "1"),
            (19, &["cut 1 2 -1 2"], 3, "19 BadEntry"),
            (19, &["cut 1 0 1 2"], 0, "1"),
            (19, &["cut 1 0 -1000 2"], 0, "1"),
            (19, &["cut 1 0 0 2"], 3, "19 BadEntry"),
            (19, &["cut 1 0 -1 0"], 3, "19 BadEntry"),
            (19, &["cut 1 0 -1 1"], 1, "19 NotCut least -2 greatest 0"),
            (19, &["cut 1 0 -1 3"], 1, "19 RowRange"),
            (20, &["cut 1 2"], 1, "20 NotCut least 0 greatest 5"),
            (20, &["residue 0 2"], 1, "20 NotResidue need 3 column 2"),
            (20, &["residue 2 2"], 1, "20 NotResidue need 3 column 3"),
            (20, &["residue 3 2"], 1, "20 RowRange"),
            (20, &["residue 4294967295 2"], 1, "20 RowRange"),
            (20, &["residue 1 0"], 3, "20 BadEntry"),
            (20, &["residue 1 1"], 3, "20 BadEntry"),
            (20, &["residue 1 3"], 1, "20 NotResidue need 3 column 1"),
            (
                20,
                &["residue 1 4294967295"],
                1,
                "20 NotResidue need 3 column 1",
            ),
            (20, &["residue 1 4294967296"], 3, "20 BadEntry"),
            (21, &["end finished designs 9 nodes 5"], 0, "1"),
        ],
    )
}
