// Disks that are full: `check` over each proper prefix of a log, of a chain, and of a log with residues and cuts. Two other programs gave
// the answers; one of them goes by the definitions alone. A prefix that lacks only the last line feed is whole.
use super::*;
use crate::check_chain_tests::{FIRST, LAST, SECOND, chain_of};
use crate::check_tests::{PLANES, assert_checked, text_of};
use crate::hostile_logs_tests::{CUTS, answer_of};
use crate::tests::run_over;
use std::process::Abort;
use std::test::Fail;

// The least length from which an answer holds, the exit status, and the answer without its beginning.
type Holds<'t> = (usize, u8, &'t str);

// Runs `check` over each proper prefix of a log, which is read to its end. An answer holds up to the length of the next one.
fn assert_prefixes(
    rt: &(impl Abort + AllocGlobal),
    log: &str,
    answers: &[Holds<'_>],
    whole: &str,
) -> Result<(), Fail> {
    let alloc = rt.alloc();
    let mut told = 0usize;
    let mut code = 0u8;
    let mut wanted = String::new(alloc);
    for size in 0..log.len() {
        if told < answers.len() && answers[told].0 == size {
            let (_, status, rest) = answers[told];
            code = status;
            wanted = answer_of(alloc, status, rest)?;
            told += 1;
        }
        let prefix = &log.as_bytes()[..size];
        let (status, source, sink) = run_over(alloc, &["check"], prefix, 64, 0, 64)?;
        assert_eq!(rt; status.code(), code, "at {size} bytes");
        assert_eq!(rt; sink.bytes.as_slice(), wanted.as_bytes(), "at {size} bytes");
        assert_eq!(rt; source.at, size);
    }
    assert_eq!(rt; told, answers.len());
    assert_checked(rt, log, 0, whole)
}

#[test]
fn tells_each_prefix_of_a_log(rt: HostRuntime) -> Result<(), Fail> {
    let log = text_of(rt.alloc(), PLANES)?;
    assert_prefixes(&rt, log.as_str(), PLANES_CUT_OFF, "complete 2\n")
}

#[test]
fn tells_each_prefix_of_a_log_with_a_fixed_point(rt: HostRuntime) -> Result<(), Fail> {
    let log = text_of(rt.alloc(), FIXED)?;
    assert_prefixes(&rt, log.as_str(), FIXED_CUT_OFF, "complete 2\n")
}

#[test]
fn tells_each_prefix_of_a_chain(rt: HostRuntime) -> Result<(), Fail> {
    let chain = chain_of(rt.alloc(), &[FIRST, SECOND, LAST])?;
    assert_prefixes(&rt, chain.as_str(), CHAIN_CUT_OFF, "complete 2\n")
}

#[test]
fn tells_each_prefix_of_a_log_with_cuts(rt: HostRuntime) -> Result<(), Fail> {
    let log = text_of(rt.alloc(), CUTS)?;
    assert_prefixes(&rt, log.as_str(), CUTS_CUT_OFF, "complete 1\n")
}

const PLANES_CUT_OFF: &[Holds<'static>] = &[
    (0, 3, "0 BadHead"),
    (1, 3, "1 BadHead"),
    (9, 3, "0 BadHead"),
    (11, 3, "2 BadHead"),
    (18, 3, "0 BadHead"),
    (59, 3, "8 BadSource BadWord"),
    (64, 3, "0 BadHead"),
    (66, 3, "9 BadHead"),
    (71, 3, "0 BadEnd"),
    (73, 3, "10 BadEntry"),
    (80, 3, "0 BadEnd"),
    (82, 3, "11 BadEntry"),
    (88, 3, "0 BadEnd"),
    (90, 3, "12 BadEntry"),
    (95, 1, "12 DesignDiffers place 0"),
    (97, 3, "12 BadDesign"),
    (101, 3, "0 BadEnd"),
    (103, 3, "13 BadEntry"),
    (110, 3, "0 BadEnd"),
    (112, 3, "14 BadEntry"),
    (118, 3, "0 BadEnd"),
    (120, 3, "15 BadEntry"),
    (125, 1, "15 DesignDiffers place 0"),
    (127, 3, "15 BadDesign"),
    (131, 3, "0 BadEnd"),
    (133, 3, "16 BadEntry"),
    (139, 3, "0 BadEnd"),
    (141, 3, "17 BadEntry"),
    (143, 3, "17 BadEnd"),
    (170, 0, "2"),
];

// The log of the designs on eight elements and a fixed point.
const FIXED: &[&str] = &[
    "dossier 2",
    "source 6",
    "group 8",
    "fixed 1",
    "shift all",
    "k 3",
    "lambda 1",
    "hole 1",
    "from 0",
    "branch 0",
    "branch 1",
    "over 0",
    "branch 2",
    "settled",
    "design 0 1 3 ; 0 4 inf1",
    "under 3",
    "branch 1",
    "branch 2",
    "settled",
    "design 0 1 6 ; 0 4 inf1",
    "under 3",
    "under 0",
    "end finished designs 2 nodes 7",
];

const FIXED_CUT_OFF: &[Holds<'static>] = &[
    (0, 3, "0 BadHead"),
    (1, 3, "1 BadHead"),
    (9, 3, "0 BadHead"),
    (11, 3, "2 BadHead"),
    (18, 3, "0 BadHead"),
    (59, 3, "8 BadSource BadWord"),
    (64, 3, "0 BadHead"),
    (66, 3, "9 BadHead"),
    (71, 3, "0 BadEnd"),
    (73, 3, "10 BadEntry"),
    (80, 3, "0 BadEnd"),
    (82, 3, "11 BadEntry"),
    (89, 3, "0 BadEnd"),
    (91, 3, "12 BadEntry"),
    (96, 3, "0 BadEnd"),
    (98, 3, "13 BadEntry"),
    (105, 3, "0 BadEnd"),
    (107, 3, "14 BadEntry"),
    (113, 3, "0 BadEnd"),
    (115, 3, "15 BadEntry"),
    (120, 1, "15 DesignDiffers place 0"),
    (122, 3, "15 BadDesign"),
    (126, 1, "15 DesignDiffers place 1"),
    (128, 3, "15 BadDesign"),
    (137, 3, "0 BadEnd"),
    (139, 3, "16 BadEntry"),
    (145, 3, "0 BadEnd"),
    (147, 3, "17 BadEntry"),
    (154, 3, "0 BadEnd"),
    (156, 3, "18 BadEntry"),
    (163, 3, "0 BadEnd"),
    (165, 3, "19 BadEntry"),
    (171, 3, "0 BadEnd"),
    (173, 3, "20 BadEntry"),
    (178, 1, "20 DesignDiffers place 0"),
    (180, 3, "20 BadDesign"),
    (184, 1, "20 DesignDiffers place 1"),
    (186, 3, "20 BadDesign"),
    (195, 3, "0 BadEnd"),
    (197, 3, "21 BadEntry"),
    (203, 3, "0 BadEnd"),
    (205, 3, "22 BadEntry"),
    (211, 3, "0 BadEnd"),
    (213, 3, "23 BadEntry"),
    (215, 3, "23 BadEnd"),
    (242, 0, "2"),
];

// A dossier that ends spent is open where nothing follows. A line of a later source that is cut off is another line.
const CHAIN_CUT_OFF: &[Holds<'static>] = &[
    (0, 3, "0 BadHead"),
    (1, 3, "1 BadHead"),
    (9, 3, "0 BadHead"),
    (11, 3, "2 BadHead"),
    (18, 3, "0 BadHead"),
    (59, 3, "8 BadSource BadWord"),
    (64, 3, "0 BadHead"),
    (66, 3, "9 BadHead"),
    (71, 3, "0 BadEnd"),
    (73, 3, "10 BadEntry"),
    (80, 3, "0 BadEnd"),
    (82, 3, "11 BadEntry"),
    (84, 3, "11 BadEnd"),
    (115, 1, "11 OpenAtEnd"),
    (119, 3, "12 BadHead"),
    (127, 3, "0 BadHead"),
    (129, 3, "13 BadHead"),
    (136, 3, "0 BadHead"),
    (138, 1, "14 SourceDiffers"),
    (144, 3, "0 BadHead"),
    (146, 1, "15 SourceDiffers"),
    (152, 3, "0 BadHead"),
    (154, 1, "16 SourceDiffers"),
    (162, 3, "0 BadHead"),
    (164, 1, "17 SourceDiffers"),
    (166, 3, "0 BadHead"),
    (168, 1, "18 SourceDiffers"),
    (175, 3, "0 BadHead"),
    (177, 1, "19 SourceDiffers"),
    (182, 3, "0 BadHead"),
    (184, 3, "20 BadHead"),
    (189, 1, "20 ChainBroken"),
    (191, 3, "0 BadEnd"),
    (193, 3, "21 BadEntry"),
    (199, 3, "0 BadEnd"),
    (201, 3, "22 BadEntry"),
    (206, 1, "22 DesignDiffers place 0"),
    (208, 3, "22 BadDesign"),
    (212, 3, "0 BadEnd"),
    (214, 3, "23 BadEntry"),
    (216, 3, "23 BadEnd"),
    (247, 1, "23 OpenAtEnd"),
    (249, 3, "24 BadHead"),
    (257, 3, "0 BadHead"),
    (259, 3, "25 BadHead"),
    (266, 3, "0 BadHead"),
    (268, 1, "26 SourceDiffers"),
    (274, 3, "0 BadHead"),
    (276, 1, "27 SourceDiffers"),
    (282, 3, "0 BadHead"),
    (284, 1, "28 SourceDiffers"),
    (292, 3, "0 BadHead"),
    (294, 1, "29 SourceDiffers"),
    (296, 3, "0 BadHead"),
    (298, 1, "30 SourceDiffers"),
    (305, 3, "0 BadHead"),
    (307, 1, "31 SourceDiffers"),
    (312, 3, "0 BadHead"),
    (314, 3, "32 BadHead"),
    (319, 3, "0 BadEnd"),
    (321, 3, "33 BadEntry"),
    (328, 3, "0 BadEnd"),
    (330, 3, "34 BadEntry"),
    (336, 3, "0 BadEnd"),
    (338, 3, "35 BadEntry"),
    (343, 1, "35 DesignDiffers place 0"),
    (345, 3, "35 BadDesign"),
    (349, 3, "0 BadEnd"),
    (351, 3, "36 BadEntry"),
    (357, 3, "0 BadEnd"),
    (359, 3, "37 BadEntry"),
    (361, 3, "37 BadEnd"),
    (388, 0, "2"),
];

const CUTS_CUT_OFF: &[Holds<'static>] = &[
    (0, 3, "0 BadHead"),
    (1, 3, "1 BadHead"),
    (9, 3, "0 BadHead"),
    (11, 3, "2 BadHead"),
    (18, 3, "0 BadHead"),
    (66, 3, "9 BadSource BadWord"),
    (71, 3, "0 BadHead"),
    (73, 3, "10 BadHead"),
    (78, 3, "0 BadEnd"),
    (80, 3, "11 BadEntry"),
    (87, 3, "0 BadEnd"),
    (89, 3, "12 BadEntry"),
    (96, 3, "0 BadEnd"),
    (98, 3, "13 BadEntry"),
    (104, 3, "0 BadEnd"),
    (106, 3, "14 BadEntry"),
    (113, 3, "0 BadEnd"),
    (115, 3, "15 BadEntry"),
    (122, 3, "0 BadEnd"),
    (124, 3, "16 BadEntry"),
    (130, 3, "0 BadEnd"),
    (132, 3, "17 BadEntry"),
    (137, 1, "17 DesignDiffers place 0"),
    (139, 3, "17 BadDesign"),
    (143, 1, "17 DesignDiffers place 1"),
    (145, 3, "17 BadDesign"),
    (151, 1, "17 DesignDiffers place 2"),
    (153, 3, "17 BadDesign"),
    (159, 3, "0 BadEnd"),
    (161, 3, "18 BadEntry"),
    (167, 3, "0 BadEnd"),
    (169, 3, "19 BadEntry"),
    (175, 3, "0 BadEnd"),
    (177, 3, "19 BadEntry"),
    (180, 3, "0 BadEnd"),
    (182, 3, "20 BadEntry"),
    (192, 3, "0 BadEnd"),
    (194, 3, "21 BadEntry"),
    (196, 3, "21 BadEnd"),
    (223, 0, "1"),
];
