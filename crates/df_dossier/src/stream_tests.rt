// Sources that are long, that fail, or that hold a dossier which looks random.
use super::*;
use crate::anyhow_tests::{Answer, anyhow, from_source, in_pieces};
use crate::round_tests::{Numbers, put_path};
use df_io::{LineBuf, put_text};
use df_lang::{Problem, parse};
use df_subsets::{Block, Point};
use std::alloc::{AllocError, Global};
use std::test::Fail;

// A dossier of the plane of order 2, line by line; its source lines are those from place 2 to place 4.
const LINES: [&[u8]; 10] = [
    b"dossier 2",
    b"source 3",
    b"group 7",
    b"k 3",
    b"lambda 1",
    b"from 0",
    b"branch 0",
    b"settled",
    b"design 0 1 3",
    b"end spent designs 1 nodes 2 next 1",
];

// The dossier, each line with such an end, and with a line more before the one at a place, which is counted where it
// stands among the source lines; the line at the place `wrong` says nothing that may stand there.
fn with_filler(
    alloc: Global,
    end: &[u8],
    place: usize,
    filler: &[u8],
    wrong: usize,
) -> Result<Vec<u8>, AllocError> {
    let mut text = Vec::new(alloc);
    for (at, line) in LINES.iter().enumerate() {
        if at == place {
            text.extend_from_slice(filler)?;
            text.extend_from_slice(end)?;
        }
        if at == wrong {
            text.extend_from_slice(b"wrong")?;
        } else if at == 1 && 2 <= place && place <= 4 {
            text.extend_from_slice(b"source 4")?;
        } else {
            text.extend_from_slice(line)?;
        }
        text.extend_from_slice(end)?;
    }
    Ok(text)
}

#[test]
fn lines_without_tokens_stand_anywhere(rt: HostRuntime) -> Result<(), Fail> {
    let alloc = rt.alloc();
    for end in [b"\n".as_slice(), b"\r\n", b"\t # x\r\n"] {
        for filler in [b"".as_slice(), b" \t ", b"# dossier 1"] {
            for place in 0..10usize {
                let text = with_filler(alloc, end, place, filler, 10)?;
                assert_eq!(rt; anyhow(alloc, &text), Answer::Path(1));
                let text = with_filler(alloc, end, place, filler, 7)?;
                let line = if place <= 7 { 9 } else { 8 };
                assert_eq!(rt;
                    anyhow(alloc, &text),
                    Answer::Fault(line, DossierFault::BadEntry)
                );
            }
        }
    }
    Ok(())
}

#[test]
fn many_comments_change_the_number_of_a_line_alone(rt: HostRuntime) -> Result<(), Fail> {
    let alloc = rt.alloc();
    let mut text = Vec::new(alloc);
    text.extend_from_slice(b"dossier 1\nsource 3\ngroup 7\nk 3\nlambda 1\nfrom 0\nbranch 0\n")?;
    for _ in 0..70_000u32 {
        text.extend_from_slice(b"# comment line ....\n")?;
    }
    let mut wrong = text.clone()?;
    text.extend_from_slice(b"settled\nend spent designs 1 nodes 2 next 2 1")?;
    wrong.extend_from_slice(b"settled 1\nend spent designs 1 nodes 2 next 2 1")?;
    assert_eq!(rt; anyhow(alloc, &text), Answer::Path(2));
    assert_eq!(rt;
        anyhow(alloc, &wrong),
        Answer::Fault(70_008, DossierFault::BadEntry)
    );
    Ok(())
}

// What is said where the read of this number fails; and how many reads there were.
fn failing(alloc: Global, text: &[u8], call: u64) -> (Answer, u64) {
    match in_pieces(alloc, text, 16, &[call]) {
        Some(mut source) => (from_source(alloc, &mut source), source.calls),
        None => (Answer::NoMemory, 0),
    }
}

#[test]
fn a_read_that_fails_is_told_in_place_of_all_else(rt: HostRuntime) -> Result<(), Fail> {
    let alloc = rt.alloc();
    let good = with_filler(alloc, b"\n", 10, b"", 10)?;
    let wrong = with_filler(alloc, b"\n", 10, b"", 0)?;
    for call in 1..=8u64 {
        assert_eq!(rt; failing(alloc, &good, call), (Answer::ReadFault, call));
        assert_eq!(rt; failing(alloc, &wrong, call), (Answer::ReadFault, call));
    }
    assert_eq!(rt; failing(alloc, &good, 9), (Answer::Path(1), 8));
    let first = Answer::Fault(1, DossierFault::BadHead);
    assert_eq!(rt; failing(alloc, &wrong, 9), (first, 8));
    Ok(())
}

// A design line with such a block, not at all, once or twice.
fn design(problem: &Problem, numbers: &mut Numbers) -> LineBuf {
    let mut buf = LineBuf::new();
    put_design_start(&mut buf);
    let first = (numbers.next() % 5) as u8;
    for place in 0..numbers.next() % 3 {
        let mut block = Block::empty();
        block.insert(Point(first));
        block.insert(Point(first + 1));
        block.insert(Point(first + 2));
        block_piece_is_short(problem, &block, place);
        if buf.len() + 29 * usize::from(block.size()) + 3 <= 1024 {
            put_design_block(&mut buf, problem, &block, place);
        }
    }
    buf
}

// A dossier with some lines in its log; the length of the path of its end line, and the columns of that.
fn random(
    alloc: Global,
    problem: &Problem,
    numbers: &mut Numbers,
    text: &mut Vec<u8>,
) -> Option<(u32, Vec<u32>)> {
    text.extend_from_slice(b"dossier 2\nsource 3\ngroup 7\nk 3\nlambda 1\n")
        .ok()?;
    let mut buf = LineBuf::new();
    put_text(&mut buf, b"from");
    put_path(alloc, &mut buf, numbers)?;
    text.extend_from_slice(buf.as_slice()).ok()?;
    for _ in 0..numbers.next() % 20 {
        text.extend_from_slice(b"\n").ok()?;
        if numbers.next() % 3 == 0 {
            let buf = design(problem, numbers);
            text.extend_from_slice(buf.as_slice()).ok()?;
        } else {
            let mut buf = LineBuf::new();
            let entry = numbers.entry();
            entry_text_is_short(&entry);
            put_entry(&mut buf, entry);
            text.extend_from_slice(buf.as_slice()).ok()?;
        }
    }
    let (designs, nodes) = (numbers.count(), numbers.count());
    let mut buf = LineBuf::new();
    end_text_is_short(false, designs, nodes);
    put_end(&mut buf, false, designs, nodes);
    let path = put_path(alloc, &mut buf, numbers)?;
    text.extend_from_slice(b"\n# x\n").ok()?;
    text.extend_from_slice(buf.as_slice()).ok()?;
    Some(path)
}

// A dossier that looks random is read as its path, in every way.
fn round(alloc: Global, problem: &Problem, numbers: &mut Numbers) -> bool {
    let mut text = Vec::new(alloc);
    let Some((length, columns)) = random(alloc, problem, numbers, &mut text) else {
        return false;
    };
    let Some(mut source) = in_pieces(alloc, &text, 5, &[]) else {
        return false;
    };
    match read_spent_stream(alloc, &mut source) {
        Ok(spent) => {
            spent.path.length() == length
                && spent.path.chosen() == columns.as_slice()
                && spent.rules == Rules::Divisor
                && anyhow(alloc, &text) == Answer::Path(length)
        }
        Err(_) => false,
    }
}

#[test]
fn random_dossiers_are_read(rt: HostRuntime) {
    let alloc = rt.alloc();
    let Ok(problem) = parse(alloc, b"group 7\nk 3\nlambda 1\n") else {
        assert!(rt; false);
        return;
    };
    let mut numbers = Numbers { state: 11 };
    for _ in 0..100u32 {
        assert!(rt; round(alloc, &problem, &mut numbers));
    }
}
