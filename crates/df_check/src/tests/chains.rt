// Chains of dossiers, as slices and from sources that give them in pieces, that fail or that don't end: what they are answered,
// worked out by hand.
ghost use Rattle.std.specs.Prelude.{◌≡◌, ◌≤◌, ◌<◌, length};

use crate::{CheckError, CheckVerdict, LogFault, check, check_stream};
use arrayvec::ArrayVec;
use df_dossier::{DossierFault, StreamError};
use df_io::{Failed, MemSource, Source};
use df_lang::{Needed, SourceFault};
use df_matrix::MatrixError;
use std::alloc::{AllocError, Global};
use std::test::Fail;

/// What a text is answered, in any way.
#[derive(Clone, Copy, Debug, PartialEq, Eq)]
enum Answer {
    Complete(u64),
    Log(u64, LogFault),
    Line(u64, DossierFault),
    Above(MatrixError),
    NoMemory,
    ReadFault,
    TooLong,
    Differs,
}

fn told(answered: Result<CheckVerdict, CheckError>) -> Answer {
    match answered {
        Ok(CheckVerdict::Complete { designs }) => Answer::Complete(designs),
        Ok(CheckVerdict::Refused { line, fault }) => Answer::Log(line, fault),
        Err(CheckError::BadDossier { line, fault }) => Answer::Line(line, fault),
        Err(CheckError::Matrix(error)) => Answer::Above(error),
        Err(CheckError::OutOfMemory) => Answer::NoMemory,
    }
}

/// What a source is answered.
fn from_source<S: Source>(alloc: Global, source: &mut S) -> Answer {
    match check_stream(alloc, source) {
        Ok(verdict) => told(Ok(verdict)),
        Err(StreamError::Refused(error)) => told(Err(error)),
        Err(StreamError::ReadFault) => Answer::ReadFault,
        Err(StreamError::TooLong) => Answer::TooLong,
    }
}

/// A source of the text in pieces of this many bytes, of which these reads fail, the first 8 of them. `None`: no memory.
fn in_pieces(alloc: Global, text: &[u8], piece: usize, fails: &[u64]) -> Option<MemSource>
    requires { 1 ≤ piece }
{
    let mut bytes = Vec::new(alloc);
    bytes.extend_from_slice(text).ok()?;
    let mut calls = ArrayVec::new();
    for call in fails {
        if calls.len() < 8 {
            calls.push(*call);
        }
    }
    Some(MemSource::new(bytes, piece, calls))
}

/// What the text is answered in every way, where each source is read to its end; `Differs` where two ways differ, and
/// `TooLong` above 1,000,000 bytes.
fn anyhow(alloc: Global, text: &[u8]) -> Answer {
    if text.len() > 1_000_000 {
        return Answer::TooLong;
    }
    let answer = told(check(alloc, text));
    for piece in [1, 7, 4096] {
        let Some(mut source) = in_pieces(alloc, text, piece, &[]) else {
            return Answer::NoMemory;
        };
        let other = from_source(alloc, &mut source);
        if other != answer || source.at != text.len() {
            return Answer::Differs;
        }
    }
    answer
}

/// The dossier of the two planes of order 2.
const PLANES: [&[u8]; 17] = [
    b"dossier 1",
    b"source 6",
    b"group 7",
    b"fixed 0",
    b"shift all",
    b"k 3",
    b"lambda 1",
    b"hole 1",
    b"from 0",
    b"branch 0",
    b"settled",
    b"design 0 1 3",
    b"branch 1",
    b"settled",
    b"design 0 1 5",
    b"under 0",
    b"end finished designs 2 nodes 4",
];

/// A text of these lines.
fn text_of(alloc: Global, lines: &[&[u8]]) -> Result<Vec<u8>, AllocError> {
    let mut text = Vec::new(alloc);
    for line in lines {
        text.extend_from_slice(line)?;
        text.extend_from_slice(b"\n")?;
    }
    Ok(text)
}

/// The dossier of the planes with these lines in the place of the one of this number.
fn with_lines(alloc: Global, number: usize, lines: &[&[u8]]) -> Result<Vec<u8>, AllocError> {
    let mut text = Vec::new(alloc);
    for (place, line) in PLANES.iter().enumerate() {
        if place + 1 == number {
            for other in lines {
                text.extend_from_slice(other)?;
                text.extend_from_slice(b"\n")?;
            }
        } else {
            text.extend_from_slice(line)?;
            text.extend_from_slice(b"\n")?;
        }
    }
    Ok(text)
}

/// The source of the planes in a dossier that begins and goes on so.
fn part(alloc: Global, start: &[u8], log: &[&[u8]]) -> Result<Vec<u8>, AllocError> {
    let mut text = text_of(alloc, &PLANES[..8])?;
    text.extend_from_slice(start)?;
    text.extend_from_slice(b"\n")?;
    for line in log {
        text.extend_from_slice(line)?;
        text.extend_from_slice(b"\n")?;
    }
    Ok(text)
}

/// What a text and then another are answered.
fn joined(alloc: Global, first: &Vec<u8>, second: &Vec<u8>) -> Result<Answer, AllocError> {
    let mut text = first.clone()?;
    text.extend_from_slice(second)?;
    Ok(anyhow(alloc, &text))
}

/// What the dossier with other lines at a place is answered.
fn changed(alloc: Global, number: usize, lines: &[&[u8]]) -> Result<Answer, AllocError> {
    let text = with_lines(alloc, number, lines)?;
    Ok(anyhow(alloc, &text))
}

const BAD_WORD: DossierFault = DossierFault::BadSource(SourceFault::BadWord);

const REPEATED: DossierFault = DossierFault::BadSource(SourceFault::Repeated);

const NO_GROUP: DossierFault = DossierFault::BadSource(SourceFault::Missing(Needed::Group));

const NOT_SETTLED: LogFault = LogFault::NotSettled { row: 0, need: 1 };

#[test]
fn a_dossier_is_complete(rt: HostRuntime) -> Result<(), Fail> {
    let alloc = rt.alloc();
    let answer = changed(alloc, 0, &[])?;
    assert_eq!(rt; answer, Answer::Complete(2));
    // The numbers of an end line aren't judged.
    let answer = changed(alloc, 17, &[b"end finished designs 9 nodes 0"])?;
    assert_eq!(rt; answer, Answer::Complete(2));
    // Columns may be taken in any order.
    let other = [
        b"branch 1".as_slice(),
        b"settled",
        b"design 0 1 5",
        b"branch 0",
        b"settled",
        b"design 0 1 3",
        b"under 0",
        b"end finished designs 2 nodes 4",
    ];
    let text = part(alloc, b"from 0", &other)?;
    let answer = anyhow(alloc, &text);
    assert_eq!(rt; answer, Answer::Complete(2));
    Ok(())
}

#[test]
fn nothing_and_no_end_are_no_dossier(rt: HostRuntime) -> Result<(), Fail> {
    let alloc = rt.alloc();
    let answer = anyhow(alloc, b"");
    assert_eq!(rt; answer, Answer::Line(0, DossierFault::BadHead));
    let answer = anyhow(alloc, b"\n# dossier 1\n \t");
    assert_eq!(rt; answer, Answer::Line(0, DossierFault::BadHead));
    for count in 1..9usize {
        let text = text_of(alloc, &PLANES[..count])?;
        let answer = anyhow(alloc, &text);
        assert_eq!(rt; answer, Answer::Line(0, DossierFault::BadHead));
    }
    for count in 9..17usize {
        let text = text_of(alloc, &PLANES[..count])?;
        let answer = anyhow(alloc, &text);
        assert_eq!(rt; answer, Answer::Line(0, DossierFault::BadEnd));
    }
    Ok(())
}

#[test]
fn a_line_is_missing(rt: HostRuntime) -> Result<(), Fail> {
    let alloc = rt.alloc();
    let answers = [
        Answer::Line(1, DossierFault::BadHead),
        Answer::Line(2, DossierFault::BadHead),
        Answer::Line(3, NO_GROUP),
        Answer::Line(8, BAD_WORD),
        Answer::Line(8, BAD_WORD),
        Answer::Line(8, BAD_WORD),
        Answer::Line(8, BAD_WORD),
        Answer::Line(8, BAD_WORD),
        Answer::Line(9, DossierFault::BadHead),
        Answer::Log(10, NOT_SETTLED),
        Answer::Log(11, LogFault::NotEntry),
        Answer::Log(12, LogFault::DesignWanted),
        Answer::Log(13, NOT_SETTLED),
        Answer::Log(14, LogFault::NotEntry),
        Answer::Log(15, LogFault::DesignWanted),
        Answer::Log(16, LogFault::OpenAtEnd),
        Answer::Line(0, DossierFault::BadEnd),
    ];
    for (place, wanted) in answers.iter().enumerate() {
        let answer = changed(alloc, place + 1, &[])?;
        assert_eq!(rt; answer, *wanted);
    }
    Ok(())
}

#[test]
fn a_line_stands_twice(rt: HostRuntime) -> Result<(), Fail> {
    let alloc = rt.alloc();
    let answers = [
        Answer::Line(2, DossierFault::BadHead),
        Answer::Line(3, BAD_WORD),
        Answer::Line(4, REPEATED),
        Answer::Line(5, REPEATED),
        Answer::Line(6, REPEATED),
        Answer::Line(7, REPEATED),
        Answer::Line(8, REPEATED),
        Answer::Line(9, DossierFault::BadHead),
        Answer::Line(10, DossierFault::BadEntry),
        Answer::Log(11, LogFault::ColumnDecided),
        Answer::Log(12, LogFault::DesignWanted),
        Answer::Log(13, LogFault::NotEntry),
        Answer::Log(14, LogFault::ColumnDecided),
        Answer::Log(15, LogFault::DesignWanted),
        Answer::Log(16, LogFault::NotEntry),
        Answer::Log(17, LogFault::AfterClose),
        Answer::Line(18, DossierFault::BadHead),
    ];
    for (place, wanted) in answers.iter().enumerate() {
        let line = PLANES[place];
        let answer = changed(alloc, place + 1, &[line, line])?;
        assert_eq!(rt; answer, *wanted);
    }
    Ok(())
}

#[test]
fn a_line_is_another(rt: HostRuntime) -> Result<(), Fail> {
    let alloc = rt.alloc();
    for number in 1..18usize {
        let fault = match number {
            1 | 2 | 9 => DossierFault::BadHead,
            3..=8 => BAD_WORD,
            _ => DossierFault::BadEntry,
        };
        let answer = changed(alloc, number, &[b"wrong"])?;
        assert_eq!(rt; answer, Answer::Line(number as u64, fault));
    }
    let answers: [(usize, &[u8], Answer); 13] = [
        (1, b"dossier 2", Answer::Complete(2)),
        (2, b"source 06 # six", Answer::Complete(2)),
        (
            7,
            b"lambda 2000001",
            Answer::Line(7, DossierFault::BadSource(SourceFault::TargetRange)),
        ),
        (8, b"# the hole is 1", Answer::Complete(2)),
        (9, b"from 1", Answer::Log(9, LogFault::ChainBroken)),
        (9, b"from 1 1", Answer::Line(9, DossierFault::BadHead)),
        (12, b"design 0 1", Answer::Line(12, DossierFault::BadDesign)),
        (
            15,
            b"design 0 1 4",
            Answer::Log(15, LogFault::DesignDiffers { place: 0 }),
        ),
        (
            15,
            b"design 0 1 5 ; 0 1 3",
            Answer::Log(15, LogFault::DesignDiffers { place: 1 }),
        ),
        (
            16,
            b"over 0",
            Answer::Log(16, LogFault::NotOver { need: 1 }),
        ),
        (16, b"residue 0 2", Answer::Line(16, DossierFault::BadEntry)),
        (17, b"end finished", Answer::Line(17, DossierFault::BadEnd)),
        (
            17,
            b"end spent designs 2 nodes 4 next 1 1",
            Answer::Line(17, DossierFault::BadEnd),
        ),
    ];
    for (number, line, wanted) in answers {
        let answer = changed(alloc, number, &[line])?;
        assert_eq!(rt; answer, wanted);
    }
    Ok(())
}

#[test]
fn lines_without_tokens_are_passed_and_counted(rt: HostRuntime) -> Result<(), Fail> {
    let alloc = rt.alloc();
    for number in 1..18usize {
        if number < 3 || 8 < number {
            let line = PLANES[number - 1];
            let answer = changed(alloc, number, &[b"", b" # x\r", line])?;
            assert_eq!(rt; answer, Answer::Complete(2));
            let answer = changed(alloc, number, &[b"", b" # x\r", b"wrong"])?;
            let fault = match number {
                1 | 2 | 9 => DossierFault::BadHead,
                _ => DossierFault::BadEntry,
            };
            assert_eq!(rt; answer, Answer::Line(number as u64 + 2, fault));
        }
    }
    // Behind the end line they are nothing.
    let mut text = with_lines(alloc, 0, &[])?;
    text.extend_from_slice(b"\n\t\n# dossier 1")?;
    let answer = anyhow(alloc, &text);
    assert_eq!(rt; answer, Answer::Complete(2));
    Ok(())
}

#[test]
fn a_problem_is_held_to_the_limits(rt: HostRuntime) -> Result<(), Fail> {
    let alloc = rt.alloc();
    let above = Answer::Above(MatrixError::TooManySubsets {
        points: 64,
        size: 6,
    });
    let answer = anyhow(
        alloc,
        b"dossier 1\nsource 3\ngroup 64\nk 6\nlambda 1\nwrong\n",
    );
    assert_eq!(rt; answer, above);
    let answer = anyhow(alloc, b"dossier 1\nsource 4\ngroup 64\nk 6\nlambda 1\n");
    assert_eq!(rt; answer, Answer::Line(0, DossierFault::BadHead));
    let answer = anyhow(alloc, b"dossier 1\nsource 2\ngroup 64\nk 6\nwrong\n");
    let missing = DossierFault::BadSource(SourceFault::Missing(Needed::Lambda));
    assert_eq!(rt; answer, Answer::Line(2, missing));
    Ok(())
}

/// The dossier that ended spent before the second column was tried, and the one that goes on there.
fn spent(alloc: Global) -> Result<Vec<u8>, AllocError> {
    part(
        alloc,
        b"from 0",
        &[
            b"branch 0",
            b"settled",
            b"design 0 1 3",
            b"end spent designs 1 nodes 2 next 1",
        ],
    )
}

fn finished(alloc: Global) -> Result<Vec<u8>, AllocError> {
    part(
        alloc,
        b"from 1",
        &[
            b"branch 1",
            b"settled",
            b"design 0 1 5",
            b"under 0",
            b"end finished designs 1 nodes 2",
        ],
    )
}

#[test]
fn dossiers_are_a_chain_in_their_order(rt: HostRuntime) -> Result<(), Fail> {
    let alloc = rt.alloc();
    let first = spent(alloc)?;
    let second = finished(alloc)?;
    let answer = joined(alloc, &first, &second)?;
    assert_eq!(rt; answer, Answer::Complete(2));
    let answer = joined(alloc, &second, &first)?;
    assert_eq!(rt; answer, Answer::Log(9, LogFault::ChainBroken));
    let answer = joined(alloc, &first, &first)?;
    assert_eq!(rt; answer, Answer::Log(22, LogFault::ChainBroken));
    let whole = with_lines(alloc, 0, &[])?;
    let answer = joined(alloc, &whole, &second)?;
    assert_eq!(rt; answer, Answer::Log(26, LogFault::ChainBroken));
    // The last end line is spent.
    let answer = anyhow(alloc, &first);
    assert_eq!(rt; answer, Answer::Log(13, LogFault::OpenAtEnd));
    let mut text = first.clone()?;
    text.extend_from_slice(b"\n# more\n")?;
    let answer = anyhow(alloc, &text);
    assert_eq!(rt; answer, Answer::Log(13, LogFault::OpenAtEnd));
    text.extend_from_slice(b"more")?;
    let answer = anyhow(alloc, &text);
    assert_eq!(rt; answer, Answer::Line(16, DossierFault::BadHead));
    Ok(())
}

#[test]
fn a_chain_may_be_cut_anywhere(rt: HostRuntime) -> Result<(), Fail> {
    let alloc = rt.alloc();
    for cut in 0..8usize {
        let mut log = Vec::new(alloc);
        for line in &PLANES[9..9 + cut] {
            log.push(*line)?;
        }
        log.push(b"end spent designs 0 nodes 0 next 2 1".as_slice())?;
        let first = part(alloc, b"from 0", &log)?;
        let second = part(alloc, b"from 2 1", &PLANES[9 + cut..])?;
        let answer = joined(alloc, &first, &second)?;
        assert_eq!(rt; answer, Answer::Complete(2));
        // All its designs are told, and its log is done, but it says that it goes on.
        let answer = anyhow(alloc, &first);
        assert_eq!(rt; answer, Answer::Log(10 + cut as u64, LogFault::OpenAtEnd));
        // A line is missing where the second one goes on.
        if cut < 7 {
            let second = part(alloc, b"from 2 1", &PLANES[10 + cut..])?;
            let answer = joined(alloc, &first, &second)?;
            assert!(rt; matches!(answer, Answer::Log(..)));
        }
    }
    Ok(())
}

/// What a second dossier whose line of this number, from 2 to 8, is another is answered.
fn second_source(alloc: Global, number: usize, line: &[u8]) -> Result<Answer, AllocError> {
    let first = spent(alloc)?;
    let mut second = Vec::new(alloc);
    for (place, kept) in PLANES[..8].iter().enumerate() {
        if place + 1 == number {
            second.extend_from_slice(line)?;
        } else {
            second.extend_from_slice(kept)?;
        }
        second.extend_from_slice(b"\n")?;
    }
    second.extend_from_slice(b"from 1\nbranch 1\nsettled\ndesign 0 1 5\nunder 0\n")?;
    second.extend_from_slice(b"end finished designs 1 nodes 2\n")?;
    joined(alloc, &first, &second)
}

#[test]
fn later_sources_are_the_first_one(rt: HostRuntime) -> Result<(), Fail> {
    let alloc = rt.alloc();
    let answer = second_source(alloc, 0, b"")?;
    assert_eq!(rt; answer, Answer::Complete(2));
    let answer = second_source(alloc, 1, b"dossier 2")?;
    assert_eq!(rt; answer, Answer::Complete(2));
    let answer = second_source(alloc, 2, b"source 006")?;
    assert_eq!(rt; answer, Answer::Complete(2));
    for count in [b"source 5".as_slice(), b"source 7", b"source 1000000000000"] {
        let answer = second_source(alloc, 2, count)?;
        assert_eq!(rt; answer, Answer::Log(15, LogFault::SourceDiffers));
    }
    for number in 3..9usize {
        for line in [b"wrong".as_slice(), b"", b"group 7 ", b"hole 1 # one"] {
            let answer = second_source(alloc, number, line)?;
            assert_eq!(rt;
                answer,
                Answer::Log(13 + number as u64, LogFault::SourceDiffers)
            );
        }
    }
    Ok(())
}

/// What the text is answered where the read of this number fails; and how many reads there were.
fn failing(alloc: Global, text: &[u8], call: u64) -> (Answer, u64) {
    match in_pieces(alloc, text, 32, &[call]) {
        Some(mut source) => {
            let answer = from_source(alloc, &mut source);
            (answer, source.calls)
        }
        None => (Answer::NoMemory, 0),
    }
}

#[test]
fn a_read_that_fails_is_told_in_place_of_all_else(rt: HostRuntime) -> Result<(), Fail> {
    let alloc = rt.alloc();
    let good = with_lines(alloc, 0, &[])?;
    let texts = [
        (good, Answer::Complete(2)),
        (
            with_lines(alloc, 1, &[b"wrong"])?,
            Answer::Line(1, DossierFault::BadHead),
        ),
        (
            with_lines(alloc, 11, &[])?,
            Answer::Log(11, LogFault::NotEntry),
        ),
        (
            with_lines(alloc, 17, &[])?,
            Answer::Line(0, DossierFault::BadEnd),
        ),
    ];
    for (text, wanted) in &texts {
        let reads = text.len() as u64 / 32 + 2;
        for call in 1..reads + 1 {
            let answer = failing(alloc, text, call);
            assert_eq!(rt; answer, (Answer::ReadFault, call));
        }
        let answer = failing(alloc, text, reads + 1);
        assert_eq!(rt; answer, (*wanted, reads));
    }
    Ok(())
}

/// A line that is no head, and then bytes without end: what stands in the room that is given.
#[derive(Drop)]
struct Endless {
    begun: bool,
}

impl Source for Endless {
    ghost use Rattle.std.specs.Prelude.{ℕ, List, Option, None};

    ghost left = { λ _. None };

    ghost faults = { λ _. 0 };

    fn read(&mut self, room: &mut [u8]) -> Result<usize, Failed> {
        if !self.begun {
            self.begun = true;
            room[0] = b'\n';
            if room.len() > 1 {
                room[0] = b'x';
                room[1] = b'\n';
            }
        }
        Ok(room.len())
    }
}

#[test]
fn too_many_bytes_are_told_in_place_of_all_else(rt: HostRuntime) {
    let mut source = Endless { begun: false };
    let answer = from_source(rt.alloc(), &mut source);
    assert_eq!(rt; answer, Answer::TooLong);
}
