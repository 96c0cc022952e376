// What no clause says: that memory suffices; and lines with what they say, worked out by hand.
use super::*;
use df_io::{LineBuf, Lines};
use std::alloc::{AllocError, Global};
use std::test::Fail;

fn is_entry(line: &[u8], rules: Rules) -> bool {
    read_entry(line, rules).is_some()
}

// The line is a cut with these rows.
fn is_cut(line: &[u8], rows: &[(i16, u32)]) -> bool {
    let Some(Entry::Cut(read)) = read_entry(line, Rules::Divisor) else {
        return false;
    };
    if read.len() != rows.len() {
        return false;
    }
    for (row, stated) in read.iter().zip(rows) {
        if row.weight != stated.0 || row.row != stated.1 {
            return false;
        }
    }
    true
}

#[test]
fn entries_are_read(rt: HostRuntime) {
    for rules in [Rules::Plain, Rules::Divisor] {
        assert!(rt; matches!(read_entry(b"branch 0", rules), Some(Entry::Branch(0))));
        assert!(rt;
            matches!(
                read_entry(b"over 4294967295", rules),
                Some(Entry::Over(u32::MAX))
            )
        );
        assert!(rt;
            matches!(
                read_entry(b" under\t007 # 8\r", rules),
                Some(Entry::Under(7))
            )
        );
        assert!(rt; matches!(read_entry(b"settled\r", rules), Some(Entry::Settled)));
        for line in [
            b"".as_slice(),
            b"# branch 1",
            b"Branch 1",
            b"branch",
            b"branch 1 2",
            b"branch -1",
            b"branch 1x",
            b"over 4294967296",
            b"under 99999999999999999999",
            b"settled 0",
            b"design",
        ] {
            assert!(rt; !is_entry(line, rules));
        }
    }
}

#[test]
fn residues_and_cuts_are_read(rt: HostRuntime) {
    let read = read_entry(b"residue 1 2", Rules::Divisor);
    assert!(rt; matches!(read, Some(Entry::Residue { row: 1, divisor: 2 })));
    assert!(rt; is_cut(b"cut 2 0 -1 2", &[(2, 0), (-1, 2)]));
    assert!(rt;
        is_cut(
            b"cut -1000 3 0999 4294967295",
            &[(-1000, 3), (999, u32::MAX)]
        )
    );
    let most =
        b"cut 1 0 1 1 1 2 1 3 1 4 1 5 1 6 1 7 1 8 1 9 1 10 1 11 1 12 1 13 1 14 1 15".as_slice();
    assert!(rt; is_entry(most, Rules::Divisor));
    for line in [b"residue 1 2".as_slice(), b"cut 1 0", most] {
        assert!(rt; !is_entry(line, Rules::Plain));
    }
    for line in [
        b"residue 1 1".as_slice(),
        b"residue 1",
        b"residue 1 2 3",
        b"residue 1 4294967296",
        b"cut",
        b"cut 1",
        b"cut 0 1",
        b"cut -0 1",
        b"cut 1001 1",
        b"cut -1001 1",
        b"cut - 1",
        b"cut --1 1",
        b"cut 1 2 1 2",
        b"cut 1 2 1 1",
        b"cut 1 4294967296",
        b"cut 1 0 1 1 1 2 1 3 1 4 1 5 1 6 1 7 1 8 1 9 1 10 1 11 1 12 1 13 1 14 1 15 1 16",
    ] {
        assert!(rt; !is_entry(line, Rules::Divisor));
    }
}

#[test]
fn paths_are_read(rt: HostRuntime) -> Result<(), Fail> {
    let alloc = rt.alloc();
    for (line, length, chosen) in [
        (b"from 0".as_slice(), 0, [].as_slice()),
        (b"from 1", 1, &[]),
        (b"from\t02 1 # next\r", 2, &[1]),
        (
            b"from 4294967295 0 4294967294",
            u32::MAX,
            &[0, u32::MAX - 1],
        ),
        (b"end spent designs 1 nodes 3 next 2 1", 2, &[1]),
        (
            b"end spent designs 18446744073709551615 nodes 007 next 3 0 2",
            3,
            &[0, 2],
        ),
    ] {
        match read_path(alloc, line) {
            Ok(path) => {
                assert_eq!(rt; path.length(), length);
                assert_eq!(rt; path.chosen(), chosen);
            }
            Err(_) => assert!(rt; false),
        }
    }
    for line in [
        b"".as_slice(),
        b"from",
        b"from 1 1",
        b"from 2 1 0",
        b"from 2 1 1",
        b"from 4294967296",
        b"from 2 x",
        b"from 3 3",
        b"from 3 0 2 3",
        b"from 3 2 0",
        b"from -1",
        b"From 0",
        b"next 2 1",
        b"end finished designs 2 nodes 4",
        b"end spent designs 1 nodes 3 next",
        b"end spent designs 1 nodes 3",
        b"end spent designs 18446744073709551616 nodes 3 next 0",
        b"end spent nodes 3 designs 1 next 0",
    ] {
        assert!(rt; matches!(read_path(alloc, line), Err(PathRead::Bad)));
    }
    entries_are_read_back();
    paths_are_read_back();
    Ok(())
}

#[test]
#[tactic(auto, using(df_io::proofs::NumbersBack::decimal_short))]
fn lines_are_written(rt: HostRuntime) {
    let mut buf = LineBuf::new();
    put_entry(&mut buf, Entry::Branch(0));
    assert_eq!(rt; buf.as_slice(), b"branch 0".as_slice());
    let mut buf = LineBuf::new();
    put_entry(&mut buf, Entry::Settled);
    assert_eq!(rt; buf.as_slice(), b"settled".as_slice());
    let mut buf = LineBuf::new();
    put_design_start(&mut buf);
    assert_eq!(rt; buf.as_slice(), b"design".as_slice());
}

// A letter for what a line is.
fn letter(piece: Option<Piece>) -> u8 {
    match piece {
        None => b'-',
        Some(
            Piece::Head {
                rules: Rules::Plain,
            },
        ) => b'1',
        Some(
            Piece::Head {
                rules: Rules::Divisor,
            },
        ) => b'2',
        Some(Piece::SourceCount(_)) => b'c',
        Some(Piece::SourceLine) => b's',
        Some(Piece::RunFrom) => b'f',
        Some(Piece::Entry(_)) => b'e',
        Some(Piece::Design) => b'd',
        Some(Piece::End { finished: true, .. }) => b'F',
        Some(
            Piece::End {
                finished: false,
                ..
            },
        ) => b'S',
        Some(Piece::Bad(DossierFault::BadHead)) => b'H',
        Some(Piece::Bad(DossierFault::BadEntry)) => b'E',
        Some(Piece::Bad(DossierFault::BadEnd)) => b'N',
        Some(Piece::Bad(_)) => b'?',
        Some(Piece::Done) => b'.',
    }
}

// The next piece has this letter, and its line this number and these bytes.
fn reads(reader: &mut LineReader<'_>, read: u8, number: u64, text: &[u8]) -> bool {
    let piece = reader.next();
    letter(Some(piece)) == read && reader.line() == number && reader.text() == text
}

// The letters of the lines of a text, and of its end; `!` behind one that a `LineReader` doesn't have too. The number and
// bytes of a line that breaks a rule stay, and those of the end are none.
fn letters(alloc: Global, text: &[u8]) -> Result<Vec<u8>, AllocError> {
    let mut judge = LineJudge::new();
    let mut reader = LineReader::new(text);
    let mut lines = Lines::new(text);
    let mut letters = Vec::new(alloc);
    let mut number = 0;
    let mut bytes = b"".as_slice();
    let mut was_bad = false;
    for _ in 0..100u32 {
        let Some(line) = lines.next() else {
            break;
        };
        if line.start > line.end || line.end > text.len() {
            break;
        }
        let read = letter(judge.line(&text[line.start..line.end]));
        letters.push(read)?;
        if !was_bad {
            number = line.number;
            bytes = &text[line.start..line.end];
        }
        was_bad = was_bad || matches!(read, b'H' | b'E' | b'N');
        if read != b'-' && !reads(&mut reader, read, number, bytes) {
            letters.push(b'!')?;
        }
    }
    let read = letter(Some(judge.end()));
    letters.push(read)?;
    if !was_bad {
        number = 0;
        bytes = b"";
    }
    if !reads(&mut reader, read, number, bytes) || !reads(&mut reader, read, number, bytes) {
        letters.push(b'!')?;
    }
    Ok(letters)
}

#[test]
fn lines_are_judged(rt: HostRuntime) -> Result<(), Fail> {
    for (text, read) in [
        (b"".as_slice(), b"H".as_slice()),
        (
            b"dossier 1\nsource 1\ng\nfrom 0\nend finished designs 0 nodes 0\n",
            b"1csfF.",
        ),
        (
            b"\n# x\ndossier 2 # y\r\n\nsource 02\n\n# g\n\nfrom x\nresidue 1 2\n",
            b"--2-css-feN",
        ),
        (
            b"dossier 1\nsource 1\ng\nfrom 0\nresidue 1 2\nsettled\n",
            b"1csfEEE",
        ),
        (
            b"dossier 2\nsource 1\ng\nfrom 0\nsettled\ndesign x\nend spent designs 1 nodes 1 next\ndossier 1\n",
            b"2csfedS1H",
        ),
        (
            b"dossier 1\nsource 1\ng\nfrom 0\nend finished designs 0\n",
            b"1csfNN",
        ),
        (
            b"dossier 1\nsource 1\ng\nfrom 0\nend finished designs 0 nodes 0 next 0",
            b"1csfNN",
        ),
        (
            b"dossier 1\nsource 1\ng\nfrom 0\nend spent designs 0 nodes 0",
            b"1csfNN",
        ),
        (
            b"dossier 1\nsource 1\ng\nfrom 0\nend finished designs 0 nodes 0\nbranch 0",
            b"1csfFHH",
        ),
        (
            b" dossier\t1 # x\r\n\r\n\tsource 003\r\n# 1\r\n \r\n g\r\n from\t0\r\n \tsettled\r\n",
            b"1-csssfeN",
        ),
        (
            b"dossier 1\nsource 1\n\nfrom 0\nend finished designs 0 nodes 0\n# x\n\ndossier 2\nsource 1\n\nfrom 0\ncut 1 0\nend spent designs 0 nodes 0 next 0\n\t\n",
            b"1csfF--2csfeS-.",
        ),
    ] {
        let letters = letters(rt.alloc(), text)?;
        assert_eq!(rt; letters.as_slice(), read);
    }
    pieces_are_those_of_dossiers();
    Ok(())
}

#[test]
fn heads_are_judged(rt: HostRuntime) -> Result<(), Fail> {
    for (text, read) in [
        (b"dossier 01\n\n".as_slice(), b"HHH".as_slice()),
        (b"dossier 3\n", b"HH"),
        (b"dossier 1 1\n", b"HH"),
        (b"dossier 1\nsource 0\n", b"1HH"),
        (b"dossier 1\nsource 2\ng\n", b"1csH"),
        (b"dossier 1\nsource 1\ng\nbranch 0\n", b"1csHH"),
        (b"dossier\n", b"HH"),
        (b"Dossier 1\n", b"HH"),
        (b"dossier 1x\n", b"HH"),
        (b"dossier 02\n", b"HH"),
        (b"dossier 1\nsource\n", b"1HH"),
        (b"dossier 1\nsource x\n", b"1HH"),
        (b"dossier 1\nsource 1 2\n", b"1HH"),
        (b"dossier 1\nsources 1\n", b"1HH"),
        (b"dossier 1\nsource 18446744073709551616\n", b"1HH"),
        (b"dossier 2\nsource 18446744073709551615\n\n# x\n", b"2cssH"),
        (b"dossier 2\n\n# x\nsource 2\n\n# x", b"2--cssH"),
        (b"dossier 1\nsource 1\n\nFrom 0\n", b"1csHH"),
    ] {
        let letters = letters(rt.alloc(), text)?;
        assert_eq!(rt; letters.as_slice(), read);
    }
    Ok(())
}

// A letter for a line of the log, in a dossier with this head.
fn log_letter(head: &[u8], line: &[u8]) -> u8 {
    let mut judge = LineJudge::new();
    judge.line(head);
    judge.line(b"source 1");
    judge.line(b"");
    judge.line(b"from 0");
    letter(judge.line(line))
}

#[test]
fn log_lines_are_judged_by_the_rules_of_their_head(rt: HostRuntime) {
    for (line, plain, divisor) in [
        (b"branch 0".as_slice(), b'e', b'e'),
        (b"\tover\t4294967295\r", b'e', b'e'),
        (b"under 007#8", b'e', b'e'),
        (b"settled # 1", b'e', b'e'),
        (b"residue 0 2", b'E', b'e'),
        (b"residue 4294967295 4294967295", b'E', b'e'),
        (b"cut 1 0", b'E', b'e'),
        (b"cut -1000 0 1000 1", b'E', b'e'),
        (b"design", b'd', b'd'),
        (b"design 9 9 ;", b'd', b'd'),
        (b"end finished designs 0 nodes 0", b'F', b'F'),
        (
            b"end finished designs 18446744073709551615 nodes 007 # x",
            b'F',
            b'F',
        ),
        (b"end spent designs 1 nodes 2 next", b'S', b'S'),
        (b"\tend spent designs 1 nodes 2 next 1 1\r", b'S', b'S'),
        (b"", b'-', b'-'),
        (b" \t\r", b'-', b'-'),
        (b"# end", b'-', b'-'),
    ] {
        assert_eq!(rt; log_letter(b"dossier 1", line), plain);
        assert_eq!(rt; log_letter(b"dossier 2", line), divisor);
    }
}

#[test]
fn faults_of_log_lines_are_told(rt: HostRuntime) {
    for head in [b"dossier 1".as_slice(), b"dossier 2"] {
        for line in [
            b"branch".as_slice(),
            b"branch x",
            b"branch -1",
            b"branch 1 2",
            b"branch 4294967296",
            b"over",
            b"over 0 0",
            b"under 1.0",
            b"settled 0",
            b"Settled",
            b"residue 1 1",
            b"residue 1",
            b"residue 1 2 3",
            b"cut",
            b"cut 1",
            b"cut 0 1",
            b"cut 1001 1",
            b"cut 1 1 1 1",
            b"cut 1 2 1 1",
            b"from 0",
            b"dossier 1",
            b"source 1",
            b"designs",
            b"ends",
            b"next 1",
            b";",
        ] {
            assert_eq!(rt; log_letter(head, line), b'E');
        }
        for line in [
            b"end".as_slice(),
            b"end finished",
            b"end finished designs",
            b"end finished designs 1",
            b"end finished designs 1 nodes",
            b"end finished designs x nodes 1",
            b"end finished designs 18446744073709551616 nodes 1",
            b"end finished nodes 1 designs 1",
            b"end finished designs 1 nodes 1 next 0",
            b"end spent",
            b"end spent designs 1 nodes 1",
            b"end spent designs 1 nodes -1 next 0",
            b"end spent designs 1 nodes 1 from 0",
            b"end over designs 1 nodes 1",
        ] {
            assert_eq!(rt; log_letter(head, line), b'N');
        }
    }
}
