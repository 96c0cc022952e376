// What no clause says: sources whose problems and faults were worked out by hand.
use super::*;
use df_group::Elem;
use df_subsets::Point;
use std::alloc::Global;
use std::test::Fail;

// The first fault of a source, or `None` where it is read.
fn refused(alloc: Global, source: &[u8]) -> Option<SourceError> {
    match parse(alloc, source) {
        Err(ParseError::Refused(error)) => Some(error),
        _ => None,
    }
}

fn read(alloc: Global, source: &[u8]) -> Option<Problem> {
    match parse(alloc, source) {
        Ok(problem) => Some(problem),
        Err(_) => None,
    }
}

#[test]
fn words_are_judged_first(rt: HostRuntime) {
    let cases = [
        ("foo 7\n", 1),
        ("Group 7\n", 1),
        ("group\n", 1),
        ("version\n", 1),
        ("version 2 2\n", 1),
        ("version 2\nversion 2\n", 2),
        ("group 7\nversion 2\n", 2),
        ("group 7\nshift\n", 2),
        ("group 7\nmult\n", 2),
        ("group 7\nlambda\n", 2),
        ("group 7\nlambda 1 1\n", 2),
        ("group 7\ninside all\n", 2),
        ("group 7\nsubgroup\n", 2),
        ("group 7\nsubgroup 1a 0\n", 2),
        ("group 7\nsubgroup a-b\n", 2),
        ("group 7\nsubgroup abcdefghijklmnopq 0\n", 2),
        ("group 7\nk 3 4\n", 2),
        ("group 7\nk 3\nrequire 0 1 3\n", 3),
        ("group 7\nforbid\n", 2),
        ("version 2\ngroup 7\nk\n", 3),
    ];
    for (text, line) in cases {
        let fault = SourceFault::BadWord;
        assert_eq!(rt;
            refused(rt.alloc(), text.as_bytes()),
            Some(SourceError { line, fault }),
            "at {text}"
        );
    }
}

#[test]
fn numbers_and_elements_are_judged(rt: HostRuntime) {
    let cases = [
        ("group x\n", 1, SourceFault::BadNumber),
        ("group 7 -1\n", 1, SourceFault::BadNumber),
        ("group 7 k 3\n", 1, SourceFault::BadNumber),
        ("version 3\n", 1, SourceFault::BadNumber),
        ("version two\n", 1, SourceFault::BadNumber),
        (
            "group 7\nfixed 18446744073709551616\n",
            2,
            SourceFault::BadNumber,
        ),
        ("group 7\nk 3.0\n", 2, SourceFault::BadNumber),
        ("group 7\nmult 2 x\n", 2, SourceFault::BadNumber),
        ("group 7\ninside all x\n", 2, SourceFault::BadNumber),
        ("group 7\nhole +1\n", 2, SourceFault::BadNumber),
        (
            "group 7\nk 3\nlambda 1\nbase 0 1 7\n",
            4,
            SourceFault::BadElement,
        ),
        ("group 7\nsubgroup N 7\n", 2, SourceFault::BadElement),
        ("group 7\nsubgroup N 1 inf1\n", 2, SourceFault::BadElement),
        ("group 2 6\nsubgroup N 1\n", 2, SourceFault::BadElement),
        ("group 2 6\nsubgroup N 1,3,0\n", 2, SourceFault::BadElement),
        ("group 2 6\nsubgroup N 1,,3\n", 2, SourceFault::BadElement),
        ("group 2 6\nsubgroup N 2,0\n", 2, SourceFault::BadElement),
        ("group 7\nk 2\nbase 0 inf1\n", 3, SourceFault::BadElement),
        (
            "group 7\nfixed 1\nk 2\nbase 0 inf2\n",
            4,
            SourceFault::BadElement,
        ),
        (
            "group 7\nfixed 1\nk 2\nbase 0 inf0\n",
            4,
            SourceFault::BadElement,
        ),
        (
            "group 7\nfixed 1\nk 2\nbase 0 inf\n",
            4,
            SourceFault::BadElement,
        ),
    ];
    for (text, line, fault) in cases {
        assert_eq!(rt;
            refused(rt.alloc(), text.as_bytes()),
            Some(SourceError { line, fault }),
            "at {text}"
        );
    }
}

#[test]
fn names_and_repeats_are_judged(rt: HostRuntime) {
    let cases = [
        ("group 7\ngroup x\n", 2, SourceFault::Repeated),
        ("group 7\nfixed 1\nfixed 1\n", 3, SourceFault::Repeated),
        ("group 7\nk 3\nk\n", 3, SourceFault::Repeated),
        ("group 7\nshift none\nshift all\n", 3, SourceFault::Repeated),
        ("group 7\nmult 2\nmult 2\n", 3, SourceFault::Repeated),
        ("group 7\nlambda 1\nlambda 1\n", 3, SourceFault::Repeated),
        ("group 7\nhole 1\nhole 1\n", 3, SourceFault::Repeated),
        (
            "group 7\ninside all 0\ninside nope x\n",
            3,
            SourceFault::Repeated,
        ),
        ("group 7\nshift N\n", 2, SourceFault::UnknownName),
        ("group 7\nshift All\n", 2, SourceFault::UnknownName),
        ("group 7\ninside N\n", 2, SourceFault::UnknownName),
        ("group 7\nshift N more\n", 2, SourceFault::UnknownName),
        (
            "group 7\nsubgroup N 0\nshift n\n",
            3,
            SourceFault::UnknownName,
        ),
        (
            "group 7\nshift abcdefghijklmnopq\n",
            2,
            SourceFault::UnknownName,
        ),
        (
            "  group 07 # plane\nsubgroup all 1\n",
            2,
            SourceFault::NameTaken,
        ),
        ("group 7\nsubgroup none\n", 2, SourceFault::NameTaken),
        (
            "group 7\nsubgroup N\nsubgroup N 1\n",
            3,
            SourceFault::NameTaken,
        ),
        ("group 7\nsubgroup all 9\n", 2, SourceFault::NameTaken),
    ];
    for (text, line, fault) in cases {
        assert_eq!(rt;
            refused(rt.alloc(), text.as_bytes()),
            Some(SourceError { line, fault }),
            "at {text}"
        );
    }
}

#[test]
fn blocks_and_multipliers_are_judged(rt: HostRuntime) {
    let cases = [
        ("group 9\nmult 3\n", 2, SourceFault::NotUnit),
        ("group 7\nmult 0\n", 2, SourceFault::NotUnit),
        ("group 7\nmult 14 x\n", 2, SourceFault::NotUnit),
        ("group 2 6\nmult 7 2\n", 2, SourceFault::NotUnit),
        (
            "group 7\nk 3\nlambda 1\nbase 0 0 1\n",
            4,
            SourceFault::PointTwice,
        ),
        ("group 7\nk 2\nbase 1 01\n", 3, SourceFault::PointTwice),
        (
            "group 7\nfixed 1\nk 2\nshort inf1 inf01\n",
            4,
            SourceFault::PointTwice,
        ),
        ("group 7\nk 2\nbase 0 0 9\n", 3, SourceFault::PointTwice),
        ("group 7\nk 3\nbase 0 1\n", 3, SourceFault::BlockSize),
        ("group 7\nk 3\nbase\n", 3, SourceFault::BlockSize),
        ("group 7\nk 3\nshort 0 1 2 3\n", 3, SourceFault::BlockSize),
        (
            "version 2\ngroup 7\nk 2 4\nforbid 0 1 2\n",
            4,
            SourceFault::BlockSize,
        ),
    ];
    for (text, line, fault) in cases {
        assert_eq!(rt;
            refused(rt.alloc(), text.as_bytes()),
            Some(SourceError { line, fault }),
            "at {text}"
        );
    }
}

#[test]
fn what_is_needed_is_missed(rt: HostRuntime) {
    let cases = [
        ("", 0, Needed::Group),
        ("# only\n\n   \n\t\r\n", 0, Needed::Group),
        ("version 2\n", 0, Needed::Group),
        ("group 7\n", 0, Needed::Size),
        ("group 7\nlambda 1\n", 0, Needed::Size),
        ("group 7\nk 3\n", 0, Needed::Lambda),
        ("fixed 1\n", 1, Needed::Group),
        ("k x\n", 1, Needed::Group),
        ("\n\nsubgroup all\n", 3, Needed::Group),
        ("base\n", 1, Needed::Group),
        ("version 2\nrequire 0\n", 2, Needed::Group),
        ("group 7\nbase 0 1 3\n", 2, Needed::Size),
        ("version 2\ngroup 7\nforbid x\n", 3, Needed::Size),
    ];
    for (text, line, needed) in cases {
        let fault = SourceFault::Missing(needed);
        assert_eq!(rt;
            refused(rt.alloc(), text.as_bytes()),
            Some(SourceError { line, fault }),
            "at {text}"
        );
    }
}

#[test]
fn ranges_are_judged(rt: HostRuntime) {
    let cases = [
        ("group 1\n", 1, SourceFault::GroupRange),
        ("group 129\n", 1, SourceFault::GroupRange),
        ("group 200 x\n", 1, SourceFault::GroupRange),
        ("group 12 12\n", 1, SourceFault::GroupRange),
        ("group 2 2 2 2 2 2 2 2\n", 1, SourceFault::GroupRange),
        ("group 7\nfixed 17\n", 2, SourceFault::FixedRange),
        ("group 7\nfixed 17 1\n", 2, SourceFault::FixedRange),
        ("group 120\nfixed 9\n", 2, SourceFault::FixedRange),
        ("group 128\nfixed 1\n", 2, SourceFault::FixedRange),
        ("group 7\nk 1\n", 2, SourceFault::SizeRange),
        ("group 20\nk 17\n", 2, SourceFault::SizeRange),
        ("group 7\nk 8\nfixed 1\n", 2, SourceFault::SizeRange),
        ("version 2\ngroup 7\nk 3 9 x\n", 3, SourceFault::SizeRange),
        ("group 7\nlambda 2000001\n", 2, SourceFault::TargetRange),
        ("group 7\nhole 2000001 1\n", 2, SourceFault::TargetRange),
        ("group 7\ninside all 2000001\n", 2, SourceFault::TargetRange),
    ];
    for (text, line, fault) in cases {
        assert_eq!(rt;
            refused(rt.alloc(), text.as_bytes()),
            Some(SourceError { line, fault }),
            "at {text}"
        );
    }
}

#[test]
fn the_first_line_that_is_wrong_is_told(rt: HostRuntime) {
    let cases = [
        ("group 7\nk 9\nfoo\n", 2, SourceFault::SizeRange),
        ("group 7\r\nk 3\r\nlambda\r\n", 3, SourceFault::BadWord),
        (
            "group 7 # k\n#\n\nlambda 1\nlambda x",
            5,
            SourceFault::Repeated,
        ),
        (
            "version 02 # two\ngroup 6\nk 2 x\nfoo",
            3,
            SourceFault::BadNumber,
        ),
    ];
    for (text, line, fault) in cases {
        assert_eq!(rt;
            refused(rt.alloc(), text.as_bytes()),
            Some(SourceError { line, fault }),
            "at {text}"
        );
    }
}

#[test]
fn sources_within_the_rules_are_read(rt: HostRuntime) {
    let cases = [
        "group 7\nk 3\nlambda 1\n",
        "group 7\r\nk 3\r\nlambda 1\r\n",
        "\tgroup\t7\t#x\nk\t3\nlambda 1",
        "group 7\nlambda 0\nhole 2000000\ninside none 2000000\nk 7",
        "group 112\nfixed 16\nk 16\nlambda 1\n",
        "group 7\nfixed 1\nk 8\nlambda 1\nbase 0 1 2 3 4 5 6 inf1\n",
        "group 2 2 2 2 2 2 2\nk 2\nlambda 1\nshort 0,0,0,0,0,0,0 1,1,1,1,1,1,01\n",
        "group 7\nsubgroup abcdefghijklmnop\nshift abcdefghijklmnop\nk 3\nlambda 1\n",
        "version 2\n\ngroup 7\nk 3 2 3\nlambda 1\nforbid 0 1\nrequire 4 5 6\n",
    ];
    for text in cases {
        assert!(rt; read(rt.alloc(), text.as_bytes()).is_some(), "at {text}");
    }
}

#[test]
fn statements_are_kept(rt: HostRuntime) -> Result<(), Fail> {
    let text =
        "group 2 6\nsubgroup N 1,3 0,2\nmult 7 5 11\nk 3\nlambda 0002\nfixed 2\ninside N 1\nhole 5\nshort inf2 1,5 0,0\n";
    let Some(problem) = read(rt.alloc(), text.as_bytes()) else {
        assert!(rt; false);
        return Ok(());
    };
    assert_eq!(rt; problem.points(), 14);
    assert_eq!(rt; problem.mults.as_slice(), [1, 5].as_slice());
    assert_eq!(rt; problem.sizes.as_slice(), [3].as_slice());
    assert!(rt; problem.names.len() == 1);
    assert!(rt; problem.family.len() == 1);
    assert!(rt; problem.family[0].kind == Kind::Short);
    // 0,0 is point 0, 1,5 is point 1 * 6 + 5, and inf2 is point 12 + 1.
    let points = problem.family[0].block.points();
    assert_eq!(rt;
        points.as_slice(),
        [Point(0), Point(11), Point(13)].as_slice()
    );
    // The elements 0,0 0,2 0,4 1,1 1,3 1,5 have the numbers 0 2 4 7 9 11.
    let subgroup = problem.subgroup(Which::Named(0));
    assert_eq!(rt; subgroup.order(), 6);
    for e in [0, 2, 4, 7, 9, 11] {
        assert!(rt; subgroup.has(Elem(e)), "at {e}");
    }
    assert_eq!(rt; problem.subgroup(Which::All).order(), 12);
    assert_eq!(rt; problem.subgroup(Which::Trivial).order(), 1);
    Ok(())
}

#[test]
fn sizes_are_kept_increasing(rt: HostRuntime) -> Result<(), Fail> {
    let text = "version 2\ngroup 6\nk 5 2 3 2\nlambda 1\nrequire 4 2 0\n";
    let Some(problem) = read(rt.alloc(), text.as_bytes()) else {
        assert!(rt; false);
        return Ok(());
    };
    assert_eq!(rt; problem.version, 2);
    assert_eq!(rt; problem.sizes.as_slice(), [2, 3, 5].as_slice());
    assert_eq!(rt; problem.required.len(), 1);
    assert_eq!(rt; problem.forbidden.len(), 0);
    Ok(())
}

#[test]
fn targets_go_by_the_pair(rt: HostRuntime) {
    let text = "group 8\nfixed 2\nsubgroup N 4\nk 3\nlambda 3\ninside N 0\nhole 5\n";
    let Some(problem) = read(rt.alloc(), text.as_bytes()) else {
        assert!(rt; false);
        return;
    };
    // 1 and 5 differ by 4, points 8 and 9 are fixed.
    for (p, q, want) in [
        (1, 5, 0),
        (5, 1, 0),
        (1, 4, 3),
        (0, 8, 3),
        (9, 0, 3),
        (8, 9, 5),
    ] {
        assert!(rt; p != q && p < problem.points() && q < problem.points());
        assert_eq!(rt;
            target(&problem, Point(p), Point(q)),
            want,
            "at {p} and {q}"
        );
    }
}

#[test]
fn points_are_read(rt: HostRuntime) {
    let text = "group 2 6\nfixed 2\nk 3\nlambda 1\n";
    let Some(problem) = read(rt.alloc(), text.as_bytes()) else {
        assert!(rt; false);
        return;
    };
    let cases = [
        ("0,0", Some(Point(0))),
        ("1,3", Some(Point(9))),
        ("01,5", Some(Point(11))),
        ("inf1", Some(Point(12))),
        ("inf02", Some(Point(13))),
        ("inf3", None),
        ("inf0", None),
        ("infinity", None),
        ("2,0", None),
        ("1", None),
        ("1,3,", None),
        ("", None),
    ];
    for (text, want) in cases {
        assert_eq!(rt; read_point(&problem, text.as_bytes()), want, "at {text}");
    }
}

// The head, the line so many times, and the end.
fn repeated(
    alloc: Global,
    head: &str,
    line: &str,
    count: usize,
    end: &str,
) -> Result<Vec<u8>, Fail> {
    let mut text = Vec::new(alloc);
    text.extend_from_slice(head.as_bytes())?;
    for _ in 0..count {
        text.extend_from_slice(line.as_bytes())?;
    }
    text.extend_from_slice(end.as_bytes())?;
    Ok(text)
}

#[test]
fn blocks_are_counted_by_kind(rt: HostRuntime) -> Result<(), Fail> {
    let alloc = rt.alloc();
    let too_many = SourceFault::TooManyBlocks;
    let one = repeated(alloc, "group 2\nk 2\nlambda 1\n", "base 0 1\n", 4096, "")?;
    assert!(rt; refused(alloc, one.as_slice()).is_none());
    let two = repeated(alloc, "group 2\nk 2\n", "base 0 1\n", 4096, "short x\n")?;
    assert_eq!(rt;
        refused(alloc, two.as_slice()),
        Some(SourceError {
            line: 4099,
            fault: too_many
        })
    );
    let three = repeated(
        alloc,
        "version 2\ngroup 2\nk 2\nlambda 1\n",
        "base 0 1\n",
        4096,
        "require 0 1\n",
    )?;
    assert!(rt; refused(alloc, three.as_slice()).is_none());
    let four = repeated(
        alloc,
        "version 2\ngroup 2\nk 2\nlambda 1\nforbid 0 1\n",
        "require 0 1\n",
        4095,
        "base 0 1\nforbid 0 1\n",
    )?;
    assert_eq!(rt;
        refused(alloc, four.as_slice()),
        Some(SourceError {
            line: 4102,
            fault: too_many
        })
    );
    Ok(())
}
