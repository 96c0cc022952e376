// What no clause says: canonical lines worked out by hand.
use super::*;
use df_io::LineBuf;
use df_subsets::{Block, Point};
use std::alloc::Global;
use std::test::Fail;

// Whether these are the canonical lines of a source, and of a copy of what it states.
fn prints(alloc: Global, source: &[u8], lines: &[&str]) -> bool {
    let Ok(problem) = parse(alloc, source) else {
        return false;
    };
    let Ok(copy) = problem.copied(alloc) else {
        return false;
    };
    has_lines(&problem, lines) && has_lines(&copy, lines)
}

// Whether these are the canonical lines of a problem.
fn has_lines(problem: &Problem, lines: &[&str]) -> bool {
    let mut buf = LineBuf::new();
    for (number, line) in lines.iter().enumerate() {
        if !print(problem, &mut buf, number) || buf.as_slice() != line.as_bytes() {
            return false;
        }
    }
    line_count(problem) == lines.len() && !print(problem, &mut buf, lines.len()) && buf.is_empty()
}

#[test]
fn lines_have_canonical_generators_and_reduced_multipliers(rt: HostRuntime) -> Result<(), Fail> {
    let source = b"group 2 6\nsubgroup N 1,3 0,2\nmult 7 5\nk 3\nlambda 0002\n";
    let lines = [
        "group 2 6",
        "fixed 0",
        "subgroup N 0,2 1,1",
        "shift all",
        "mult 1 5",
        "k 3",
        "lambda 2",
        "hole 2",
    ];
    assert!(rt; prints(rt.alloc(), source, &lines));
    Ok(())
}

#[test]
fn lines_come_in_one_order(rt: HostRuntime) -> Result<(), Fail> {
    let source =
        b"version 2\ngroup 7\nfixed 2\nhole 5\nlambda 1\nk 4 03 4\nforbid 2 1 0\nshort 6 inf2 0\nrequire inf1 3 1\nbase 3 1 2 0\nmult 2 9 1\nsubgroup zero 0\nsubgroup Z7 3 1\ninside Z7 0\nshift zero\n";
    let lines = [
        "version 2",
        "group 7",
        "fixed 2",
        "subgroup zero",
        "subgroup Z7 1",
        "shift zero",
        "mult 2 1",
        "k 3 4",
        "lambda 1",
        "inside Z7 0",
        "hole 5",
        "short 0 6 inf2",
        "base 0 1 2 3",
        "require 1 3 inf1",
        "forbid 0 1 2",
    ];
    assert!(rt; prints(rt.alloc(), source, &lines));
    Ok(())
}

#[test]
fn nothing_is_printed_of_what_is_not_stated(rt: HostRuntime) -> Result<(), Fail> {
    let source = b"group 128\nk 2\nlambda 2000000\ninside none 1\n";
    let lines = [
        "group 128",
        "fixed 0",
        "shift all",
        "k 2",
        "lambda 2000000",
        "inside none 1",
        "hole 2000000",
    ];
    assert!(rt; prints(rt.alloc(), source, &lines));
    Ok(())
}

// The text of a point and a block after a keyword.
fn put(alloc: Global, source: &[u8], points: &[Point]) -> Option<LineBuf> {
    if points.len() != 3 {
        return None;
    }
    let problem = parse(alloc, source).ok()?;
    let block = Block::from_points(points)?;
    let mut buf = LineBuf::new();
    point_text_is_short(&problem, points[0]);
    put_point(&mut buf, &problem, points[0]);
    buf.push(b':');
    block_text_is_short(&problem, &block);
    put_block(&mut buf, &problem, &block);
    Some(buf)
}

#[test]
fn points_and_blocks_are_put(rt: HostRuntime) -> Result<(), Fail> {
    let source = b"group 2 2 6\nfixed 2\nk 3\nlambda 1\n";
    match put(rt.alloc(), source, &[Point(25), Point(9), Point(23)]) {
        Some(buf) => assert!(rt; buf.as_slice() == b"inf2:0,1,3 1,1,5 inf2".as_slice()),
        None => assert!(rt; false),
    }
    Ok(())
}
