// What no clause says of design lines: that memory suffices; and lines with the blocks that they
// say, worked out by hand.
use super::*;
use df_io::LineBuf;
use df_lang::{Problem, parse};
use df_subsets::{Block, Point};
use std::alloc::Global;
use std::test::Fail;

fn has_points(block: &Block, points: &[u8]) -> bool {
    let stated = block.points();
    let stated = stated.as_slice();
    if stated.len() != points.len() {
        return false;
    }
    for (p, q) in stated.iter().zip(points) {
        if p.0 != *q {
            return false;
        }
    }
    true
}

// The line is a design line with these blocks.
fn says(alloc: Global, problem: &Problem, line: &[u8], blocks: &[&[u8]]) -> bool {
    let Ok(read) = read_design(alloc, problem, line) else {
        return false;
    };
    if read.len() != blocks.len() {
        return false;
    }
    for (block, points) in read.iter().zip(blocks) {
        if !has_points(block, points) {
            return false;
        }
    }
    true
}

fn is_bad(alloc: Global, problem: &Problem, line: &[u8]) -> bool {
    matches!(read_design(alloc, problem, line), Err(DesignRead::Bad))
}

#[test]
fn designs_of_one_size_are_read(rt: HostRuntime) -> Result<(), Fail> {
    let alloc = rt.alloc();
    let Ok(problem) = parse(alloc, b"group 7\nk 3\nlambda 1\n") else {
        assert!(rt; false);
        return Ok(());
    };
    let one: [&[u8]; 1] = [&[0, 1, 3]];
    let two: [&[u8]; 2] = [&[0, 1, 3], &[0, 1, 5]];
    let turned: [&[u8]; 2] = [&[0, 1, 5], &[0, 1, 3]];
    let twice: [&[u8]; 2] = [&[0, 1, 3], &[0, 1, 3]];
    for (line, blocks) in [
        (b"design".as_slice(), [].as_slice()),
        (b"\tdesign # 0 1 3", &[]),
        (b"design# 0 1 3 ;", &[]),
        (b"design 0 1 3", &one),
        (b" design\t00  01 003 # 5\r", &one),
        (b"design 0 1 3\r", &one),
        (b"design 0 1 3 ; 0 1 5", &two),
        (b"design 0 1 3\t;\t0 1 5#; 0 1 6", &two),
        (b"design 0 1 5 ; 0 1 3", &turned),
        (b"design 0 1 3 ; 0 1 3", &twice),
    ] {
        assert!(rt; says(alloc, &problem, line, blocks));
    }
    for line in [
        b"".as_slice(),
        b"# design",
        b"designs 0 1 3",
        b"Design 0 1 3",
        b"block 0 1 3",
        b"0 1 3",
        b"design 0 3 1",
        b"design 3 1 0",
        b"design 0 1 1",
        b"design 0 0 1 3",
        b"design 0 1",
        b"design 0 1 2 3",
        b"design 0 1 3 0 1 5",
        b"design ;",
        b"design ; 0 1 3",
        b"design 0 1 3 ;",
        b"design 0 1 3 ; ; 0 1 5",
        b"design 0 1 3 ; 0 5 1",
        b"design 0 1 3 ; 0 1",
        b"design 0 1 3; 0 1 5",
        b"design 0 1 3 ;0 1 5",
        b"design 0 1 3 , 0 1 5",
        b"design 0 1 7",
        b"design 0 1 x",
        b"design 0 1 -3",
        b"design 0 1 3x",
        b"design 0 1 99999999999999999999",
        b"design 0,1 3 5",
        b"design 0 1 inf1",
        b"design design 0 1 3",
    ] {
        assert!(rt; is_bad(alloc, &problem, line));
    }
    Ok(())
}

#[test]
fn designs_of_two_sizes_are_read(rt: HostRuntime) -> Result<(), Fail> {
    let alloc = rt.alloc();
    let source = b"version 2\ngroup 2 3\nfixed 2\nk 2 4\nlambda 1\n";
    let Ok(problem) = parse(alloc, source) else {
        assert!(rt; false);
        return Ok(());
    };
    let two: [&[u8]; 2] = [&[0, 5], &[1, 2, 6, 7]];
    let ends: [&[u8]; 3] = [&[6, 7], &[0, 1, 2, 3], &[5, 6]];
    for (line, blocks) in [
        (
            b"design 0,0 1,2 ; 0,1 0,2 inf1 inf2".as_slice(),
            two.as_slice(),
        ),
        (b"design 00,0 1,002 ; 0,1 0,2 inf01 inf2", &two),
        (b"design inf1 inf2 ; 0,0 0,1 0,2 1,0 ; 1,2 inf1", &ends),
    ] {
        assert!(rt; says(alloc, &problem, line, blocks));
    }
    for line in [
        b"design 0,0".as_slice(),
        b"design 0,0 1,2 inf1",
        b"design 0,0 0,1 0,2 1,0 1,1",
        b"design inf2 inf1",
        b"design inf1 1,2",
        b"design 1,0 0,2",
        b"design 0,3 1,0",
        b"design 0,0 2,0",
        b"design 0 1",
        b"design 0,0 1, 2",
        b"design 0,0 1,2,0",
        b"design inf0 inf1",
        b"design inf1 inf3",
        b"design inf 1,0",
        b"design 0,0 INF1",
    ] {
        assert!(rt; is_bad(alloc, &problem, line));
    }
    Ok(())
}

// Numbers that look random.
#[derive(Clone, Copy, Debug, PartialEq, Eq)]
struct Numbers {
    state: u64,
}

impl Numbers {
    fn next(&mut self) -> u8 {
        self.state = self
            .state
            .wrapping_mul(6364136223846793005)
            .wrapping_add(1442695040888963407);
        (self.state >> 56) as u8
    }

    // A block of some of the first 8 points.
    fn block(&mut self) -> Block {
        let members = self.next();
        let mut block = Block::empty();
        for p in 0..8u8 {
            if members >> p & 1 == 1 {
                block.insert(Point(p));
            }
        }
        block
    }
}

// Blocks of two or four points, written to a line and read again; how many there were.
fn round(alloc: Global, problem: &Problem, numbers: &mut Numbers) -> Option<usize> {
    let mut blocks = Vec::new(alloc);
    let mut buf = LineBuf::new();
    put_design_start(&mut buf);
    for _ in 0..numbers.next() {
        let block = numbers.block();
        let size = usize::from(block.size());
        block_piece_is_short(problem, &block, blocks.len() as u64);
        if buf.len() + 29 * size + 3 > 1024 {
            break;
        }
        if size == 2 || size == 4 {
            put_design_block(&mut buf, problem, &block, blocks.len() as u64);
            blocks.push(block).ok()?;
        }
    }
    let read = read_design(alloc, problem, buf.as_slice()).ok()?;
    if read.as_slice() == blocks.as_slice() {
        Some(blocks.len())
    } else {
        None
    }
}

#[test]
fn designs_are_written_and_read(rt: HostRuntime) -> Result<(), Fail> {
    let alloc = rt.alloc();
    let source = b"version 2\ngroup 2 3\nfixed 2\nk 2 4\nlambda 1\n";
    let Ok(problem) = parse(alloc, source) else {
        assert!(rt; false);
        return Ok(());
    };
    let mut numbers = Numbers { state: 7 };
    let mut most = 0;
    for _ in 0..200u32 {
        let Some(count) = round(alloc, &problem, &mut numbers) else {
            assert!(rt; false);
            return Ok(());
        };
        if count > most {
            most = count;
        }
    }
    assert!(rt; most >= 10);
    Ok(())
}
