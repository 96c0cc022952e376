// Entries, paths and ends that look random, written and read again.
use super::*;
use arrayvec::ArrayVec;
use df_io::{LineBuf, put_text};
use std::alloc::Global;
use std::test::Fail;

// Numbers that look random.
#[derive(Clone, Copy, Debug, PartialEq, Eq)]
pub struct Numbers {
    pub state: u64,
}

impl Numbers {
    /// The next number, of 64 bits.
    pub fn next(&mut self) -> u64 {
        self.state = self
            .state
            .wrapping_mul(6364136223846793005)
            .wrapping_add(1442695040888963407);
        self.state ^ self.state >> 29
    }

    // A number of 32 bits, of few digits or of many.
    fn place(&mut self) -> u32 {
        (self.next() % 4294967296) as u32 >> (self.next() % 32) as u32
    }

    /// A count of 64 bits, of few digits or of many.
    pub fn count(&mut self) -> u64 {
        self.next() >> (self.next() % 64) as u32
    }

    // Rows of a cut, increasing.
    fn rows(&mut self) -> ArrayVec<CutRow, 16> {
        let mut rows = ArrayVec::new();
        let most = self.next() % 16 + 1;
        let mut row = self.place();
        for _ in 0..most {
            if rows.len() >= 16 {
                break;
            }
            let size = (self.next() % 1000 + 1) as i16;
            let weight = if self.next() % 2 == 0 { size } else { -size };
            rows.push(CutRow { weight, row });
            let Some(later) = row.checked_add((self.next() % 1000000 + 1) as u32) else {
                break;
            };
            row = later;
        }
        rows
    }

    /// An entry of any kind.
    pub fn entry(&mut self) -> Entry {
        match self.next() % 6 {
            0 => Entry::Branch(self.place()),
            1 => Entry::Over(self.place()),
            2 => Entry::Under(self.place()),
            3 => Entry::Settled,
            4 => Entry::Residue {
                row: self.place(),
                divisor: self.place().saturating_add(2),
            },
            _ => Entry::Cut(self.rows()),
        }
    }
}

fn are_rows(a: &[CutRow], b: &[CutRow]) -> bool {
    if a.len() != b.len() {
        return false;
    }
    for (x, y) in a.iter().zip(b) {
        if x.weight != y.weight || x.row != y.row {
            return false;
        }
    }
    true
}

fn are_same(a: &Entry, b: &Entry) -> bool {
    match (a, b) {
        (Entry::Branch(x), Entry::Branch(y)) => x == y,
        (Entry::Over(x), Entry::Over(y)) => x == y,
        (Entry::Under(x), Entry::Under(y)) => x == y,
        (Entry::Settled, Entry::Settled) => true,
        (
            Entry::Residue { row, divisor },
            Entry::Residue {
                row: other,
                divisor: by,
            },
        ) => row == other && divisor == by,
        (Entry::Cut(rows), Entry::Cut(others)) => are_rows(rows, others),
        _ => false,
    }
}

// An entry is read from its line as itself, by the plain rules only where it is neither a residue
// nor a cut.
fn entry_round(numbers: &mut Numbers) -> bool {
    let mut again = *numbers;
    let entry = numbers.entry();
    let same = again.entry();
    let is_plain = !matches!(entry, Entry::Residue { .. } | Entry::Cut(_));
    let mut buf = LineBuf::new();
    entry_text_is_short(&entry);
    put_entry(&mut buf, entry);
    let Some(read) = read_entry(buf.as_slice(), Rules::Divisor) else {
        return false;
    };
    are_same(&read, &same) && read_entry(buf.as_slice(), Rules::Plain).is_some() == is_plain
}

#[test]
fn entries_are_written_and_read(rt: HostRuntime) {
    let mut numbers = Numbers { state: 1 };
    for _ in 0..1000u32 {
        assert!(rt; entry_round(&mut numbers));
    }
    ends_are_read_back();
}

/// A path behind what the buffer holds; its length, and its columns. `None` where it has no room or there is no memory.
pub fn put_path(
    alloc: Global,
    buf: &mut LineBuf,
    numbers: &mut Numbers,
) -> Option<(u32, Vec<u32>)> {
    let mut columns = Vec::new(alloc);
    let length = numbers.place();
    path_piece_is_short(length);
    if buf.len() + PATH_BYTES > 1024 {
        return None;
    }
    put_path_start(buf, length);
    let mut next = numbers.place();
    for _ in 0..200u32 {
        if next >= length || buf.len() + PATH_BYTES > 1024 {
            break;
        }
        path_piece_is_short(next);
        put_path_column(buf, next);
        columns.push(next).ok()?;
        next = next.saturating_add((numbers.next() % 1000000 + 1) as u32);
    }
    Some((length, columns))
}

fn has_path(alloc: Global, line: &[u8], length: u32, columns: &[u32]) -> bool {
    match read_path(alloc, line) {
        Ok(path) => path.length() == length && path.chosen() == columns,
        Err(_) => false,
    }
}

// A path is read from its `from` line.
fn path_round(alloc: Global, numbers: &mut Numbers) -> bool {
    let mut buf = LineBuf::new();
    put_text(&mut buf, b"from");
    match put_path(alloc, &mut buf, numbers) {
        Some((length, columns)) => has_path(alloc, buf.as_slice(), length, columns.as_slice()),
        None => false,
    }
}

#[test]
fn paths_are_written_and_read(rt: HostRuntime) {
    let mut numbers = Numbers { state: 2 };
    for _ in 0..200u32 {
        assert!(rt; path_round(rt.alloc(), &mut numbers));
    }
}

// What a line is behind the head of a dossier.
fn judged(line: &[u8]) -> Option<Piece> {
    let mut judge = LineJudge::new();
    judge.line(b"dossier 2");
    judge.line(b"source 1");
    judge.line(b"group 7");
    judge.line(b"from 0");
    judge.line(line)
}

fn is_end(line: &[u8], was_finished: bool, some_designs: u64, some_nodes: u64) -> bool {
    match judged(line) {
        Some(
            Piece::End {
                finished,
                designs,
                nodes,
            },
        ) => finished == was_finished && designs == some_designs && nodes == some_nodes,
        _ => false,
    }
}

// Both ends are read with their counts, and the spent one with its path.
fn end_round(alloc: Global, numbers: &mut Numbers) -> bool {
    let (designs, nodes) = (numbers.count(), numbers.count());
    let mut finished = LineBuf::new();
    end_text_is_short(true, designs, nodes);
    put_end(&mut finished, true, designs, nodes);
    let mut spent = LineBuf::new();
    end_text_is_short(false, designs, nodes);
    put_end(&mut spent, false, designs, nodes);
    match put_path(alloc, &mut spent, numbers) {
        Some((length, columns)) => {
            is_end(finished.as_slice(), true, designs, nodes)
                && is_end(spent.as_slice(), false, designs, nodes)
                && has_path(alloc, spent.as_slice(), length, columns.as_slice())
                && matches!(read_path(alloc, finished.as_slice()), Err(PathRead::Bad))
        }
        None => false,
    }
}

#[test]
fn ends_are_written_and_read(rt: HostRuntime) {
    let mut numbers = Numbers { state: 3 };
    for _ in 0..200u32 {
        assert!(rt; end_round(rt.alloc(), &mut numbers));
    }
}
