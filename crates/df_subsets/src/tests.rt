// What no clause says: that each call succeeds, and values worked out by hand.
ghost use Rattle.std.specs.Prelude.{◌≤◌};

use super::{Block, Point, binomial, first, next, rank, unrank};

#[test]
fn builds_blocks_from_points(rt: HostRuntime) {
    let block = Block::from_points(&[Point(127), Point(0), Point(64)]);
    assert!(rt; block.is_some());
    let block = block.unwrap_or(Block::empty());
    assert_eq!(rt; block.size(), 3);
    assert!(rt; block.points().as_slice() == [Point(0), Point(64), Point(127)].as_slice());
    assert!(rt; block.has(Point(64)) && !block.has(Point(63)) && !block.has(Point(200)));
    assert!(rt; Block::from_points(&[Point(3), Point(5), Point(3)]).is_none());
    assert!(rt; Block::from_points(&[Point(128)]).is_none());
    assert!(rt; Block::from_points(&[]) == Some(Block::default()));
}

#[test]
fn orders_blocks_as_lists(rt: HostRuntime) {
    let mut low = Block::empty();
    low.insert(Point(0));
    low.insert(Point(1));
    let mut long = low;
    long.insert(Point(9));
    let mut high = Block::empty();
    high.insert(Point(1));
    assert!(rt; low < long && long < high && low < high);
    high.insert(Point(1));
    assert_eq!(rt; high.size(), 1);
}

#[test]
fn counts_blocks(rt: HostRuntime) {
    assert_eq!(rt; binomial(25, 8), 1_081_575);
    assert_eq!(rt; binomial(64, 6), 74_974_368);
    assert_eq!(rt;
        binomial(128, 64),
        23_951_146_041_928_082_866_135_587_776_380_551_750
    );
    assert_eq!(rt; binomial(128, 128), 1);
    assert_eq!(rt; binomial(128, 0), 1);
}

// Goes through all numbers of v bits downwards, whose bits from the top on are the points:
// those with k bits are the blocks of k points in the order of lists.
#[test]
fn goes_through_all_blocks(rt: HostRuntime) {
    for v in 1..10u8 {
        for k in 1..v + 1 {
            let mut block = first(v, k);
            let mut place: u128 = 0;
            let mut ended = false;
            for bits in (0..1u32 << v).rev() {
                if bits.count_ones() == k as u32 {
                    for p in 0..v {
                        assert_eq!(rt;
                            block.has(Point(p)),
                            (bits >> (v - 1 - p)) & 1 == 1,
                            "{v} {k} {bits}"
                        );
                    }
                    let at = rank(v, &block);
                    assert_eq!(rt; at, place);
                    assert!(rt; unrank(v, k, at) == block);
                    place = place.wrapping_add(1);
                    match next(v, &block) {
                        Some(following) => block = following,
                        None => ended = true,
                    }
                }
            }
            assert!(rt; ended && place == binomial(v, k), "{v} {k}");
        }
    }
}

// Whether the first block, the second and the last stand where they should.
fn ends_agree(v: u8, k: u8) -> bool
    requires small { v ≤ 128 }
    requires some { 1 ≤ k }
    requires within { k ≤ v }
{
    let count = binomial(v, k);
    let start = first(v, k);
    let last = unrank(v, k, count - 1);
    let starts = unrank(v, k, 0) == start && rank(v, &start) == 0;
    let ends = rank(v, &last) == count - 1 && next(v, &last).is_none();
    starts && ends && next(v, &start).is_none() == (count == 1)
}

fn last_block(v: u8, k: u8) -> Block
    requires small { v ≤ 128 }
    requires some { 1 ≤ k }
    requires within { k ≤ v }
{
    unrank(v, k, binomial(v, k) - 1)
}

#[test]
fn begins_and_ends_at_128_points(rt: HostRuntime) {
    for k in 1..129u8 {
        assert!(rt; ends_agree(128, k), "{k}");
    }
    let last = last_block(128, 64);
    assert!(rt; last.has(Point(64)) && !last.has(Point(63)) && last.has(Point(127)));
    let full = first(128, 128);
    assert!(rt; full.size() == 128 && full.has(Point(127)));
}
