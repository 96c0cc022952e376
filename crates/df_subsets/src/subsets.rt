// All blocks of a size in order: the first, the next, places, and how many there are.
//
// The next block is found on the bits. The points in the unbroken run at the top can't move up; the last point below that run
// moves up by one, and the run follows it at once. That takes a step for each point of the run, one or two for most blocks. A
// place is counted from the end, as a sum of one binomial for each point, each of as many products as it chooses points.
ghost use Rattle.std.specs.Prelude.{◌≡◌, ◌+◌, ◌-◌, ◌*◌, ◌/◌, ◌^◌, ◌<◌, ◌≤◌, length, slice_get, IfSome};
ghost use Rattle.std.specs.List.{range_with_len};
ghost use Rattle.df_lists.specs.Bits.{weight};
ghost use Rattle.df_lists.specs.NumberSets.{IsSet};
ghost use Rattle.df_subsets.specs.Subsets.{points as points_below, subsets, binomial as binomial_of, rank as rank_of};

use crate::block::{Block, Point};

/// How many blocks of k points below v there are: the binomial coefficient, with k at most v and v at most 128.
pub fn binomial(v: u8, k: u8) -> u128
    requires small { v ≤ 128 }
    requires some { k ≤ v }
    ensures value { result ≡ binomial_of v k }
    ensures length { result ≡ length (subsets v k) }
    ensures positive { 0 < result }
{
    choices(v, k)
}

// The binomial coefficient, 0 where k is above n. Each step goes from one of its row to the next.
fn choices(n: u8, k: u8) -> u128
    requires { n ≤ 128 }
    ensures { result ≡ binomial_of n k }
{
    if k > n {
        return 0;
    }
    let mut count: u128 = 1;
    for taken in 0..k {
        count = scaled(count, n - taken, taken + 1);
    }
    count
}

// count * rest / share. A small product is made first, and a large one in parts, since it may not fit.
fn scaled(count: u128, rest: u8, share: u8) -> u128
    requires some { 0 < share }
    requires fits { count * rest / share < 2 ^ 128 }
    ensures { result ≡ count * rest / share }
{
    if count < 1 << 56 {
        return (count as u64 * rest as u64 / share as u64) as u128;
    }
    let rest = rest as u128;
    let share = share as u128;
    count / share * rest + count % share * rest / share
}

/// The first block of k points below v, for k from 1 to v and v at most 128: the points below k.
pub fn first(v: u8, k: u8) -> Block
    requires small { v ≤ 128 }
    requires some { 1 ≤ k }
    requires within { k ≤ v }
    ensures first { slice_get (subsets v k) 0 ≡ Some result }
    ensures points { result ≡ points_below k }
    ensures block { IsSet v result }
    ensures size { length result ≡ k }
{
    Block::from_bits(u128::MAX >> (128 - k))
}

/// The next block of the same size among the points below v, which is at most 128.
/// The block isn't empty and lies below v. `None` exactly at the last one.
pub fn next(v: u8, block: &Block) -> Option<Block>
    requires small { v ≤ 128 }
    requires some { 0 < length block.now }
    requires within { IsSet v block.now }
    ensures next { result ≡ slice_get (subsets v (length block.now)) (rank_of v block.now + 1) }
    ensures block { IfSome result (λ next. IsSet v next × (length next ≡ length block.now)) }
{
    let (top, low) = below_top(v, block.bits());
    if low == 0 {
        return None;
    }
    // the last point that can move up moves, and those of the top follow it at once
    let moved = low.ilog2() as u8;
    let lower = low - (1 << moved);
    let run = ((1u128 << (top + 1)) - 1) << (moved + 1);
    Some(Block::from_bits(run | lower))
}

// How many points stand in an unbroken run at the top of those below v, and the bits below that run.
fn below_top(v: u8, bits: u128) -> (u8, u128)
    requires small { v ≤ 128 }
    requires within { bits < 2 ^ v }
    ensures run { result.0 ≤ v }
    ensures split { result.1 + weight (range_with_len (v - result.0) result.0) ≡ bits }
    ensures gap { result.1 < 2 ^ (v - 1 - result.0) }
{
    let mut low = bits;
    let mut top: u8 = 0;
    while top < v && low >= 1 << (v - 1 - top) {
        low -= 1 << (v - 1 - top);
        top += 1;
    }
    (top, low)
}

/// The place of a block among the blocks of its size of points below v, from 0, in their order:
/// its number in the combinatorial number system, counted from the end (Knuth, *The Art of Computer Programming*, 7.2.1.3).
/// The block isn't empty and lies below v, which is at most 128.
pub fn rank(v: u8, block: &Block) -> u128
    requires small { v ≤ 128 }
    requires some { 0 < length block.now }
    requires within { IsSet v block.now }
    ensures rank { result ≡ rank_of v block.now }
    ensures place { slice_get (subsets v (length block.now)) result ≡ Some block.now }
    ensures below { result < binomial_of v (length block.now) }
{
    let points = block.points();
    let size = points.len() as u8;
    // the blocks that come after: those that agree before a point and have a later one in its place
    let mut later: u128 = 0;
    let mut left = size;
    for p in points.as_slice() {
        later += choices(v - 1 - p.0, left);
        left -= 1;
    }
    choices(v, size) - 1 - later
}

/// The block that stands at a place among the blocks of k points below v, in their order.
/// Here k is from 1 to v, v is at most 128, and the place is below `binomial(v, k)`.
pub fn unrank(v: u8, k: u8, place: u128) -> Block
    requires small { v ≤ 128 }
    requires some { 1 ≤ k }
    requires within { k ≤ v }
    requires below { place < binomial_of v k }
    ensures place { slice_get (subsets v k) place ≡ Some result }
    ensures rank { rank_of v result ≡ place }
    ensures block { IsSet v result }
    ensures size { length result ≡ k }
{
    let mut block = Block::empty();
    let mut left = k;
    let mut place = place;
    for p in 0..v {
        if left > 0 {
            let with_point = choices(v - 1 - p, left - 1);
            if place < with_point {
                block.insert(Point(p));
                left -= 1;
            } else {
                place -= with_point;
            }
        }
    }
    block
}
