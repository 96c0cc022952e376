// Listings, as they are printed: texts written out by hand.
ghost use Rattle.std.specs.Prelude.{◌≤◌, ◌^◌, length};

use super::*;
use df_lang::{Problem, parse};
use df_subsets::{Block, Point};
use df_system::Path;
use std::alloc::{AllocError, Global};
use std::test::Fail;

fn problem_of(alloc: Global, source: &[u8]) -> Result<Problem, Fail>
    requires { length source.now ≤ 2 ^ 32 }
{
    Ok(parse(alloc, source).ok().ok_or("a source")?)
}

fn blocks_of(alloc: Global, blocks: &[&[Point]]) -> Result<Vec<Block>, AllocError> {
    let mut list = Vec::new(alloc);
    for points in blocks {
        if let Some(block) = Block::from_points(points) {
            list.push(block)?;
        }
    }
    Ok(list)
}

#[test]
fn designs_are_listed_by_their_base_blocks(rt: HostRuntime) -> Result<(), Fail> {
    let alloc = rt.alloc();
    let problem = problem_of(alloc, b"group 7\nk 3\nlambda 1\n")?;
    let mut listing = Listing::new(alloc, &problem, false)?;
    let first = blocks_of(alloc, &[&[Point(0), Point(1), Point(3)]])?;
    listing.add(first, None)?;
    let second = blocks_of(alloc, &[&[Point(5), Point(1), Point(0)]])?;
    listing.add(second, None)?;
    let text = listing.finish(None, 4)?;
    let wanted =
        "{\"designs\":[[[\"0\",\"1\",\"3\"]],[[\"0\",\"1\",\"5\"]]],\"end\":\"finished\",\"nodes\":4,\"source\":[\"group 7\",\"fixed 0\",\"shift all\",\"k 3\",\"lambda 1\",\"hole 1\"]}\n";
    assert_eq!(rt; text.as_slice(), wanted.as_bytes());
    Ok(())
}

// Elements of a group of two factors, a fixed point, all blocks beside the base blocks, and a path to go on from.
#[test]
fn all_blocks_and_the_next_path_are_listed(rt: HostRuntime) -> Result<(), Fail> {
    let alloc = rt.alloc();
    let problem = problem_of(alloc, b"group 2 3\nfixed 1\nk 2\nlambda 1\n")?;
    let mut listing = Listing::new(alloc, &problem, true)?;
    let base = blocks_of(alloc, &[&[Point(5), Point(6)]])?;
    let all = blocks_of(alloc, &[&[Point(0), Point(6)], &[Point(1), Point(6)]])?;
    listing.add(base, Some(all))?;
    let mut chosen = Vec::new(alloc);
    chosen.push(2)?;
    chosen.push(4_294_967_293)?;
    let next = Path::new(4_294_967_295, chosen);
    let text = listing.finish(next, u64::MAX)?;
    let wanted =
        "{\"blocks\":[[[\"0,0\",\"inf1\"],[\"0,1\",\"inf1\"]]],\"designs\":[[[\"1,2\",\"inf1\"]]],\"end\":\"spent\",\"next\":[4294967295,2,4294967293],\"nodes\":18446744073709551615,\"source\":[\"group 2 3\",\"fixed 1\",\"shift all\",\"k 2\",\"lambda 1\",\"hole 1\"]}\n";
    assert_eq!(rt; text.as_slice(), wanted.as_bytes());
    Ok(())
}

// No design, with each letter and digit that a name may have; and a design without blocks.
#[test]
fn nothing_is_listed_as_an_empty_array(rt: HostRuntime) -> Result<(), Fail> {
    let alloc = rt.alloc();
    let source =
        b"group 4\nsubgroup ABCDEFGHIJKLMNOP 2\nsubgroup QRSTUVWXYZabcdef 2\nsubgroup ghijklmnopqrstuv 2\nsubgroup wxyz_0123456789 2\nk 2\nlambda 0\n";
    let problem = problem_of(alloc, source)?;
    let text = Listing::new(alloc, &problem, false)?.finish(None, 0)?;
    let wanted =
        "{\"designs\":[],\"end\":\"finished\",\"nodes\":0,\"source\":[\"group 4\",\"fixed 0\",\"subgroup ABCDEFGHIJKLMNOP 2\",\"subgroup QRSTUVWXYZabcdef 2\",\"subgroup ghijklmnopqrstuv 2\",\"subgroup wxyz_0123456789 2\",\"shift all\",\"k 2\",\"lambda 0\",\"hole 0\"]}\n";
    assert_eq!(rt; text.as_slice(), wanted.as_bytes());
    let plain = problem_of(alloc, b"group 7\nk 3\nlambda 0\n")?;
    let mut listing = Listing::new(alloc, &plain, true)?;
    listing.add(Vec::new(alloc), Some(Vec::new(alloc)))?;
    let text = listing.finish(None, 1)?;
    let wanted =
        "{\"blocks\":[[]],\"designs\":[[]],\"end\":\"finished\",\"nodes\":1,\"source\":[\"group 7\",\"fixed 0\",\"shift all\",\"k 3\",\"lambda 0\",\"hole 0\"]}\n";
    assert_eq!(rt; text.as_slice(), wanted.as_bytes());
    Ok(())
}
