// The JSON listing of designs.
// What a value sends to serde's `Serializer` is said as the events of a JSON value, `SendsValue`, and serde_json ties its
// bytes to these events. So each function below sends the value of one part of the listing.
ghost use Rattle.std.specs.Prelude.{◌≡◌, ◌<◌, ◌+◌, [], IsOk, IfOk, OnOk, IsErr, is_some, if◌then◌else◌, length, slice_index_or, option_map, unwrap_or};
ghost use Rattle.serde_json.specs.Data.{string};
ghost use Rattle.serde_json.specs.Events.{SendsValue, SendsMembers};
ghost use Rattle.serde_json.specs.Written.{compact_text};
ghost use Rattle.df_lang.specs.Canonical.{point_text, canonical};
ghost use Rattle.df_list.specs.Listings.{nothing_listed, with_design, array_of, block_data, blocks_data, bases_data, all_data, path_data, with_blocks, with_end, last_members, listing_data, listing_text, ComesAhead};

use crate::OutOfMemory;
use df_io::LineBuf;
use df_lang::{Problem, line_count, point_text_is_short, print, put_point};
use df_subsets::{Block, Point};
use df_system::Path;
use serde::{Described, Serialize, Serializer};
use std::alloc::{AllocError, Global};
use std::marker::Model;

// A design that is listed.
#[derive(Drop)]
struct DesignBlocks {
    base: Vec<Block>,
    // all its blocks; none where they are not listed
    all: Vec<Block>,
}

impl Model for DesignBlocks {
    ghost use Rattle.df_list.specs.Listings.{ListedDesign};

    ghost Value = { ListedDesign };

    ghost view = { λ d. record { base = d.base.items; all = d.all.items } };
}

/// The designs of a problem that are listed, in the order in which they were added.
///
/// Clauses see it as the problem, whether all blocks of each design are listed, and the list of designs.
#[derive(Drop)]
pub struct Listing<'p> {
    alloc: Global,
    problem: &'p Problem,
    blocks: bool,
    designs: Vec<DesignBlocks>,
}

impl<'p> Model for Listing<'p> {
    ghost use Rattle.df_list.specs.Listings.{Listed};

    ghost Value = { Listed };

    ghost view = { λ l. record { problem = l.problem.now; blocks = l.blocks; designs = l.designs.items } };
}

impl<'p> Listing<'p> {
    /// No design of the problem yet; `blocks` says whether all blocks of each design are listed beside its base blocks.
    /// It takes no memory, so it is `Ok`; what is added later is taken from this allocator.
    pub fn new(
        alloc: Global,
        problem: &'p Problem,
        blocks: bool,
    ) -> Result<Listing<'p>, OutOfMemory>
        ensures made { IsOk result }
        ensures empty { IfOk result (λ l. l ≡ nothing_listed problem.now blocks) }
    {
        Ok(Listing {
            alloc,
            problem,
            blocks,
            designs: Vec::new(alloc),
        })
    }

    /// Lists one design more, after the others: its base blocks, and all its blocks where these are listed.
    /// Out of memory it refuses, and the listing is as before.
    pub fn add(&mut self, base: Vec<Block>, all: Option<Vec<Block>>) -> Result<(), OutOfMemory>
        requires { is_some all ≡ self.old.blocks }
        ensures added { OnOk result (self.new ≡ with_design self.old
            record { base = base.items; all = unwrap_or (option_map (λ v. v.items) all) [] }) }
        ensures refused { IsErr result → self.new ≡ self.old }
    {
        let all = match all {
            Some(all) => all,
            None => Vec::new(self.alloc),
        };
        self.designs.push(DesignBlocks { base, all })?;
        Ok(())
    }

    /// The text of the listing, one line of JSON with its line feed: how the run ended, `next` being the path where it goes
    /// on if it was spent, and how many nodes it visited. Out of memory it refuses, and the listing is given up.
    pub fn finish(self, next: Option<Path>, nodes: u64) -> Result<Vec<u8>, OutOfMemory>
        ensures { IfOk result (λ text. text.items ≡ listing_text self.entry next nodes) }
    {
        let alloc = self.alloc;
        let ended = EndedListing {
            listing: self,
            next,
            nodes,
        };
        let mut text = json_of(alloc, &ended)?;
        text.push(b'\n')?;
        Ok(text)
    }
}

// A listing with the end of its run.
#[derive(Drop)]
struct EndedListing<'p> {
    listing: Listing<'p>,
    next: Option<Path>,
    nodes: u64,
}

impl<'p> Described for EndedListing<'p> {
    ghost writes = { λ e old new. SendsValue (listing_data e.listing e.next e.nodes) old new };
}

impl<'p> Serialize for EndedListing<'p> {
    fn serialize<S: Serializer>(&self, out: &mut S) -> Result<(), S::Error> {
        let listing = &self.listing;
        out.begin_map(Some(member_count(listing.blocks, self.next.is_some())))?;
        send_shown(listing, out)?;
        out.key("designs")?;
        send_bases(listing.problem, &listing.designs, out)?;
        send_ended(&self.next, out)?;
        send_rest(listing.problem, self.nodes, out)
    }
}

// Its text without the line feed. No refusal but that of memory can come of these events.
fn json_of(alloc: Global, ended: &EndedListing<'_>) -> Result<Vec<u8>, OutOfMemory>
    ensures { IfOk result (λ text. text.items ≡ compact_text (listing_data ended.now.listing ended.now.next ended.now.nodes)) }
{
    match serde_json::to_vec(alloc, ended) {
        Ok(text) => Ok(text),
        Err(_) => Err(AllocError),
    }
}

// How many members the object has.
fn member_count(blocks: bool, spent: bool) -> usize
    ensures { result ≡ (if blocks then 1 else 0) + (if spent then 1 else 0) + 4 }
{
    usize::from(blocks) + usize::from(spent) + 4
}

// Sends the member with all blocks of each design, where they are listed, ahead of the members that come next.
fn send_shown<S: Serializer>(listing: &Listing<'_>, out: &mut S) -> Result<(), S::Error>
    ensures { OnOk result (ComesAhead (with_blocks listing.now) (S.written out.old) (S.written out.new)) }
{
    if listing.blocks {
        out.key("blocks")?;
        send_all(listing.problem, &listing.designs, out)
    } else {
        Ok(())
    }
}

// Sends all blocks of each design.
fn send_all<S: Serializer>(
    problem: &Problem,
    designs: &[DesignBlocks],
    out: &mut S,
) -> Result<(), S::Error>
    ensures { OnOk result (SendsValue (all_data problem.now.group designs.now) (S.written out.old) (S.written out.new)) }
{
    out.begin_seq(Some(designs.len()))?;
    for design in designs {
        send_blocks(problem, &design.all, out)?;
    }
    out.end_seq()
}

// Sends the base blocks of each design.
fn send_bases<S: Serializer>(
    problem: &Problem,
    designs: &[DesignBlocks],
    out: &mut S,
) -> Result<(), S::Error>
    ensures { OnOk result (SendsValue (bases_data problem.now.group designs.now) (S.written out.old) (S.written out.new)) }
{
    out.begin_seq(Some(designs.len()))?;
    for design in designs {
        send_blocks(problem, &design.base, out)?;
    }
    out.end_seq()
}

// Sends blocks.
fn send_blocks<S: Serializer>(
    problem: &Problem,
    blocks: &[Block],
    out: &mut S,
) -> Result<(), S::Error>
    ensures { OnOk result (SendsValue (blocks_data problem.now.group blocks.now) (S.written out.old) (S.written out.new)) }
{
    out.begin_seq(Some(blocks.len()))?;
    for block in blocks {
        send_block(problem, block, out)?;
    }
    out.end_seq()
}

// Sends the tokens of a block's points.
fn send_block<S: Serializer>(problem: &Problem, block: &Block, out: &mut S) -> Result<(), S::Error>
    ensures { OnOk result (SendsValue (block_data problem.now.group block.now) (S.written out.old) (S.written out.new)) }
{
    let points = block.points();
    let points = points.as_slice();
    out.begin_seq(Some(points.len()))?;
    for point in points {
        send_point(problem, *point, out)?;
    }
    out.end_seq()
}

// Sends the token of a point.
fn send_point<S: Serializer>(problem: &Problem, point: Point, out: &mut S) -> Result<(), S::Error>
    ensures { OnOk result (SendsValue (string (point_text problem.now.group point)) (S.written out.old) (S.written out.new)) }
{
    let mut token = LineBuf::new();
    point_text_is_short(problem, point);
    put_point(&mut token, problem, point);
    send_text(token.as_slice(), out)
}

// Sends how the run ended, and the path where it goes on if it was spent, ahead of the members that come next.
fn send_ended<S: Serializer>(next: &Option<Path>, out: &mut S) -> Result<(), S::Error>
    ensures { OnOk result (ComesAhead (with_end next.now) (S.written out.old) (S.written out.new)) }
{
    out.key("end")?;
    match next {
        None => out.str("finished"),
        Some(path) => {
            out.str("spent")?;
            out.key("next")?;
            send_path(path, out)
        }
    }
}

// Sends the last members and the end of the object.
fn send_rest<S: Serializer>(problem: &Problem, nodes: u64, out: &mut S) -> Result<(), S::Error>
    ensures { OnOk result (SendsMembers (last_members problem.now nodes) (S.written out.old) (S.written out.new)) }
{
    out.key("nodes")?;
    out.u64(nodes)?;
    out.key("source")?;
    send_lines(problem, out)?;
    out.end_map()
}

// Sends a path: its length, and its yes columns.
fn send_path<S: Serializer>(path: &Path, out: &mut S) -> Result<(), S::Error>
    ensures { OnOk result (SendsValue (path_data path.now) (S.written out.old) (S.written out.new)) }
{
    let chosen = path.chosen();
    out.begin_seq(Some(chosen.len() + 1))?;
    out.u64(u64::from(path.length()))?;
    for column in chosen {
        out.u64(u64::from(*column))?;
    }
    out.end_seq()
}

// Sends the canonical lines of a problem.
fn send_lines<S: Serializer>(problem: &Problem, out: &mut S) -> Result<(), S::Error>
    ensures { OnOk result (SendsValue (array_of string (canonical problem.now)) (S.written out.old) (S.written out.new)) }
{
    let count = line_count(problem);
    out.begin_seq(Some(count))?;
    for number in 0..count {
        send_line(problem, number, out)?;
    }
    out.end_seq()
}

// Sends the canonical line of this number.
fn send_line<S: Serializer>(problem: &Problem, number: usize, out: &mut S) -> Result<(), S::Error>
    requires { number < length (canonical problem.now) }
    ensures { OnOk result (SendsValue (string (slice_index_or (canonical problem.now) number [])) (S.written out.old) (S.written out.new)) }
{
    let mut line = LineBuf::new();
    print(problem, &mut line, number);
    send_text(line.as_slice(), out)
}

// Sends the text that these bytes are.
fn send_text<S: Serializer>(bytes: &[u8], out: &mut S) -> Result<(), S::Error>
    ensures { OnOk result (SendsValue (string bytes.now) (S.written out.old) (S.written out.new)) }
{
    match str::from_utf8(bytes) {
        Ok(text) => out.str(text),
        Err(_) => Err(out.custom("a text is not UTF-8")),
    }
}
