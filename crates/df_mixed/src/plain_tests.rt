// Tables, developments and verdicts against counts of pairs over developments by residues. A set of points is the number whose bits
// are its points. The problems have the subgroup of 0 alone, proper subgroups and all elements as shifts, cyclic groups and
// products, fixed points, `inside`, `hole`, and base and short blocks, of which many are fixed by some shift.
ghost use Rattle.std.specs.Prelude.{◌≤◌, ◌^◌, length};

use crate::{DevelopUnder, MixedVerdict, pair_table, verify_under};
use df_group::{Elem, Subgroup};
use df_lang::{Kind, Problem, parse};
use df_subsets::Block;
use std::alloc::Global;
use std::process::Abort;

// Problems without blocks.
const HEADS: [&str; 11] = [
    "version 2\ngroup 7\nshift none\nk 2 3 4 5 6\nlambda 1\n",
    "version 2\ngroup 9\nsubgroup H 3\nshift H\nk 2 3 4 5 6\nlambda 1\n",
    "version 2\ngroup 8\nfixed 1\nsubgroup H 2\nshift H\nk 2 3 4 5 6\nlambda 2\n",
    "version 2\ngroup 8\nfixed 2\nsubgroup H 4\nsubgroup I 2\nshift H\nk 2 3 4 5 6\nlambda 2\ninside I 3\nhole 4\n",
    "version 2\ngroup 3 5\nsubgroup H 0,1\nshift H\nk 2 3 4 5 6\nlambda 1\n",
    "version 2\ngroup 2 6\nsubgroup H 1,3\nshift H\nk 2 3 4 5 6\nlambda 1\ninside H 0\n",
    "version 2\ngroup 2 2 3\nfixed 3\nsubgroup H 1,1,0\nshift H\nk 2 3 4 5 6\nlambda 1\nhole 0\n",
    "version 2\ngroup 12\nshift all\nk 2 3 4 5 6\nlambda 1\n",
    "version 2\ngroup 4 4\nsubgroup H 2,0 0,2\nshift H\nk 2 3 4 5 6\nlambda 1\ninside H 2\n",
    "version 2\ngroup 5\nfixed 3\nshift all\nk 2 3 4 5 6\nlambda 1\nhole 5\n",
    "version 2\ngroup 10\nfixed 2\nsubgroup H 5\nshift H\nk 2 3 4 5 6\nlambda 1\ninside all 3\nhole 2\n",
];

// The set of one point.
fn single(point: u32) -> u32 {
    1u32.wrapping_shl(point)
}

// The set of a block's points.
fn set_of(block: &Block) -> u32 {
    let mut set = 0;
    for point in &block.points() {
        set |= single(u32::from(point.0));
    }
    set
}

// Whether the element of this number is a member.
fn has(subgroup: &Subgroup, number: u32) -> bool {
    match u8::try_from(number) {
        Ok(number) => subgroup.has(Elem(number)),
        Err(_) => false,
    }
}

// The points of a problem: elements of a product of cyclic groups, and then fixed points.
#[derive(Drop)]
struct PlainPoints {
    factors: Vec<u32>,
    order: u32,
    count: u32,
}

impl PlainPoints {
    fn new(rt: &impl Abort, alloc: Global, problem: &Problem) -> PlainPoints {
        let mut factors = Vec::new(alloc);
        let mut order: u32 = 1;
        for factor in problem.shape.factors() {
            factors.push(u32::from(*factor)).expect(rt, "memory");
            order = order.wrapping_mul(u32::from(*factor));
        }
        let count = order.wrapping_add(u32::from(problem.fixed));
        assert!(rt; count <= 16);
        PlainPoints {
            factors,
            order,
            count,
        }
    }

    // m x + h of an element x, residue by residue from the last; a fixed point stays.
    fn carry(&self, rt: &impl Abort, m: u32, h: u32, x: u32) -> u32 {
        if x >= self.order {
            return x;
        }
        let (mut x, mut h) = (x, h);
        let (mut image, mut weight) = (0u32, 1u32);
        for place in (0..self.factors.len()).rev() {
            let factor = self.factors[place];
            assert!(rt; factor > 0);
            let residue = m.wrapping_mul(x % factor).wrapping_add(h % factor) % factor;
            image = image.wrapping_add(weight.wrapping_mul(residue));
            weight = weight.wrapping_mul(factor);
            x /= factor;
            h /= factor;
        }
        image
    }

    // The set of the points' sums with h.
    fn translate(&self, rt: &impl Abort, h: u32, set: u32) -> u32 {
        let mut translate = 0;
        for point in 0..self.count {
            if set & single(point) != 0 {
                translate |= single(self.carry(rt, 1, h, point));
            }
        }
        translate
    }

    // In how many blocks two points are to lie, of which p is the lower one.
    fn target(&self, rt: &impl Abort, problem: &Problem, p: u32, q: u32) -> u32 {
        if p >= self.order {
            return problem.hole;
        }
        if q >= self.order {
            return problem.lambda;
        }
        // q - p: the order is a multiple of each factor
        let difference = self.carry(rt, self.order.wrapping_sub(1), q, p);
        match problem.inside {
            Some(inside) if has(&problem.subgroup(inside.subgroup), difference) => inside.target,
            _ => problem.lambda,
        }
    }

    // Of each block all translates by the shifts; of a short one each once.
    fn development(&self, rt: &impl Abort, alloc: Global, problem: &Problem) -> Vec<u32> {
        let shifts = problem.subgroup(problem.shift);
        let mut blocks = Vec::new(alloc);
        for member in &problem.family {
            let mut own: Vec<u32> = Vec::new(alloc);
            for h in 0..self.order {
                let translate = self.translate(rt, h, set_of(&member.block));
                let repeated = member.kind == Kind::Short && own.contains(&translate);
                if has(&shifts, h) && !repeated {
                    own.push(translate).expect(rt, "memory");
                }
            }
            for block in &own {
                blocks.push(*block).expect(rt, "memory");
            }
        }
        blocks
    }

    // Whether no shift carries these two points to an earlier pair.
    fn is_first(&self, rt: &impl Abort, problem: &Problem, pair: u32) -> bool {
        let shifts = problem.subgroup(problem.shift);
        for h in 0..self.order {
            let carried = self.translate(rt, h, pair);
            if has(&shifts, h) && carried.reverse_bits() > pair.reverse_bits() {
                return false;
            }
        }
        true
    }

    // Appends the token of a point.
    fn push_point(&self, rt: &impl Abort, alloc: Global, text: &mut String, point: u32) {
        if point >= self.order {
            let number = point.wrapping_sub(self.order).wrapping_add(1);
            let token = format!(in alloc; " inf{number}").expect(rt, "memory");
            text.push_str(token.as_str()).expect(rt, "memory");
            return;
        }
        let mut weight = self.order;
        let mut rest = point;
        let mut between = " ";
        for factor in &self.factors {
            assert!(rt; *factor > 0);
            weight /= *factor;
            assert!(rt; weight > 0);
            let residue = rest / weight;
            rest %= weight;
            let token = format!(in alloc; "{between}{residue}").expect(rt, "memory");
            text.push_str(token.as_str()).expect(rt, "memory");
            between = ",";
        }
    }

    // Appends the line of a block.
    fn push_block(
        &self,
        rt: &impl Abort,
        alloc: Global,
        text: &mut String,
        is_short: bool,
        set: u32,
    ) {
        text.push_str(if is_short { "short" } else { "base" })
            .expect(rt, "memory");
        for point in 0..self.count {
            if set & single(point) != 0 {
                self.push_point(rt, alloc, text, point);
            }
        }
        text.push_str("\n").expect(rt, "memory");
    }

    // Two to six points: up to three drawn ones, and where `fold` is an element their sums with it.
    fn drawn(&self, rt: &impl Abort, draws: &mut Draws, fold: u32) -> u32 {
        for _ in 0..1000 {
            let mut set = single(draws.below(rt, self.count));
            for _ in 0..draws.below(rt, 3) {
                set |= single(draws.below(rt, self.count));
            }
            set |= self.translate(rt, fold, set);
            if set.count_ones() >= 2 {
                return set;
            }
        }
        3
    }
}

// Numbers that look drawn by lot, the same in each run.
#[derive(Drop)]
struct Draws {
    state: u32,
}

impl Draws {
    fn below(&mut self, rt: &impl Abort, bound: u32) -> u32 {
        assert!(rt; bound > 0);
        self.state = self.state.wrapping_mul(1664525).wrapping_add(1013904223);
        (self.state >> 16) % bound
    }
}

// A source with some blocks after this head.
fn drawn_source(rt: &impl Abort, alloc: Global, head: &str, draws: &mut Draws) -> String
    requires { length head.now ≤ 2 ^ 32 }
{
    let bare = parse(alloc, head.as_bytes()).expect(rt, "a source");
    let points = PlainPoints::new(rt, alloc, &bare);
    let mut text = String::from_str(alloc, head).expect(rt, "memory");
    for _ in 0..draws.below(rt, 8) {
        let fold = draws.below(rt, points.order);
        let set = points.drawn(rt, draws, fold);
        let is_short = draws.below(rt, 2) == 1;
        points.push_block(rt, alloc, &mut text, is_short, set);
    }
    text
}

// The rows of the table are the pairs that no shift carries to an earlier one, with the counts over the plain development and
// the targets; the development is the plain one; and the verdict is that of the first row that differs.
fn compare(rt: &impl Abort, alloc: Global, problem: &Problem) {
    let points = PlainPoints::new(rt, alloc, problem);
    let blocks = points.development(rt, alloc, problem);
    let mut develop = DevelopUnder::new(problem);
    for block in &blocks {
        let developed = develop.next().expect(rt, "a block");
        assert!(rt; set_of(&developed) == *block);
    }
    assert!(rt; develop.next().is_none());
    let table = pair_table(alloc, problem).expect(rt, "memory");
    let mut expected = MixedVerdict::Accepted {
        blocks: blocks.len() as u64,
    };
    let mut place: usize = 0;
    let mut is_balanced = true;
    for p in 0..points.count {
        for q in p + 1..points.count {
            let pair = single(p) | single(q);
            let found = blocks.iter().filter(|block| **block & pair == pair).count() as u64;
            let stated = u64::from(points.target(rt, problem, p, q));
            if points.is_first(rt, problem, pair) {
                assert!(rt; place < table.len());
                let (low, high) = table.pair(place);
                assert!(rt; u32::from(low.0) == p && u32::from(high.0) == q);
                assert!(rt; table.found(place) == found);
                assert!(rt; table.stated(place) == stated);
                if is_balanced && found != stated {
                    expected = MixedVerdict::Refused {
                        place,
                        found,
                        stated,
                    };
                }
                place = place.wrapping_add(1);
            }
            is_balanced = is_balanced && found == stated;
        }
    }
    assert!(rt; place == table.len());
    assert!(rt; verify_under(alloc, problem).expect(rt, "memory") == expected);
}

// Each head with ten families.
#[test]
fn tables_are_plain_counts(rt: HostRuntime) {
    let alloc = rt.alloc();
    let mut draws = Draws { state: 1 };
    for head in HEADS {
        assert!(rt; head.len() <= 1000);
        for _ in 0..10 {
            let source = drawn_source(&rt, alloc, head, &mut draws);
            assert!(rt; source.len() <= 10000);
            let problem = parse(alloc, source.as_bytes()).expect(&rt, "a source");
            compare(&rt, alloc, &problem);
        }
    }
}
