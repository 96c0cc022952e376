// A problem as plain numbers, and its designs by going over families of blocks: counts of pairs and
// single maps x -> m x + h, worked out here by remainders. A set of points is the number whose bits
// are its points; a family says for each block whether it is a member.
use df_group::{Elem, Subgroup};
use df_lang::{Problem, Which};
use df_subsets::Block;
use std::alloc::Global;
use std::process::Abort;

/// The set of one point.
fn single(point: u32) -> u32 {
    1u32.wrapping_shl(point)
}

/// The set of a block's points.
pub(crate) fn set_of(block: &Block) -> u32 {
    let mut set = 0;
    for point in &block.points() {
        set |= single(u32::from(point.0));
    }
    set
}

/// The set of listed points.
pub(crate) fn set_of_points(points: &[u32]) -> u32 {
    let mut set = 0;
    for point in points {
        set |= single(*point);
    }
    set
}

/// The points of a problem: elements of a product of cyclic groups, and then fixed points.
#[derive(Drop)]
struct PlainPoints {
    factors: Vec<u32>,
    order: u32,
    count: u32,
}

impl PlainPoints {
    fn new(rt: &impl Abort, alloc: Global, problem: &Problem) -> PlainPoints {
        let mut factors = Vec::new(alloc);
        let mut order: u32 = 1;
        for factor in problem.shape.factors() {
            factors.push(u32::from(*factor)).expect(rt, "memory");
            order = order.wrapping_mul(u32::from(*factor));
        }
        let count = order.wrapping_add(u32::from(problem.fixed));
        assert!(rt; count <= 16);
        PlainPoints {
            factors,
            order,
            count,
        }
    }

    // m x + h of an element x, residue by residue from the last; a fixed point stays.
    fn carry(&self, rt: &impl Abort, m: u32, h: u32, x: u32) -> u32 {
        if x >= self.order {
            return x;
        }
        let (mut x, mut h) = (x, h);
        let (mut image, mut weight) = (0u32, 1u32);
        for place in (0..self.factors.len()).rev() {
            let factor = self.factors[place];
            assert!(rt; factor > 0);
            let residue = m.wrapping_mul(x % factor).wrapping_add(h % factor) % factor;
            image = image.wrapping_add(weight.wrapping_mul(residue));
            weight = weight.wrapping_mul(factor);
            x /= factor;
            h /= factor;
        }
        image
    }

    // The set of the points' images.
    fn image(&self, rt: &impl Abort, m: u32, h: u32, set: u32) -> u32 {
        let mut image = 0;
        for point in 0..self.count {
            if set & single(point) != 0 {
                image |= single(self.carry(rt, m, h, point));
            }
        }
        image
    }

    // In how many blocks two points are to lie, of which p is the lower one.
    fn target(&self, rt: &impl Abort, problem: &Problem, p: u32, q: u32) -> u32 {
        if p >= self.order {
            return problem.hole;
        }
        if q >= self.order {
            return problem.lambda;
        }
        // q - p: the order is a multiple of each factor
        let difference = self.carry(rt, self.order.wrapping_sub(1), q, p);
        match problem.inside {
            Some(inside) if has(&problem.subgroup(inside.subgroup), difference) => inside.target,
            _ => problem.lambda,
        }
    }
}

// Whether the element of this number is a member.
fn has(subgroup: &Subgroup, number: u32) -> bool {
    match u8::try_from(number) {
        Ok(number) => subgroup.has(Elem(number)),
        Err(_) => false,
    }
}

// The subgroup of the translations.
fn shift_of(problem: &Problem) -> Subgroup {
    problem.subgroup(problem.shift)
}

// Appends the blocks that have these points and others from `from` on, of which there are `left`,
// in order: with the first of these others, a prefix before its extensions, and then without it.
fn push_longer(
    rt: &impl Abort,
    sizes: &[u8],
    block: u32,
    from: u32,
    left: u32,
    blocks: &mut Vec<u32>,
) {
    if left > 0 {
        let longer = block | single(from);
        if sizes
            .iter()
            .any(|size| u32::from(*size) == longer.count_ones())
        {
            blocks.push(longer).expect(rt, "memory");
        }
        let next = from.wrapping_add(1);
        push_longer(rt, sizes, longer, next, left - 1, blocks);
        push_longer(rt, sizes, block, next, left - 1, blocks);
    }
}

/// Two points: the places of the blocks that hold both, and in how many blocks they are to lie.
#[derive(Drop)]
struct Pair {
    holders: Vec<usize>,
    target: u32,
}

impl Pair {
    // How many members of a family hold both points.
    fn cover(&self, family: &[bool]) -> u32 {
        let mut cover: u32 = 0;
        for place in &self.holders {
            if family.get(*place).copied().unwrap_or(false) {
                cover = cover.wrapping_add(1);
            }
        }
        cover
    }

    // Whether they can still be covered as often as they are to be.
    fn is_open(&self, decided: &[Option<bool>]) -> bool {
        let (mut taken, mut open) = (0u32, 0u32);
        for place in &self.holders {
            match decided.get(*place) {
                Some(Some(true)) => taken = taken.wrapping_add(1),
                Some(None) => open = open.wrapping_add(1),
                _ => {}
            }
        }
        taken <= self.target && self.target <= taken.wrapping_add(open)
    }
}

/// A problem: its blocks, and what its designs are to keep.
#[derive(Drop)]
pub(crate) struct PlainProblem {
    /// All blocks of the stated sizes, in order.
    pub(crate) blocks: Vec<u32>,
    // for each prescribed map the places of the blocks' images
    images: Vec<Vec<usize>>,
    pairs: Vec<Pair>,
    required: Vec<u32>,
    forbidden: Vec<u32>,
}

impl PlainProblem {
    pub(crate) fn new(rt: &impl Abort, alloc: Global, problem: &Problem) -> PlainProblem {
        let points = PlainPoints::new(rt, alloc, problem);
        let mut blocks = Vec::new(alloc);
        push_longer(rt, &problem.sizes, 0, 0, points.count, &mut blocks);
        PlainProblem {
            images: images_of(rt, alloc, problem, &points, &blocks),
            pairs: pairs_of(rt, alloc, problem, &points, &blocks),
            required: sets_of(rt, alloc, &problem.required),
            forbidden: sets_of(rt, alloc, &problem.forbidden),
            blocks,
        }
    }

    // Whether the image of each member under each prescribed map is a member.
    fn is_invariant(&self, family: &[bool]) -> bool {
        for images in &self.images {
            for (image, member) in images.iter().zip(family.iter()) {
                if *member && !family.get(*image).copied().unwrap_or(false) {
                    return false;
                }
            }
        }
        true
    }

    fn has(&self, family: &[bool], block: u32) -> bool {
        for (other, member) in self.blocks.iter().zip(family.iter()) {
            if *member && *other == block {
                return true;
            }
        }
        false
    }

    /// Whether a family is a design that the problem asks for.
    pub(crate) fn is_design(&self, family: &[bool]) -> bool {
        self.pairs
            .iter()
            .all(|pair| pair.cover(family) == pair.target)
            && self.is_invariant(family)
            && self.required.iter().all(|block| self.has(family, *block))
            && !self.forbidden.iter().any(|block| self.has(family, *block))
    }

    /// The designs among all families, those with the first block first. There are at most 14
    /// blocks.
    pub(crate) fn among_all(&self, rt: &impl Abort, alloc: Global) -> Vec<Vec<bool>> {
        let mut designs = Vec::new(alloc);
        let count = self.blocks.len();
        assert!(rt; count <= 14);
        for number in (0..1u32 << count).rev() {
            let mut family = Vec::new(alloc);
            for place in (0..count).rev() {
                family.push((number >> place) & 1 == 1).expect(rt, "memory");
            }
            if self.is_design(&family) {
                designs.push(family).expect(rt, "memory");
            }
        }
        designs
    }

    /// For each block the place of the first block of its orbit: places that a map joins get the
    /// lower one's, until nothing changes.
    pub(crate) fn orbits(&self, rt: &impl Abort, alloc: Global) -> Vec<usize> {
        let mut orbits = Vec::new(alloc);
        for place in 0..self.blocks.len() {
            orbits.push(place).expect(rt, "memory");
        }
        for _ in 0..self.blocks.len() {
            let mut changed = false;
            for images in &self.images {
                for (place, image) in images.iter().enumerate() {
                    changed |= join(&mut orbits, place, *image);
                }
            }
            if !changed {
                break;
            }
        }
        orbits
    }

    // Whether the pairs can still be covered as often as they are to be.
    fn is_open(&self, decided: &[Option<bool>]) -> bool {
        self.pairs.iter().all(|pair| pair.is_open(decided))
    }

    // Appends the designs among the unions of orbits that have these blocks decided: of the first
    // block that isn't, first those with it. At most `left` orbits aren't decided.
    fn push_unions(
        &self,
        rt: &impl Abort,
        alloc: Global,
        orbits: &[usize],
        decided: &[Option<bool>],
        left: usize,
        designs: &mut Vec<Vec<bool>>,
    ) {
        if !self.is_open(decided) {
            return;
        }
        match decided.iter().position(|member| member.is_none()) {
            Some(first) if left > 0 => {
                let with = decide(rt, alloc, orbits, decided, first, true);
                self.push_unions(rt, alloc, orbits, &with, left - 1, designs);
                let without = decide(rt, alloc, orbits, decided, first, false);
                self.push_unions(rt, alloc, orbits, &without, left - 1, designs);
            }
            Some(_) => assert!(rt; false, "more orbits than blocks"),
            None => {
                let family = members_of(rt, alloc, decided);
                if self.is_design(&family) {
                    designs.push(family).expect(rt, "memory");
                }
            }
        }
    }

    /// The designs among the families that no prescribed map leads out of, those with the first
    /// block first.
    pub(crate) fn among_unions(
        &self,
        rt: &impl Abort,
        alloc: Global,
        orbits: &[usize],
    ) -> Vec<Vec<bool>> {
        let mut decided = Vec::new(alloc);
        for _ in 0..self.blocks.len() {
            decided.push(None).expect(rt, "memory");
        }
        let mut designs = Vec::new(alloc);
        let left = self.blocks.len();
        self.push_unions(rt, alloc, orbits, &decided, left, &mut designs);
        designs
    }
}

// Gives both places the lower number of the two: whether they had different ones.
fn join(orbits: &mut Vec<usize>, place: usize, image: usize) -> bool {
    let (Some(one), Some(other)) = (orbits.get(place).copied(), orbits.get(image).copied()) else {
        return false;
    };
    for joined in [place, image] {
        if let Some(orbit) = orbits.get_mut(joined) {
            *orbit = one.min(other);
        }
    }
    one != other
}

// Decides the blocks of one orbit.
fn decide(
    rt: &impl Abort,
    alloc: Global,
    orbits: &[usize],
    decided: &[Option<bool>],
    first: usize,
    yes: bool,
) -> Vec<Option<bool>> {
    let mut more = Vec::new(alloc);
    for (orbit, member) in orbits.iter().zip(decided.iter()) {
        let member = if *orbit == first { Some(yes) } else { *member };
        more.push(member).expect(rt, "memory");
    }
    more
}

// A family all of whose blocks are decided.
fn members_of(rt: &impl Abort, alloc: Global, decided: &[Option<bool>]) -> Vec<bool> {
    let mut family = Vec::new(alloc);
    for member in decided {
        family.push(*member == Some(true)).expect(rt, "memory");
    }
    family
}

fn sets_of(rt: &impl Abort, alloc: Global, blocks: &[Block]) -> Vec<u32> {
    let mut sets = Vec::new(alloc);
    for block in blocks {
        sets.push(set_of(block)).expect(rt, "memory");
    }
    sets
}

// The places of the blocks that hold these points.
fn holders_of(rt: &impl Abort, alloc: Global, blocks: &[u32], points: u32) -> Vec<usize> {
    let mut holders = Vec::new(alloc);
    for (place, block) in blocks.iter().enumerate() {
        if *block & points == points {
            holders.push(place).expect(rt, "memory");
        }
    }
    holders
}

// Each two points with their target.
fn pairs_of(
    rt: &impl Abort,
    alloc: Global,
    problem: &Problem,
    points: &PlainPoints,
    blocks: &[u32],
) -> Vec<Pair> {
    let mut pairs = Vec::new(alloc);
    for q in 0..points.count {
        for p in 0..q {
            let holders = holders_of(rt, alloc, blocks, single(p) | single(q));
            let target = points.target(rt, problem, p, q);
            pairs.push(Pair { holders, target }).expect(rt, "memory");
        }
    }
    pairs
}

// The places of the blocks' images under one map.
fn places_of(
    rt: &impl Abort,
    alloc: Global,
    points: &PlainPoints,
    m: u32,
    h: u32,
    blocks: &[u32],
) -> Vec<usize> {
    let mut places = Vec::new(alloc);
    for block in blocks {
        let image = points.image(rt, m, h, *block);
        let place = blocks
            .iter()
            .position(|other| *other == image)
            .expect(rt, "a block");
        places.push(place).expect(rt, "memory");
    }
    places
}

// The places of the blocks' images under the translations and under the multipliers.
fn images_of(
    rt: &impl Abort,
    alloc: Global,
    problem: &Problem,
    points: &PlainPoints,
    blocks: &[u32],
) -> Vec<Vec<usize>> {
    let mut images = Vec::new(alloc);
    let shift = shift_of(problem);
    for h in 0..points.order {
        if has(&shift, h) {
            let places = places_of(rt, alloc, points, 1, h, blocks);
            images.push(places).expect(rt, "memory");
        }
    }
    for m in &problem.mults {
        let places = places_of(rt, alloc, points, u32::from(*m), 0, blocks);
        images.push(places).expect(rt, "memory");
    }
    images
}
