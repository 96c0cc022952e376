// Copies of a problem.
ghost use Rattle.std.specs.Prelude.{◌≡◌, ◌≤◌, ◌<◌, ◌+◌, ℕ, length, map, take, All, IfOk, OnOk};
ghost use Rattle.std.specs.List.{AllPairs};
ghost use Rattle.df_lang.specs.Problems.{Named, DifferInName};
ghost use Rattle.df_lang.specs.Stored.{named};

use crate::OutOfMemory;
use crate::names::name;
use crate::pieces::Name;
use crate::problem::Problem;
use df_group::{Subgroup, copied_items};
use indexmap::IndexMap;
use std::alloc::Global;

impl Problem {
    /// The same problem once more. The only error is out of memory.
    pub fn copied(&self, alloc: Global) -> Result<Problem, OutOfMemory>
        ensures { IfOk result (λ copy. copy ≡ self.now) }
    {
        Ok(Problem {
            version: self.version,
            shape: self.shape.copied(),
            fixed: self.fixed,
            names: copied_names(alloc, &self.names)?,
            shift: self.shift,
            mults: copied_items(self.mults.as_slice()),
            sizes: copied_items(self.sizes.as_slice()),
            lambda: self.lambda,
            inside: self.inside,
            hole: self.hole,
            family: Vec::from_slice(alloc, &self.family)?,
            required: Vec::from_slice(alloc, &self.required)?,
            forbidden: Vec::from_slice(alloc, &self.forbidden)?,
        })
    }
}

fn copied_names(
    alloc: Global,
    names: &IndexMap<Name, Subgroup>,
) -> Result<IndexMap<Name, Subgroup>, OutOfMemory>
    requires apart { AllPairs DifferInName (map named names.now.entries) }
    requires short { All (λ (n : Named). length n.0 ≤ 16) (map named names.now.entries) }
    ensures { IfOk result (λ copy. map named copy.entries ≡ map named names.now.entries) }
{
    let mut copy = IndexMap::new(alloc);
    for place in 0..names.len() {
        copy_entry(&mut copy, names, place)?;
    }
    Ok(copy)
}

// Puts the entry of this place into a table of those before it.
fn copy_entry(
    copy: &mut IndexMap<Name, Subgroup>,
    names: &IndexMap<Name, Subgroup>,
    place: usize,
) -> Result<(), OutOfMemory>
    requires place { place < length names.now.entries }
    requires first { map named copy.old.entries ≡ take place (map named names.now.entries) }
    requires apart { AllPairs DifferInName (map named names.now.entries) }
    requires short { All (λ (n : Named). length n.0 ≤ 16) (map named names.now.entries) }
    ensures { OnOk result (map named copy.new.entries ≡ take (place + 1) (map named names.now.entries)) }
{
    let Some((key, subgroup)) = names.get_index(place) else {
        unreachable!()
    };
    copy.insert(name(key.as_slice()), *subgroup)?;
    Ok(())
}
