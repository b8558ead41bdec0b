//! What the negative specs of a group exclude. `gix_refspec_plan` asks with it for the spec that keeps a ref, and `gix_refspec_lint`
//! for the one that excludes a source.

ghost use Rattle.std.specs.Prelude.{◌≡◌, ◌⊎◌, ◌↔◌, ℕ, List, map, IfOk, OnOk, IsTrue, MatchOption};
ghost use Rattle.gix_refspec_text.specs.Views.Spec.{reading_of};
ghost use Rattle.gix_refspec_match.specs.Matching.Mappings.{IsExcludedBy};
ghost use Rattle.gix_refspec_match.specs.Private.Kept.{AreExclusionsAt, AreExclusionsOf, ExcludeName, ExcludeNameAt};

use crate::index::Key;
use crate::needle::word_between;
use gix_refspec_text::RefSpecRef;
use gix_refspec_text::side::split_at_first_star;
use std::alloc::{AllocError, Global};
use std::collections::HashMap;

// A pattern, by the texts before and after its star, and the index of its spec.
#[derive(Clone, Copy)]
struct Pattern<'a> {
    before: &'a [u8],
    after: &'a [u8],
    spec_index: usize,
}

/// What the negative specs of a group exclude.
// Each mapping is looked up in it, so its names are a map, to the indexes of specs. They are the client's: a server chooses no
// key of it.
#[derive(Drop)]
pub struct Exclusions<'a> {
    names: HashMap<Key<'a>, usize>,
    patterns: Vec<Pattern<'a>>,
}

impl<'a> Exclusions<'a> {
    /// What the negative specs among these exclude. Fails if memory runs out.
    pub fn of(alloc: Global, specs: &[RefSpecRef<'a>]) -> Result<Exclusions<'a>, AllocError>
        ensures names { IfOk result (AreExclusionsOf (map reading_of specs.now)) }
        ensures indexes { IfOk result (AreExclusionsAt (map reading_of specs.now)) }
    {
        let mut exclusions = Exclusions {
            names: HashMap::new(alloc),
            patterns: Vec::new(alloc),
        };
        for (index, spec) in specs.iter().enumerate() {
            exclusions.add(*spec, index)?;
        }
        Ok(exclusions)
    }

    // Adds what the spec at an index excludes, where it is negative.
    fn add(&mut self, spec: RefSpecRef<'a>, spec_index: usize) -> Result<(), AllocError>
        ensures names { OnOk result ((n : List ℕ) →
            ExcludeName self.new n ↔ (ExcludeName self.old n ⊎ IsExcludedBy n (reading_of spec.entry))) }
        ensures indexes { OnOk result ((n : List ℕ) (k : ℕ) → ExcludeNameAt self.new n k →
            ExcludeNameAt self.old n k ⊎ ((k ≡ spec_index) × IsExcludedBy n (reading_of spec.entry))) }
    {
        if !spec.is_negative() {
            return Ok(());
        }
        let Some(source) = spec.source() else {
            return Ok(());
        };
        match split_at_first_star(source.as_bytes()) {
            None => {
                let name = source.as_bytes();
                self.names.insert(Key { name }, spec_index)?;
            }
            Some((before, after)) => self.patterns.push(Pattern {
                before,
                after,
                spec_index,
            })?,
        }
        Ok(())
    }

    /// The index of a negative spec that excludes a name. `None` if none does.
    // The name isn't hashed where there are no names to look it up among. This is inlined, since it is called for each
    // mapping, and mostly nothing is excluded.
    #[inline(always)]
    pub fn spec_of(&self, name: &[u8]) -> Option<usize>
        ensures { MatchOption result (¬ (ExcludeName self.now name.now)) (ExcludeNameAt self.now name.now) }
    {
        if !self.names.is_empty() {
            if let Some(index) = self.names.get(&Key { name }) {
                return Some(*index);
            }
        }
        for pattern in &self.patterns {
            if word_between(pattern.before, pattern.after, name).is_some() {
                return Some(pattern.spec_index);
            }
        }
        None
    }
}
