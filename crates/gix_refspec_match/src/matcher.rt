//! The positive specs of a group, as they are matched: which side matches items, and what the other side is.
//! The kinds of sides are found here, once.

ghost use Rattle.std.specs.Prelude.{◌≡◌, [], false, map, option_map, unwrap_or, MatchOption, IfOk};
ghost use Rattle.bstr.specs.BStr.{bstr_bytes};
ghost use Rattle.gix_refspec_text.specs.Texts.Name.{HasSeveralStars};
ghost use Rattle.gix_refspec_text.specs.Views.Spec.{reading_of};
ghost use Rattle.gix_refspec_match.specs.Private.Matchers.{AreNamed, AreMatchersOf, AreObjectsOf, HaveSides, HasNoIdNeedle, HasNoSides};
ghost use Rattle.gix_refspec_match.specs.Private.Needles.{HasSideKind};

use crate::duplicates::{Element, duplicates, is_flagged};
use bstr::BStr;
use gix_refspec_text::RefSpecRef;
use gix_refspec_text::oid::ObjectId;
use gix_refspec_text::side::{SideKind, kind_of};
use std::alloc::{AllocError, Global};
use std::cmp::Ordering;
use std::hash::{FoldHasher, Hasher};

/// Which of its candidates a partial name takes.
#[derive(Clone, Copy)]
pub enum Candidates {
    /// The first that some item has.
    First,
    /// Each that an item has.
    All,
}

/// A spec that matches items.
#[derive(Clone, Copy)]
pub(crate) struct Matcher<'spec> {
    /// The index of the spec.
    pub(crate) spec_index: usize,
    /// The side that matches items.
    pub(crate) needle: SideKind<'spec>,
    /// The other side, which becomes a name where an item is matched.
    pub(crate) other: Option<SideKind<'spec>>,
}

/// A spec that asks for an object by its id. It matches no item.
#[derive(Clone, Copy)]
pub(crate) struct ObjectSpec<'spec> {
    /// The index of the spec.
    pub(crate) spec_index: usize,
    /// The id.
    pub(crate) id: ObjectId,
    /// The destination.
    pub(crate) destination: Option<SideKind<'spec>>,
}

/// The matchers of a group, in the order of the specs. Of specs with equal sides the first alone has one.
#[derive(Drop)]
pub(crate) struct Matchers<'spec> {
    /// Which of its candidates a needle takes that is a partial name.
    pub(crate) candidates: Candidates,
    /// The matchers.
    pub(crate) list: Vec<Matcher<'spec>>,
}

impl<'spec> Matchers<'spec> {
    ghost use Rattle.gix_refspec_match.specs.declared.matcher.Candidates.TheVariants.{First, All};

    /// From left to right sources match items, and destinations are filled. A source that is an id asks for
    /// an object.
    pub(crate) fn forward(
        alloc: Global,
        specs: &[RefSpecRef<'spec>],
    ) -> Result<(Matchers<'spec>, Vec<ObjectSpec<'spec>>), AllocError>
        ensures matchers { IfOk result (λ found. AreMatchersOf First (map reading_of specs.now) found.0) }
        ensures objects { IfOk result (λ found. AreObjectsOf (map reading_of specs.now) found.1.items) }
    {
        let equal = duplicates(alloc, specs)?;
        let mut list = Vec::new(alloc);
        let mut objects = Vec::new(alloc);
        for (spec_index, spec) in specs.iter().enumerate() {
            let Some(sides) = sides_of(spec) else {
                continue;
            };
            match sides.source {
                SideKind::Object(id) => objects.push(ObjectSpec {
                    spec_index,
                    id,
                    destination: sides.destination,
                })?,
                needle => {
                    if !is_flagged(equal.as_slice(), spec_index) {
                        list.push(Matcher {
                            spec_index,
                            needle,
                            other: sides.destination,
                        })?;
                    }
                }
            }
        }
        list.shrink_to_fit();
        let candidates = Candidates::First;
        Ok((Matchers { candidates, list }, objects))
    }

    /// From right to left destinations match items, and sources are filled.
    pub(crate) fn backward(
        alloc: Global,
        specs: &[RefSpecRef<'spec>],
    ) -> Result<Matchers<'spec>, AllocError>
        ensures { IfOk result (AreMatchersOf All (map reading_of specs.now)) }
    {
        let equal = duplicates(alloc, specs)?;
        let mut list = Vec::new(alloc);
        for (spec_index, spec) in specs.iter().enumerate() {
            let Some(sides) = sides_of(spec) else {
                continue;
            };
            let Some(needle) = sides.destination else {
                continue;
            };
            if !is_flagged(equal.as_slice(), spec_index) {
                list.push(Matcher {
                    spec_index,
                    needle,
                    other: Some(sides.source),
                })?;
            }
        }
        list.shrink_to_fit();
        let candidates = Candidates::All;
        Ok(Matchers { candidates, list })
    }

    /// The positive specs whose source is a full or partial name. None of them is left out, whatever the others are.
    pub(crate) fn of_names(
        alloc: Global,
        specs: &[RefSpecRef<'spec>],
    ) -> Result<Matchers<'spec>, AllocError>
        ensures { IfOk result (λ named. AreNamed (map reading_of specs.now) named.list.items) }
    {
        let mut list = Vec::new(alloc);
        for (spec_index, spec) in specs.iter().enumerate() {
            let Some(sides) = sides_of(spec) else {
                continue;
            };
            if let SideKind::FullName(_) | SideKind::Partial(_) = sides.source {
                list.push(Matcher {
                    spec_index,
                    needle: sides.source,
                    other: None,
                })?;
            }
        }
        let candidates = Candidates::All;
        Ok(Matchers { candidates, list })
    }

    /// Whether some needle is an id.
    pub(crate) fn has_ids(&self) -> bool
        ensures { result ≡ false → HasNoIdNeedle self.now }
    {
        for matcher in &self.list {
            if let SideKind::Object(_) = matcher.needle {
                return true;
            }
        }
        false
    }
}

// The sides of a positive spec that has a source.
#[derive(Clone, Copy)]
pub(crate) struct Sides<'spec> {
    pub(crate) source: SideKind<'spec>,
    pub(crate) destination: Option<SideKind<'spec>>,
}

pub(crate) fn sides_of<'spec>(spec: &RefSpecRef<'spec>) -> Option<Sides<'spec>>
    ensures { MatchOption result (HasNoSides (reading_of spec.now)) (HaveSides (reading_of spec.now)) }
{
    if spec.is_negative() {
        return None;
    }
    let source = kind_of(spec.source()?.as_bytes());
    let destination = match spec.destination() {
        None => None,
        Some(side) => Some(kind_of(side.as_bytes())),
    };
    Some(Sides {
        source,
        destination,
    })
}

// Specs are compared by their sides, whatever their force, and negative ones only with one another.
impl<'spec> Element for RefSpecRef<'spec> {
    ghost use Rattle.std.specs.Cmp.{on_total};
    ghost use Rattle.gix_refspec_match.specs.Private.EqualSpecs.{sides_alike, sides_hash, sides_order, sides_total};

    ghost order = { λ x y. sides_order (reading_of x) (reading_of y) };

    ghost hash = { λ seed x. sides_hash seed (reading_of x) };

    ghost total = { on_total reading_of sides_total };

    ghost alike = { λ seed x y same. sides_alike seed (reading_of x) (reading_of y) same };

    fn hash_by(&self, seed: FoldHasher) -> u64 {
        let mut state = seed;
        state.write(bytes_of(self.source()));
        state.write(bytes_of(self.destination()));
        state.finish()
    }

    fn compare(&self, other: &Self) -> Ordering {
        let source = self.source().cmp(&other.source());
        let sides = source.then(self.destination().cmp(&other.destination()));
        sides.then(self.is_negative().cmp(&other.is_negative()))
    }
}

// The bytes of a side, and none for one that is missing.
fn bytes_of(side: Option<BStr<'_>>) -> &[u8]
    ensures { result.now ≡ unwrap_or (option_map bstr_bytes side.entry) [] }
{
    side.map_or(b"".as_slice(), |side| side.as_bytes())
}
