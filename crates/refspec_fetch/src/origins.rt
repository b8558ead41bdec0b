//! The texts of the specs of a plan, and where they come from.

ghost use Rattle.std.specs.Prelude.{◌≡◌, ◌↔◌, map, IfOk, IsTrue};
ghost use Rattle.bstr.specs.BStr.{bstr_bytes};
ghost use Rattle.bstr.specs.Owned.{bstring_bytes};
ghost use Rattle.gix_refspec_plan.specs.Views.Plan.{wish_of};
ghost use Rattle.refspec_fetch.specs.Origins.{AreTextsOf, IsAlone, note_of, origin_name, pruning_texts, text_of};

use bstr::{BStr, BString};
use gix_refspec_plan::{Origin, Wish};
use refspec_io::canonical::{canonical_texts, text_at};
use std::alloc::{AllocError, Global};

/// The texts of the specs of a plan. Those that the configuration adds without a spec are fixed.
#[derive(Debug, Drop)]
pub struct SpecTexts {
    /// The canonical texts of the given specs.
    pub given: Vec<BString>,
    /// The canonical texts of the configured specs.
    pub configured: Vec<BString>,
    /// What the current branch merges.
    pub merges: Vec<BString>,
    /// Whether a given spec is the only one.
    pub is_alone: bool,
}

impl SpecTexts {
    /// The texts of the specs of a wish.
    pub fn of(alloc: Global, wish: &Wish<'_, '_>) -> Result<SpecTexts, AllocError>
        ensures { IfOk result (AreTextsOf (wish_of wish.now)) }
    {
        Ok(SpecTexts {
            given: canonical_texts(alloc, wish.given)?,
            configured: canonical_texts(alloc, wish.configured)?,
            merges: copied(alloc, wish.merges)?,
            is_alone: is_alone(wish),
        })
    }

    /// The texts of the specs by which a fetch prunes: the given ones, or without any the configured ones.
    pub fn pruning(&self) -> &[BString]
        ensures { map bstring_bytes result.now ≡ pruning_texts self.now }
    {
        let given = self.given.as_slice();
        if given.is_empty() {
            self.configured.as_slice()
        } else {
            given
        }
    }

    /// The text of the spec from there; empty if there is none.
    pub fn text_of(&self, origin: Origin) -> &[u8]
        ensures { result.now ≡ text_of self.now origin }
    {
        match origin {
            Origin::Given(index) => text_at(self.given.as_slice(), index),
            Origin::Configured(index) => text_at(self.configured.as_slice(), index),
            Origin::Merge(index) => text_at(self.merges.as_slice(), index),
            Origin::Default => b"HEAD",
            Origin::AllTags => b"refs/tags/*:refs/tags/*",
        }
    }
}

// Copies of texts, in order.
fn copied(alloc: Global, texts: &[BStr<'_>]) -> Result<Vec<BString>, AllocError>
    ensures { IfOk result (λ copies. map bstring_bytes copies.items ≡ map bstr_bytes texts.now) }
{
    let mut copies = Vec::with_capacity(alloc, texts.len())?;
    for text in texts {
        copies.push(BString::from_slice(alloc, *text)?)?;
    }
    Ok(copies)
}

// Whether a wish has a single spec, which is given. What the current branch merges is nothing then.
fn is_alone(wish: &Wish<'_, '_>) -> bool
    ensures { IsTrue result ↔ IsAlone (wish_of wish.now) }
{
    match (wish.given, wish.configured) {
        ([_], []) => !wish.tags,
        _ => false,
    }
}

/// The name of an origin, for the member `origin` and for records.
pub fn origin_name(origin: Origin) -> &'static str
    ensures { result.now ≡ origin_name origin }
{
    match origin {
        Origin::Given(_) => "given",
        Origin::Configured(_) => "configured",
        Origin::Merge(_) => "merge",
        Origin::Default => "default",
        Origin::AllTags => "tags",
    }
}

/// What lines say behind the text of a spec that isn't given.
pub fn note_of(origin: Origin) -> &'static str
    ensures { result.now ≡ note_of origin }
{
    match origin {
        Origin::Given(_) => "",
        Origin::Configured(_) => " (configured)",
        Origin::Merge(_) => " (merge)",
        Origin::Default => " (default)",
        Origin::AllTags => " (tags)",
    }
}
