//! What each spec does with a ref of a remote.

ghost use Rattle.std.specs.Prelude.{◌≡◌, ◌≢◌, IfOk, MatchBool, None};
ghost use Rattle.refspec_commands.specs.declared.fates.question.Known.TheVariants as known;
ghost use Rattle.refspec_commands.specs.Fates.{IsAnswer, IsFetched, IsUnfetched, WritesNone, WritesSome};

use crate::fates::question::{Known, Question};
use crate::fates::stops::{Stop, stop_of};
use bstr::{BStr, BString};
use gix_refspec_why::{Effect, Effects, Fate, why};
use refspec_io::canonical::canonical_texts;
use std::alloc::{AllocError, Global};

/// The answer to a question.
#[derive(Debug, Drop)]
pub struct Answer {
    /// What the specs do with the ref.
    pub effects: Effects,
    /// The canonical texts of the specs, in order.
    pub texts: Vec<BString>,
    /// What stops the whole fetch. `None` if nothing does, as far as is known.
    pub stop: Option<Stop>,
}

impl Answer {
    /// Whether the ref is fetched: some spec stores it, and nothing stops the fetch.
    pub fn is_fetched(&self, known: Known) -> bool
        ensures { MatchBool result (IsFetched known self.now) (IsUnfetched known self.now) }
    {
        match known {
            Known::Assumed => self.is_stored(),
            Known::Listed => self.is_taken(),
        }
    }

    // Whether the remote has the ref, some spec stores it, and nothing stops the fetch.
    fn is_taken(&self) -> bool
        ensures { MatchBool result (IsFetched known.Listed self.now) (IsUnfetched known.Listed self.now) }
    {
        if !self.has_ref() {
            return false;
        }
        if !self.is_stored() {
            return false;
        }
        self.is_carried_out()
    }

    // Whether the remote has the ref.
    fn has_ref(&self) -> bool
        ensures { MatchBool result (self.now.effects.item_index ≢ None) (self.now.effects.item_index ≡ None) }
    {
        match self.effects.item_index {
            None => false,
            Some(_) => true,
        }
    }

    /// Whether some spec stores the ref, unless something stops the fetch.
    pub fn is_stored(&self) -> bool
        ensures { MatchBool result (WritesSome self.now.effects.of_specs.items)
            (WritesNone self.now.effects.of_specs.items) }
    {
        has_written(self.effects.of_specs.as_slice())
    }

    // Whether nothing stops the fetch, as far as is known.
    fn is_carried_out(&self) -> bool
        ensures { MatchBool result (self.now.stop ≡ None) (self.now.stop ≢ None) }
    {
        match &self.stop {
            None => true,
            Some(_) => false,
        }
    }
}

// Whether some spec fetches the ref.
fn has_written(effects: &[Effect]) -> bool
    ensures { MatchBool result (WritesSome effects.now) (WritesNone effects.now) }
{
    for effect in effects {
        if effect.fate == Fate::Written {
            return true;
        }
    }
    false
}

/// The answer to a question. Fails if memory runs out.
pub fn answer_to(alloc: Global, question: &Question<'_, '_, '_>) -> Result<Answer, AllocError>
    ensures { IfOk result (IsAnswer question.now) }
{
    let effects = why(
        alloc,
        question.specs,
        question.refs,
        BStr::new(question.name),
    )?;
    let texts = canonical_texts(alloc, question.specs)?;
    let stop = stop_of(alloc, question.known, question.specs, question.refs)?;
    Ok(Answer {
        effects,
        texts,
        stop,
    })
}
