//! Overlaps that come to nothing for one reason.
//!
//! Where periodic texts overlap, they do so again and again, each time in as many bytes less, and each time the name has the
//! same word once more. If several of these names come to nothing for one reason, so do all that follow, and needn't be tried:
//! a try takes as long as the name is.

ghost use Rattle.std.specs.Prelude.{◌≡◌, ◌≢◌, ◌⊎◌, ◌+◌, ◌≤◌, IfSome};
ghost use Rattle.gix_refspec_lint.specs.declared.runs.Why.TheVariants as why;
ghost use Rattle.gix_refspec_lint.specs.Private.Runs.{IsFirstOf, IsNextOf};

// One of two specs.
#[derive(Clone, Copy, PartialEq)]
pub(super) enum Of {
    First,
    Second,
}

// Why a name comes to nothing.
#[derive(Clone, Copy, PartialEq)]
pub(super) enum Why {
    // It isn't known.
    Unknown,
    // Its destination can't be written.
    Unwritable,
    // The source of a spec isn't the name of a ref.
    Invalid(Of),
    // A spec excludes that source: its index.
    Excluded(Of, usize),
    // Both specs have the same source.
    Same,
}

// Overlaps, each by the same number of bytes shorter than the last, whose names come to nothing for the same reason.
#[derive(Clone, Copy)]
pub(super) struct Run {
    longest: usize,
    shortest: usize,
    step: usize,
    why: Why,
}

// How many bytes of these words a name needs so that one word more doesn't make it valid: `.lock` has as many.
const ENOUGH: usize = 5;

impl Run {
    // The run before any overlap.
    pub(super) fn none() -> Run
        ensures { IsFirstOf 0 why.Unknown result }
    {
        Run::of(0, Why::Unknown)
    }

    fn of(shared: usize, why: Why) -> Run
        ensures { IsFirstOf shared why result }
    {
        Run {
            longest: shared,
            shortest: shared,
            step: 0,
            why,
        }
    }

    // Why the name of this overlap comes to nothing, if the run says so.
    pub(super) fn at(&self, shared: usize) -> Option<Why>
        ensures { IfSome result (λ w. (w ≡ self.now.why) × (w ≢ why.Unknown) ×
            (self.now.shortest + 5 ≤ self.now.longest) × (shared + self.now.step ≡ self.now.shortest)) }
    {
        if self.why == Why::Unknown || self.longest.saturating_sub(self.shortest) < ENOUGH {
            return None;
        }
        if shared < self.shortest && self.shortest - shared == self.step {
            return Some(self.why);
        }
        None
    }

    // The run with this overlap, or the one that begins with it.
    pub(super) fn with(&self, shared: usize, why: Why) -> Run
        ensures { IsFirstOf shared why result ⊎ IsNextOf self.now shared why result }
    {
        if why != self.why || shared >= self.shortest {
            return Run::of(shared, why);
        }
        let step = self.shortest - shared;
        if self.longest != self.shortest && step != self.step {
            return Run::of(shared, why);
        }
        Run {
            longest: self.longest,
            shortest: shared,
            step,
            why,
        }
    }
}
