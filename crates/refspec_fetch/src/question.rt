//! What `plan` and `stale` are asked.

ghost use Rattle.std.specs.Prelude.{◌≡◌};
ghost use Rattle.gix_refspec_plan.specs.Views.Plan.{wish_of};
ghost use Rattle.refspec_fetch.specs.Answer.{asks_stale, asks_updates, question_of, takes_all};

use bstr::BStr;
use gix_refspec::RefSpecRef;
use gix_refspec::match_group::Item;
use gix_refspec_plan::Wish;
use refspec_io::refs::BadRecord;

/// What a fetch is asked for, the refs that it depends on, and what is asked about it.
#[derive(Clone, Copy, Debug)]
pub struct Question<'q, 'spec, 'item> {
    pub subject: Subject,
    /// The specs of the call.
    pub given: &'q [RefSpecRef<'spec>],
    /// The configured specs.
    pub configured: &'q [RefSpecRef<'spec>],
    /// What the current branch merges.
    pub merges: &'q [BStr<'spec>],
    pub tags: Tags,
    /// The refs of the remote.
    pub refs: &'q [Item<'item>],
    /// The refs here. Only their full names matter.
    pub local: &'q [Item<'item>],
    /// The records among the refs here that are none.
    pub unread: &'q [BadRecord<'item>],
}

/// What is asked about a fetch.
#[derive(Clone, Copy, Debug, PartialEq, Eq)]
pub enum Subject {
    /// What it writes.
    Updates,
    /// What it writes, and which refs here it deletes if it prunes.
    Both,
    /// Which refs here it deletes if it prunes.
    Stale,
}

/// Which tags a fetch takes besides those of its specs.
#[derive(Clone, Copy, Debug, PartialEq, Eq)]
pub enum Tags {
    /// Those whose objects it fetches or has.
    Followed,
    /// All.
    All,
    /// None.
    Left,
}

impl<'q, 'spec, 'item> Question<'q, 'spec, 'item> {
    /// What the fetch is asked for.
    pub fn wish(&self) -> Wish<'q, 'spec>
        ensures { wish_of result ≡ (question_of self.now).wish }
    {
        Wish {
            given: self.given,
            configured: self.configured,
            merges: self.merges,
            tags: takes_all(self.tags),
        }
    }
}

// Whether all tags are taken.
fn takes_all(tags: Tags) -> bool
    ensures { result ≡ takes_all tags }
{
    match tags {
        Tags::All => true,
        Tags::Followed | Tags::Left => false,
    }
}

/// Whether the updates of the fetch are asked for.
pub fn asks_updates(subject: Subject) -> bool
    ensures { result ≡ asks_updates subject }
{
    match subject {
        Subject::Updates | Subject::Both => true,
        Subject::Stale => false,
    }
}

/// Whether the refs here are asked for that the fetch deletes if it prunes.
pub fn asks_stale(subject: Subject) -> bool
    ensures { result ≡ asks_stale subject }
{
    match subject {
        Subject::Updates => false,
        Subject::Both | Subject::Stale => true,
    }
}
