//! Parsed refspecs, borrowed and owned.

ghost use Rattle.std.specs.Prelude.{◌≡◌, option_map, IfOk, OnErr, IsSome};
ghost use Rattle.bstr.specs.BStr.{bstr_bytes};
ghost use Rattle.bstr.specs.Owned.{bstring_bytes};
ghost use Rattle.gix_refspec_text.specs.Specs.Grammar.{IsAccepted};
ghost use Rattle.gix_refspec_text.specs.Views.Instruction.{mode_of};

mod comparisons;
pub mod prefix;
mod write;

use crate::instruction::{Fetch, Push};
use crate::parsing::Operation;
use crate::types::{Instruction, Mode};
use bstr::{BStr, BString};
use std::alloc::{AllocError, Global};

/// A refspec that borrows its sides from the text that it was parsed from, or from a [`RefSpec`].
///
/// Specs come from [`parse`](crate::parse), or from [`fetch_of`](RefSpecRef::fetch_of) and the functions beside it, which
/// ask for valid names. So each spec is a reading of some text of the grammar. Specs are compared, ordered and hashed by
/// meaning, which is their instruction: a push of `main` equals one of `main:main`, and a push never equals a fetch.
#[derive(Clone, Copy, Debug)]
pub struct RefSpecRef<'a> {
    pub(crate) op: Operation,
    pub(crate) mode: Mode,
    pub(crate) src: Option<BStr<'a>>,
    pub(crate) dst: Option<BStr<'a>>,
    ghost accepted: { ∥ IsAccepted (record { operation = op; mode = mode_of mode; source = option_map bstr_bytes src; destination = option_map bstr_bytes dst }) ∥₁ },
}

/// A refspec that owns its sides. Only [`RefSpecRef::to_owned`] and [`RefSpec::clone`] make one, so it is a
/// reading of some text too. Compared, ordered and hashed by meaning, as a [`RefSpecRef`].
#[derive(Debug, Drop)]
pub struct RefSpec {
    op: Operation,
    mode: Mode,
    src: Option<BString>,
    dst: Option<BString>,
    ghost accepted: { ∥ IsAccepted (record { operation = op; mode = mode_of mode; source = option_map bstring_bytes src; destination = option_map bstring_bytes dst }) ∥₁ },
}

impl<'a> RefSpecRef<'a> {
    ghost use Rattle.std.specs.Prelude.{◌⊎◌, ◌↔◌, IfSome, IsSome, IsTrue, MatchBool, Some, codes};
    ghost use Rattle.gix_refspec_text.specs.Texts.Bytes.{head, star};
    ghost use Rattle.gix_refspec_text.specs.Texts.Name.{IsName};
    ghost use Rattle.gix_refspec_text.specs.Texts.Words.{BeginsWith, Lacks};
    ghost use Rattle.gix_refspec_text.specs.Specs.Grammar.{IsPositive};
    ghost use Rattle.gix_refspec_text.specs.Specs.Meaning.{meaning_of};
    ghost use Rattle.gix_refspec_text.specs.Views.Instruction.{meaning_of_instruction};
    ghost use Rattle.gix_refspec_text.specs.Views.Spec.{reading_of, owned_reading_of};
    ghost use Rattle.gix_refspec_text.specs.Specs.Reading.{local_of, remote_of, Forced, HasSide, Negative, all_tags, fetched_alone, with_destination};

    /// Whether the spec was read for a push or for a fetch.
    pub fn operation(&self) -> Operation
        ensures { result ≡ (reading_of self.now).operation }
    {
        self.op
    }

    /// Whether the text began with `+`. This also shows the sign of a deletion and of a fetch without a
    /// destination, whose instructions don't have it.
    pub fn allow_non_fast_forward(&self) -> bool
        ensures { IsTrue result ↔ ((reading_of self.now).mode ≡ Forced) }
    {
        self.mode == Mode::Force
    }

    /// Whether the spec is negative: its text begins with `^`, and it excludes refs.
    pub fn is_negative(&self) -> bool
        ensures { MatchBool result
            ((reading_of self.now).mode ≡ Negative)
            (IsPositive (reading_of self.now).mode) }
    {
        self.mode == Mode::Negative
    }

    /// The left side, with `HEAD` for a lone `@` and for the missing source of a fetch. `None` for a push
    /// that deletes a ref or pushes all matching branches.
    pub fn source(&self) -> Option<BStr<'a>>
        ensures { option_map bstr_bytes result ≡ (reading_of self.now).source }
    {
        self.src
    }

    /// The right side, as it was read. `None` without a destination. For a push of `main` too,
    /// although it pushes to `main`.
    pub fn destination(&self) -> Option<BStr<'a>>
        ensures { option_map bstr_bytes result ≡ (reading_of self.now).destination }
    {
        self.dst
    }

    /// The side on the remote: the source of a fetch, the destination of a push. `None` for a push
    /// that is negative, of a source alone, or of all matching branches.
    pub fn remote(&self) -> Option<BStr<'a>>
        ensures { option_map bstr_bytes result ≡ remote_of (reading_of self.now) }
    {
        match self.op {
            Operation::Push => self.dst,
            Operation::Fetch => self.src,
        }
    }

    /// The local side: the destination of a fetch, the source of a push. `None` for a fetch that is
    /// negative or of a source alone, and for a push that deletes a ref or pushes all matching
    /// branches.
    pub fn local(&self) -> Option<BStr<'a>>
        ensures { option_map bstr_bytes result ≡ local_of (reading_of self.now) }
    {
        match self.op {
            Operation::Push => self.src,
            Operation::Fetch => self.dst,
        }
    }

    /// A fetch of a ref alone: `name` has to be `HEAD`, or a valid ref name that begins `refs/`.
    pub fn fetch_of(name: BStr<'a>) -> RefSpecRef<'a>
        requires name { IsName (bstr_bytes name) }
        requires full { BeginsWith (codes "refs/") (bstr_bytes name) ⊎ (bstr_bytes name ≡ head) }
        ensures { reading_of result ≡ fetched_alone (bstr_bytes name.entry) }
    {
        RefSpecRef {
            op: Operation::Fetch,
            mode: Mode::Normal,
            src: Some(name),
            dst: None,
        }
    }

    /// The fetch of all tags, `refs/tags/*:refs/tags/*`.
    pub fn fetch_of_all_tags() -> RefSpecRef<'static>
        ensures { reading_of result ≡ all_tags }
    {
        let pattern = BStr::new(b"refs/tags/*");
        RefSpecRef {
            op: Operation::Fetch,
            mode: Mode::Normal,
            src: Some(pattern),
            dst: Some(pattern),
        }
    }

    /// The spec with another destination, which has to be a valid ref name, as `name_partial` checks it. Requires that it has a
    /// destination, without a star.
    pub fn with_destination(&self, destination: BStr<'a>) -> RefSpecRef<'a>
        requires replaced { IfSome (reading_of self.now).destination (Lacks star) }
        requires present { IsSome (reading_of self.now).destination }
        requires name { IsName (bstr_bytes destination) }
        ensures { reading_of result ≡ with_destination (reading_of self.now) (bstr_bytes destination.entry) }
    {
        RefSpecRef {
            op: self.op,
            mode: self.mode,
            src: self.src,
            dst: Some(destination),
        }
    }

    /// A copy that owns its sides. Fails if memory runs out; never for a spec without sides.
    pub fn to_owned(&self, alloc: Global) -> Result<RefSpec, AllocError>
        ensures keeps { IfOk result (λ owned. owned_reading_of owned ≡ reading_of self.now) }
        ensures memory { OnErr result (HasSide (reading_of self.now)) }
    {
        Ok(RefSpec {
            op: self.op,
            mode: self.mode,
            src: owned_side(alloc, self.src)?,
            dst: owned_side(alloc, self.dst)?,
        })
    }

    /// The instruction of the spec. Its sides borrow from the same text as those of the spec.
    pub fn instruction(&self) -> Instruction<'a>
        ensures { meaning_of (reading_of self.now) ≡ Some (meaning_of_instruction result) }
    {
        match self.op {
            Operation::Fetch => Instruction::Fetch(self.fetch()),
            Operation::Push => Instruction::Push(self.push()),
        }
    }

    // The instruction of a spec for a fetch.
    fn fetch(&self) -> Fetch<'a>
        requires { self.now.op ≡ Operation.Fetch }
        ensures { meaning_of (reading_of self.now) ≡ Some (meaning_of_instruction (Instruction.Fetch result)) }
    {
        match (self.mode, self.src, self.dst) {
            (Mode::Negative, Some(src), None) => Fetch::Exclude { src },
            (Mode::Normal | Mode::Force, Some(src), None) => Fetch::Only { src },
            (Mode::Normal | Mode::Force, Some(src), Some(dst)) => Fetch::AndUpdate {
                src,
                dst,
                allow_non_fast_forward: self.mode == Mode::Force,
            },
            _ => unreachable!(),
        }
    }

    // The instruction of a spec for a push.
    fn push(&self) -> Push<'a>
        requires { self.now.op ≡ Operation.Push }
        ensures { meaning_of (reading_of self.now) ≡ Some (meaning_of_instruction (Instruction.Push result)) }
    {
        let allow_non_fast_forward = self.mode == Mode::Force;
        match (self.mode, self.src, self.dst) {
            (Mode::Negative, Some(src), None) => Push::Exclude { src },
            (Mode::Normal | Mode::Force, None, None) => Push::AllMatchingBranches {
                allow_non_fast_forward,
            },
            (Mode::Normal | Mode::Force, None, Some(dst)) => Push::Delete {
                ref_or_pattern: dst,
            },
            (Mode::Normal | Mode::Force, Some(src), dst) => Push::Matching {
                src,
                dst: dst.unwrap_or(src),
                allow_non_fast_forward,
            },
            _ => unreachable!(),
        }
    }
}

impl RefSpec {
    ghost use Rattle.std.specs.Prelude.{◌↔◌, IsTrue};
    ghost use Rattle.gix_refspec_text.specs.Specs.Reading.{Forced, HasSide};
    ghost use Rattle.gix_refspec_text.specs.Views.Spec.{reading_of, owned_reading_of};

    /// The same spec, with sides borrowed from this one.
    pub fn to_ref(&self) -> RefSpecRef<'_>
        ensures { reading_of result ≡ owned_reading_of self.now }
    {
        RefSpecRef {
            op: self.op,
            mode: self.mode,
            src: borrowed_side(&self.src),
            dst: borrowed_side(&self.dst),
        }
    }

    /// As `RefSpecRef::allow_non_fast_forward`.
    pub fn allow_non_fast_forward(&self) -> bool
        ensures { IsTrue result ↔ ((owned_reading_of self.now).mode ≡ Forced) }
    {
        self.to_ref().allow_non_fast_forward()
    }

    /// A copy with sides of its own. Fails if memory runs out; never for a spec without sides.
    pub fn clone(&self, alloc: Global) -> Result<RefSpec, AllocError>
        ensures keeps { IfOk result (λ copy. owned_reading_of copy ≡ owned_reading_of self.now) }
        ensures memory { OnErr result (HasSide (owned_reading_of self.now)) }
    {
        self.to_ref().to_owned(alloc)
    }
}

fn owned_side(alloc: Global, side: Option<BStr<'_>>) -> Result<Option<BString>, AllocError>
    ensures keeps { IfOk result (λ owned.
        option_map bstring_bytes owned ≡ option_map bstr_bytes side.entry) }
    ensures memory { OnErr result (IsSome (option_map bstr_bytes side.entry)) }
{
    match side {
        None => Ok(None),
        Some(side) => Ok(Some(BString::from_slice(alloc, side)?)),
    }
}

fn borrowed_side(side: &Option<BString>) -> Option<BStr<'_>>
    ensures { option_map bstr_bytes result ≡ option_map bstring_bytes side.now }
{
    match side {
        None => None,
        Some(side) => Some(side.as_bstr()),
    }
}
