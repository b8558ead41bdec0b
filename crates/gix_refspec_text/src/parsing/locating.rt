//! Which bytes of a refused text are wrong.

ghost use Rattle.std.specs.Prelude.{◌≡◌, ◌≢◌, ◌≤◌, ◌<◌, ◌+◌, ◌^◌, [], IfSome, MatchOption, length};
ghost use Rattle.bstr.specs.BStr.{bstr_bytes};
ghost use Rattle.gix_refspec_text.specs.Texts.Bytes.{star};
ghost use Rattle.gix_refspec_text.specs.Texts.Words.{Lacks};
ghost use Rattle.gix_refspec_text.specs.Texts.Name.{HasSeveralStars};
ghost use Rattle.gix_refspec_text.specs.Specs.Span.{HasNoSpan, IsOnlySpan, IsSpan, HasFirstStar, HasSecondStar, index_of_side, sign_length};
ghost use Rattle.gix_refspec_text.specs.Views.Instruction.{mode_of};
ghost use Rattle.gix_refspec_text.specs.Private.Scan.{Stops};
ghost use Rattle.gix_refspec_text.specs.Private.Sides.{HasParts, IsReasonAgainst};
ghost use Rattle.gix_refspec_text.specs.Private.Spans.{HasNoWordIn, IsWordIn, IsStopWord, HasSide};

use crate::name::{Stop, Word, wrong_word};
use crate::parsing::reading::{Parts, Reason, sides_of};
use crate::parsing::{Operation, Side, Span};
use crate::side::split_at_first_star;
use crate::types::Mode;
use bstr::BStr;

/// The bytes of a text that make `parse` refuse it for an operation. Allocates nothing, and takes time linear
/// in the length of the text.
///
/// For a `ReferenceName` these are the first bytes that break a rule of git-check-ref-format(1), such as `..`;
/// for a `PatternUnsupported` the second star, for a `PatternUnbalanced` the star, for a
/// `NegativeObjectHash` the source, and for a `NegativeWithDestination` the destination.
///
/// `None` if the text is a refspec, and if something is missing rather than wrong: for the errors `Empty`,
/// `PushToEmpty` and `NegativeEmpty`, and for a `NegativeWithDestination` whose destination is empty.
pub fn locate(text: BStr<'_>, operation: Operation) -> Option<Span>
    ensures span { MatchOption result
        (HasNoSpan operation (bstr_bytes text.entry))
        (IsSpan operation (bstr_bytes text.entry)) }
    ensures only { IfSome result (IsOnlySpan operation (bstr_bytes text.entry)) }
    ensures inside { IfSome result (λ span. span.start + span.len ≤ length (bstr_bytes text.entry)) }
{
    let bytes = text.as_bytes();
    let parts = Parts::new(operation, bytes);
    match sides_of(parts) {
        Ok(_) => None,
        Err(reason) => span_of(bytes, parts, reason),
    }
}

// The wrong bytes of a text with these parts, which are refused for this reason.
fn span_of(text: &[u8], parts: Parts<'_>, reason: Reason) -> Option<Span>
    requires parts { HasParts text.now parts }
    requires reason { IsReasonAgainst parts reason }
    ensures span { MatchOption result
        (HasNoSpan parts.entry.operation text.now)
        (IsSpan parts.entry.operation text.now) }
    ensures inside { IfSome result (λ span. span.start + span.len ≤ length text.now) }
{
    let Some((side, word)) = wrong_in(parts, reason) else {
        return None;
    };
    let start = start_of(text, parts, side) + word.start;
    Some(Span {
        side,
        start,
        len: word.len,
    })
}

// The index at which a side of the text begins.
fn start_of(text: &[u8], parts: Parts<'_>, side: Side) -> usize
    requires parts { HasParts text.now parts }
    requires side { HasSide parts side }
    ensures index { result ≡ index_of_side (mode_of parts.entry.mode) parts.entry.source.now side }
    ensures room { length text.now < 2 ^ 64 }
{
    let len = text.len();
    match (side, parts.destination) {
        (Side::Destination, Some(destination)) => len - destination.len(),
        _ => sign_len(parts.mode),
    }
}

// How many bytes the sign of a mode has.
fn sign_len(mode: Mode) -> usize
    ensures { result ≡ sign_length (mode_of mode) }
{
    match mode {
        Mode::Normal => 0,
        Mode::Force | Mode::Negative => 1,
    }
}

// The side with the wrong bytes, and which of its bytes are wrong.
fn wrong_in(parts: Parts<'_>, reason: Reason) -> Option<(Side, Word)>
    requires { IsReasonAgainst parts reason }
    ensures { MatchOption result (HasNoWordIn parts.entry) (IsWordIn parts.entry) }
{
    let destination = parts.destination.unwrap_or(b"");
    match reason {
        Reason::Empty | Reason::PushToEmpty | Reason::NegativeEmpty => None,
        Reason::Bad(Side::Source, stop) => Some((Side::Source, stopped_word(parts.source, stop))),
        Reason::Bad(Side::Destination, stop) => {
            Some((Side::Destination, stopped_word(destination, stop)))
        }
        Reason::NegativeObjectHash => Some((Side::Source, whole(parts.source))),
        Reason::NegativeWithDestination => {
            if destination.is_empty() {
                return None;
            }
            Some((Side::Destination, whole(destination)))
        }
        Reason::PatternUnbalanced => {
            if let Some(star) = first_star(parts.source) {
                return Some((Side::Source, star));
            }
            Some((Side::Destination, first_star(destination)?))
        }
    }
}

// All bytes of a side.
fn whole(side: &[u8]) -> Word
    ensures start { result.start ≡ 0 }
    ensures len { result.len ≡ length side.now }
{
    Word {
        start: 0,
        len: side.len(),
    }
}

// The wrong bytes of a side whose check stopped there.
fn stopped_word(side: &[u8], stop: Stop) -> Word
    requires some { side.now ≢ [] }
    requires stops { Stops side.now stop }
    ensures { IsStopWord side.now stop result }
{
    match stop {
        Stop::Fault(fault, index) => wrong_word(side, fault, index),
        Stop::SecondStar => second_star(side),
    }
}

// The first star of a side.
fn first_star(side: &[u8]) -> Option<Word>
    ensures { MatchOption result
        (Lacks star side.now)
        (λ word. HasFirstStar side.now word.start × (word.len ≡ 1)) }
{
    let (before, _) = split_at_first_star(side)?;
    Some(Word {
        start: before.len(),
        len: 1,
    })
}

// The second star of a side that has several.
fn second_star(side: &[u8]) -> Word
    requires { HasSeveralStars side.now }
    ensures index { HasSecondStar side.now result.start }
    ensures len { result.len ≡ 1 }
{
    let Some((before, rest)) = split_at_first_star(side) else {
        unreachable!();
    };
    let Some((between, _)) = split_at_first_star(rest) else {
        unreachable!();
    };
    let start = before.len() + 1 + between.len();
    Word { start, len: 1 }
}
