//! Parsing of a refspec.

ghost use Rattle.std.specs.Prelude.{◌≡◌, ◌≢◌, ◌↔◌, [], option_map, IfOk, IfErr, MatchBool, IsTrue};
ghost use Rattle.bstr.specs.BStr.{bstr_bytes};
ghost use Rattle.gix_refspec_text.specs.Specs.Grammar.{IsSigned, LooksLikeObjectHash, Reads, with_colon, LastLacksColon, named_by};
ghost use Rattle.gix_refspec_text.specs.Specs.Refusal.{IsBadPattern, IsRefused, MayNeedMemory};
ghost use Rattle.gix_refspec_text.specs.Views.Instruction.{mode_of, ShowsRefusal};
ghost use Rattle.gix_refspec_text.specs.Private.Scan.{Stops};
ghost use Rattle.gix_refspec_text.specs.Private.Sides.{MemoryOr, IsLook, HasShape, HasCheckedShape, IsBadSide, IsStopBy, IsBadAt, refusal_at, HasParts, destination_of, ArePositive, AreSidesOf, IsErrorAgainst, IsReasonAgainst, named_or_head as named_or_head_of, side_of as side_bytes};
ghost use Rattle.gix_refspec_text.specs.Views.Spec.{reading_of};

use crate::name;
use crate::name::{Stop, starred_name};
use crate::oid::Kind;
use crate::parsing::{Error, Operation, Side};
use crate::side::{Stars, stars_of};
use crate::spec::RefSpecRef;
use crate::split::split_at_last;
use crate::types::Mode;
use bstr::{BStr, BString};
use std::alloc::Global;

// What the check of a side found.
#[derive(Clone, Copy)]
enum Look {
    Name,
    Pattern,
    // No star, and this fault of a ref name, at the index that `Stop::Fault` has.
    Other(name::Error, usize),
}

// A side without a star, or a pattern.
#[derive(Clone, Copy, PartialEq, Eq)]
enum Shape {
    Plain,
    Pattern,
}

// The parts of a text, and the operation that it is parsed for. Without a colon there is no
// destination.
#[derive(Clone, Copy)]
pub(super) struct Parts<'a> {
    pub(super) operation: Operation,
    pub(super) mode: Mode,
    pub(super) source: &'a [u8],
    pub(super) destination: Option<&'a [u8]>,
}

// The first reason to refuse the parts of a text. Of a bad side, where its check stopped.
#[derive(Clone, Copy)]
pub(super) enum Reason {
    Empty,
    NegativeWithDestination,
    PushToEmpty,
    Bad(Side, Stop),
    PatternUnbalanced,
    NegativeEmpty,
    NegativeObjectHash,
}

// The sides of the parsed spec.
#[derive(Clone, Copy)]
pub(super) struct Sides<'a> {
    source: Option<BStr<'a>>,
    destination: Option<BStr<'a>>,
}

/// Parses a refspec for an operation, by git-fetch(1) and git-push(1) under `<refspec>`. The sides
/// borrow from the text, or are the constant `HEAD`. Takes time linear in the length of the text.
///
/// Any other text is refused with the first reason that applies, in the order listed at [`Error`].
/// Allocates only to copy a side with several stars, which the error holds whole. If memory runs out
/// there, the error is `Memory`.
pub fn parse<'a>(
    alloc: Global,
    spec: BStr<'a>,
    operation: Operation,
) -> Result<RefSpecRef<'a>, Error>
    ensures ok { IfOk result (λ s. Reads operation (bstr_bytes spec.entry) (reading_of s)) }

    // The first reason that applies. `Memory` only if a side may need memory.
    ensures refused { IfErr result (λ e. e ≢ Error.Memory →
        ShowsRefusal (IsRefused operation (bstr_bytes spec.entry)) e) }
    ensures memory { IfErr result (λ e. e ≡ Error.Memory →
        MayNeedMemory operation (bstr_bytes spec.entry)) }
{
    let parts = Parts::new(operation, spec.as_bytes());
    match sides_of(parts) {
        Ok(sides) => Ok(RefSpecRef {
            op: operation,
            mode: parts.mode,
            src: sides.source,
            dst: sides.destination,
        }),
        Err(reason) => Err(error_of(alloc, parts, reason)),
    }
}

// The error for a reason.
#[inline(never)]
fn error_of(alloc: Global, parts: Parts<'_>, reason: Reason) -> Error
    requires { IsReasonAgainst parts reason }
    ensures { IsErrorAgainst parts.entry result }
{
    match reason {
        Reason::Empty => Error::Empty,
        Reason::NegativeWithDestination => Error::NegativeWithDestination,
        Reason::PushToEmpty => Error::PushToEmpty,
        Reason::Bad(Side::Source, stop) => error_at(alloc, parts.source, stop),
        Reason::Bad(Side::Destination, stop) => {
            error_at(alloc, parts.destination.unwrap_or(b""), stop)
        }
        Reason::PatternUnbalanced => Error::PatternUnbalanced,
        Reason::NegativeEmpty => Error::NegativeEmpty,
        Reason::NegativeObjectHash => Error::NegativeObjectHash,
    }
}

// The error for a side whose check stopped there. `Memory` only for a side with several stars.
fn error_at(alloc: Global, side: &[u8], stop: Stop) -> Error
    ensures { MemoryOr (stop ≡ Stop.SecondStar) (λ e. e ≡ refusal_at side.now stop) result }
{
    match stop {
        Stop::Fault(fault, _) => Error::ReferenceName(fault),
        Stop::SecondStar => match BString::from_slice(alloc, side) {
            Ok(pattern) => Error::PatternUnsupported { pattern },
            Err(_) => Error::Memory,
        },
    }
}

impl<'a> Parts<'a> {
    // Splits the text after its sign and at its last colon.
    pub(super) fn new(operation: Operation, text: &'a [u8]) -> Parts<'a>
        ensures operation { result.operation ≡ operation }
        ensures parts { HasParts text.now result }
    {
        let (mode, rest) = take_sign(text);
        let (source, destination) = split_at_last_colon(rest);
        Parts {
            operation,
            mode,
            source,
            destination,
        }
    }
}

// The mode given by the sign, and the text after the sign.
fn take_sign(text: &[u8]) -> (Mode, &[u8])
    ensures { IsSigned (mode_of result.0) text.now result.1.now }
{
    match text {
        [b'^', rest @ ..] => (Mode::Negative, rest),
        [b'+', rest @ ..] => (Mode::Force, rest),
        _ => (Mode::Normal, text),
    }
}

// The source and, if there is a colon, the destination after the last one.
fn split_at_last_colon(rest: &[u8]) -> (&[u8], Option<&[u8]>)
    ensures whole { rest.now ≡ with_colon result.0.now (option_map (λ d. d.now) result.1) }
    ensures last { LastLacksColon result.0.now (option_map (λ d. d.now) result.1) }
{
    match split_at_last(rest, b':') {
        None => (rest, None),
        Some((source, destination)) => (source, Some(destination)),
    }
}

// Checks a side, its stars and its name in one pass unless it has a fault.
#[inline(always)]
fn look_at(side: &[u8]) -> Result<Look, Stop>
    ensures ok { IfOk result (IsLook side.now) }
    ensures err { IfErr result (IsStopBy (IsBadPattern side.now) side.now) }
{
    match starred_name(side) {
        Ok(false) => Ok(Look::Name),
        Ok(true) => Ok(Look::Pattern),
        Err(Stop::SecondStar) => Err(Stop::SecondStar),
        Err(Stop::Fault(fault, index)) => with_fault(side, fault, index),
    }
}

// Classifies a side that isn't a name even with its stars read as letters.
#[inline(never)]
fn with_fault(side: &[u8], fault: name::Error, index: usize) -> Result<Look, Stop>
    requires { Stops side.now (Stop.Fault fault index) }
    ensures ok { IfOk result (IsLook side.now) }
    ensures err { IfErr result (IsStopBy (IsBadPattern side.now) side.now) }
{
    match stars_of(side) {
        Stars::No => Ok(Look::Other(fault, index)),
        Stars::One { .. } => Err(Stop::Fault(fault, index)),
        Stars::Several => Err(Stop::SecondStar),
    }
}

// The shape of a source. With a star it must be a pattern; without one it may be any text.
fn starred(source: &[u8]) -> Result<Shape, Reason>
    ensures ok { IfOk result (HasShape source.now) }
    ensures err { IfErr result (IsBadAt Side.Source (IsBadPattern source.now) source.now) }
{
    match look_at(source) {
        Ok(Look::Name | Look::Other(..)) => Ok(Shape::Plain),
        Ok(Look::Pattern) => Ok(Shape::Pattern),
        Err(stop) => Err(Reason::Bad(Side::Source, stop)),
    }
}

// The shape of the word of a side, which must be empty, a ref name or a pattern.
#[inline(always)]
fn checked(side: Side, word: &[u8]) -> Result<Shape, Reason>
    ensures ok { IfOk result (HasCheckedShape word.now) }
    ensures err { IfErr result (IsBadAt side (IsBadSide word.now) word.now) }
{
    if word.is_empty() {
        return Ok(Shape::Plain);
    }
    match look_at(word) {
        Ok(Look::Name) => Ok(Shape::Plain),
        Ok(Look::Pattern) => Ok(Shape::Pattern),
        Ok(Look::Other(fault, index)) => Err(Reason::Bad(side, Stop::Fault(fault, index))),
        Err(stop) => Err(Reason::Bad(side, stop)),
    }
}

// The source of a fetch, with `HEAD` for the empty text and for `@`.
fn named_or_head(source: &[u8]) -> &[u8]
    ensures { result.now ≡ named_or_head_of source.now }
{
    match source {
        [] => b"HEAD",
        _ => named(source),
    }
}

// A source, with `HEAD` for `@`.
fn named(source: &[u8]) -> &[u8]
    ensures { result.now ≡ named_by source.now }
{
    match source {
        b"@" => b"HEAD",
        _ => source,
    }
}

impl<'a> Sides<'a> {
    fn new(source: &'a [u8], target: &'a [u8]) -> Sides<'a>
        ensures source { option_map bstr_bytes result.source ≡ side_bytes source.now }
        ensures destination { option_map bstr_bytes result.destination ≡ side_bytes target.now }
    {
        Sides {
            source: side_of(source),
            destination: side_of(target),
        }
    }
}

// An empty word is a missing side.
fn side_of(word: &[u8]) -> Option<BStr<'_>>
    ensures { option_map bstr_bytes result ≡ side_bytes word.now }
{
    match word {
        [] => None,
        _ => Some(BStr::new(word)),
    }
}

// The sides of a spec with these parts, or the first reason to refuse them.
pub(super) fn sides_of<'a>(parts: Parts<'a>) -> Result<Sides<'a>, Reason>
    ensures ok { IfOk result (AreSidesOf parts.entry) }
    ensures err { IfErr result (IsReasonAgainst parts.entry) }
{
    match (parts.mode, parts.operation, parts.destination) {
        (Mode::Negative, _, _) => negative_sides(parts),
        (_, Operation::Fetch, _) => fetch_sides(parts),
        (_, Operation::Push, None) => push_alone_sides(parts),
        (_, Operation::Push, Some(target)) => push_sides(parts, target),
    }
}

// The sides of a negative spec.
fn negative_sides<'a>(parts: Parts<'a>) -> Result<Sides<'a>, Reason>
    requires { parts.mode ≡ Mode.Negative }
    ensures ok { IfOk result (AreSidesOf parts.entry) }
    ensures err { IfErr result (IsReasonAgainst parts.entry) }
{
    if parts.destination.is_some() {
        return Err(Reason::NegativeWithDestination);
    }
    let _ = checked(Side::Source, parts.source)?;
    if parts.source.is_empty() {
        return Err(Reason::NegativeEmpty);
    }
    if looks_like_object_hash(parts.source) {
        return Err(Reason::NegativeObjectHash);
    }
    Ok(Sides::new(named(parts.source), b""))
}

// The sides of a positive fetch. An empty source is read as `HEAD`.
fn fetch_sides<'a>(parts: Parts<'a>) -> Result<Sides<'a>, Reason>
    requires { ArePositive Operation.Fetch parts }
    ensures ok { IfOk result (AreSidesOf parts.entry) }
    ensures err { IfErr result (IsReasonAgainst parts.entry) }
{
    let target = parts.destination.unwrap_or(b"");
    if checked(Side::Source, parts.source)? != checked(Side::Destination, target)? {
        return Err(Reason::PatternUnbalanced);
    }
    Ok(Sides::new(named_or_head(parts.source), target))
}

// The sides of a positive push of a source alone, which is its own destination.
fn push_alone_sides<'a>(parts: Parts<'a>) -> Result<Sides<'a>, Reason>
    requires positive { ArePositive Operation.Push parts }
    requires alone { destination_of parts ≡ None }
    ensures ok { IfOk result (AreSidesOf parts.entry) }
    ensures err { IfErr result (IsReasonAgainst parts.entry) }
{
    if parts.mode == Mode::Normal && parts.source.is_empty() {
        return Err(Reason::Empty);
    }
    let _ = checked(Side::Source, parts.source)?;
    Ok(Sides::new(named(parts.source), b""))
}

// The sides of a positive push to a destination. The source may be any expression for an object.
fn push_sides<'a>(parts: Parts<'a>, target: &'a [u8]) -> Result<Sides<'a>, Reason>
    requires positive { ArePositive Operation.Push parts }
    requires target { destination_of parts ≡ Some target.now }
    ensures ok { IfOk result (AreSidesOf parts.entry) }
    ensures err { IfErr result (IsReasonAgainst parts.entry) }
{
    if pushes_nowhere(parts.source, target) {
        return Err(Reason::PushToEmpty);
    }
    if starred(parts.source)? != checked(Side::Destination, target)? {
        return Err(Reason::PatternUnbalanced);
    }
    Ok(Sides::new(named(parts.source), target))
}

// Whether a push has a source and an empty destination, as `main:`.
fn pushes_nowhere(source: &[u8], target: &[u8]) -> bool
    ensures { MatchBool result
        ((source.now ≢ []) × (target.now ≡ []))
        (source.now ≢ [] → target.now ≡ [] → ⊥) }
{
    target.is_empty() && !source.is_empty()
}

// Whether a text has only hex digits, and at least as many as the shortest object id.
fn looks_like_object_hash(text: &[u8]) -> bool
    ensures { IsTrue result ↔ LooksLikeObjectHash text.now }
{
    text.len() >= Kind::shortest().len_in_hex() && text.iter().all(|b| b.is_ascii_hexdigit())
}
