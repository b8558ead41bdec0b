//! The lines that a matching command reads: specs, and the refs of a repository.

ghost use Rattle.std.specs.Prelude.{◌≡◌, ◌⊎◌, List, ℕ, [], ◌∷◌, ◌++◌, IfOk, IfErr, OnOk, MatchBool, MatchOption};
ghost use Rattle.bstr.specs.BStr.{bstr_bytes};
ghost use Rattle.gix_refspec_text.specs.declared.parsing.Operation.TheVariants.{Fetch};
ghost use Rattle.gix_refspec.specs.Texts.Words.{Lacks};
ghost use Rattle.gix_refspec.specs.Specs.Grammar.{Reads};
ghost use Rattle.gix_refspec.specs.Texts.ObjectId.{IsIdText, id_bytes};
ghost use Rattle.gix_refspec.specs.Views.Spec.{reading_of};
ghost use Rattle.gix_refspec.specs.Views.Group.{ref_of};
ghost use Rattle.refspec_map.specs.Fault.{IsMemory};
ghost use Rattle.refspec_map.specs.Line.{space, IsFaultOf, IsFirstFault, IsIdThen, IsMalformed, Says, spec};
ghost use Rattle.refspec_map.specs.Parsed.{IsReadAs, IsSaidAs, parsed_ref};

use crate::fault::Fault;
use crate::input::first_line;
use bstr::{BStr, ByteSlice};
use gix_refspec::match_group::Item;
use gix_refspec::oid::{ObjectId, is_id};
use gix_refspec::parsing::{Error, Operation};
use gix_refspec::{RefSpecRef, laws, parse};
use std::alloc::Global;

/// A ref of the input. It owns the ids that an item borrows.
#[derive(Clone, Copy)]
pub(crate) struct ParsedRef<'a> {
    name: BStr<'a>,
    target: ObjectId,
    object: Option<ObjectId>,
}

impl<'a> ParsedRef<'a> {
    /// An item that borrows the ids of the ref.
    pub(crate) fn as_item(&self) -> Item<'_>
        ensures { ref_of result ≡ parsed_ref self.now }
    {
        Item {
            full_ref_name: self.name,
            target: &self.target,
            object: match &self.object {
                None => None,
                Some(id) => Some(id),
            },
        }
    }
}

// The content of a line.
#[derive(Clone, Copy)]
enum Said<'a> {
    // The text of a spec.
    Spec(BStr<'a>),
    Ref(ParsedRef<'a>),
}

/// The specs and refs of an input, each kind in order. The refs are either in `refs`, with their ids, or in
/// `items`, with only their names.
#[derive(Drop)]
pub(crate) struct Entries<'a> {
    pub(crate) specs: Vec<RefSpecRef<'a>>,
    pub(crate) refs: Vec<ParsedRef<'a>>,
    pub(crate) items: Vec<Item<'a>>,
}

impl<'a> Entries<'a> {
    ghost use Rattle.refspec_map.specs.Parsed.{Adds, AreEntries};

    /// Parses the lines of an input. Fails at the first bad line. Without `blank`, refs are kept with their
    /// ids; with it, as items that have only their names, and `blank` as their id.
    pub(crate) fn read(
        alloc: Global,
        input: &'a [u8],
        blank: Option<&'a ObjectId>,
    ) -> Result<Entries<'a>, Fault>
        ensures ok { IfOk result (AreEntries blank.entry input.now) }
        ensures err { IfErr result (λ f. IsMemory f ⊎ IsFirstFault input.now f) }
    {
        let mut entries = Entries {
            specs: Vec::new(alloc),
            refs: Vec::new(alloc),
            items: Vec::new(alloc),
        };
        let mut number = 0;
        let mut rest = input;
        while !rest.is_empty() {
            let (line, after) = first_line(rest);
            number += 1;
            entries.add(alloc, blank, number, line)?;
            rest = after;
        }
        Ok(entries)
    }

    // Adds the spec or ref of the line with this number.
    fn add(
        &mut self,
        alloc: Global,
        blank: Option<&'a ObjectId>,
        number: usize,
        line: &'a [u8],
    ) -> Result<(), Fault>
        ensures ok { OnOk result (Adds blank.entry line.now self.old self.new) }
        ensures err { IfErr result (λ f. IsMemory f ⊎ IsFaultOf number line.now f) }
    {
        match said_by(line, blank) {
            None => Err(Fault::Line(number)),
            Some(Said::Ref(told)) => match blank {
                None => push(&mut self.refs, told),
                Some(id) => {
                    let item = Item {
                        full_ref_name: told.name,
                        target: id,
                        object: None,
                    };
                    push(&mut self.items, item)
                }
            },
            Some(Said::Spec(text)) => {
                let spec = spec_of(alloc, number, text)?;
                push(&mut self.specs, spec)
            }
        }
    }
}

/// Appends a value to a list. Fails with `Fault::Memory` if memory runs out.
pub(crate) fn push<T: Drop>(list: &mut Vec<T>, value: T) -> Result<(), Fault>
    ensures ok { OnOk result (list.new.items ≡ list.old.items ++ value ∷ []) }
    ensures err { IfErr result IsMemory }
{
    match list.push(value) {
        Ok(()) => Ok(()),
        Err(_) => Err(Fault::Memory),
    }
}

// Parses a spec for a fetch. The number is that of its line.
fn spec_of(alloc: Global, number: usize, text: BStr<'_>) -> Result<RefSpecRef<'_>, Fault>
    ensures ok { IfOk result (λ s. Reads Fetch (bstr_bytes text.entry) (reading_of s)) }
    ensures err { IfErr result (λ f. IsMemory f
        ⊎ ((line : List ℕ) → Says line (spec (bstr_bytes text.entry)) → IsFaultOf number line f)) }
{
    match parse(alloc, text, Operation::Fetch) {
        Ok(spec) => Ok(spec),
        Err(error) => {
            if matches!(error, Error::Memory) {
                return Err(Fault::Memory);
            }
            Err(Fault::Spec {
                line: number,
                error,
            })
        }
    }
}

// Parses a line; `None` if it is malformed. With `blank`, a ref has that id instead of its own ids.
fn said_by<'a>(line: &'a [u8], blank: Option<&ObjectId>) -> Option<Said<'a>>
    ensures { MatchOption result (IsMalformed line.now) (IsSaidAs blank.entry line.now) }
{
    if let Some(words) = line.strip_prefix(b"ref ") {
        let (target, name) = id_then(words, blank)?;
        return Some(Said::Ref(ParsedRef {
            name: BStr::new(name),
            target,
            object: None,
        }));
    }
    if let Some(words) = line.strip_prefix(b"tag ") {
        let (target, rest) = id_then(words, blank)?;
        let (object, name) = id_then(rest, blank)?;
        return Some(Said::Ref(ParsedRef {
            name: BStr::new(name),
            target,
            object: Some(object),
        }));
    }
    let text = line.strip_prefix(b"spec ")?;
    Some(Said::Spec(BStr::new(text)))
}

// Splits a text into an id and what follows the space after it; `None` if it doesn't begin so. With
// `blank`, that id is returned.
#[inline(always)]
fn id_then<'a>(text: &'a [u8], blank: Option<&ObjectId>) -> Option<(ObjectId, &'a [u8])>
    ensures { MatchOption result
        ((id rest : List ℕ) → ¬ (IsIdThen text.now id rest))
        (λ parts. (id : List ℕ) × IsIdThen text.now id parts.1.now
        × IsReadAs blank.entry id (id_bytes parts.0)) }
{
    let (word, rest) = first_word(text)?;
    let id = id_of(word, blank)?;
    Some((id, rest))
}

// Parses an id. With `blank`, the word is only checked, and that id is returned.
#[inline(always)]
fn id_of(word: &[u8], blank: Option<&ObjectId>) -> Option<ObjectId>
    ensures { MatchOption result
        ((id : List ℕ) → ¬ (IsIdText word.now id))
        (λ made. (id : List ℕ) × IsIdText word.now id × IsReadAs blank.entry id (id_bytes made)) }
{
    laws::id_or_fault(word);
    match blank {
        None => match ObjectId::from_hex(word) {
            Ok(id) => Some(id),
            Err(_) => None,
        },
        Some(id) if is_id(word) => Some(*id),
        Some(_) => None,
    }
}

// Splits a text at its first space; `None` without one.
fn first_word(text: &[u8]) -> Option<(&[u8], &[u8])>
    ensures { MatchOption result
        (Lacks space text.now)
        (λ parts. (text.now ≡ parts.0.now ++ (space ∷ parts.1.now)) × Lacks space parts.0.now) }
{
    let end = text.find_byte(b' ')?;
    let (word, back) = text.split_at(end);
    Some((word, &back[1..]))
}
