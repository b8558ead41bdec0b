//! Lists of refs, as Git prints them.

ghost use Rattle.std.specs.Prelude.{◌≡◌, ◌↔◌, ◌⊎◌, ◌++◌, ◌∷◌, [], List, ℕ, length, map, IfNone, IfOk, IfSome, IsTrue, MatchBool, OnOk};
ghost use Rattle.gix_refspec.specs.Views.Group.{ref_of};
ghost use Rattle.gix_refspec.specs.Texts.ObjectId.{digits_of, id_bytes};
ghost use Rattle.refspec_io.specs.Refs.{AddsListed, HasLast, IsIdThen, IsNoRefLine, IsOneWord, ListsNames, ListsName, bad_bytes, peeled};

use crate::input::first_record;
use bstr::{BStr, ByteSlice};
use gix_refspec::match_group::Item;
use gix_refspec::oid::{Kind, ObjectId, is_id};
use std::alloc::{AllocError, Global};

/// A record that is neither a ref nor the target of the tag before it.
#[derive(Clone, Copy, Debug)]
pub struct BadRecord<'a> {
    /// The number of the record, counted from 1.
    pub number: usize,
    pub bytes: &'a [u8],
    /// Whether it is the line of a peeled tag (`^{}`) without that tag right before it.
    pub is_peeled: bool,
}

/// The refs and the bad records of an input, each in order.
#[derive(Debug, Drop)]
pub struct RefList<'a> {
    /// The refs. Only their names are read: all have the same id, since a plan depends on names alone.
    pub items: Vec<Item<'a>>,
    pub bad: Vec<BadRecord<'a>>,
    // The id of every item.
    id: &'a ObjectId,
}

impl<'a> RefList<'a> {
    /// Reads the records of an input. The byte `end` ends each; the last may lack it. All items get `id`,
    /// whatever the records say. Names borrow the input.
    pub fn read(
        alloc: Global,
        input: &'a [u8],
        end: u8,
        id: &'a ObjectId,
    ) -> Result<RefList<'a>, AllocError>
        ensures { IfOk result (λ reported. ListsNames end input.now
            (map ref_of reported.items.items) (map bad_bytes reported.bad.items)) }
    {
        let mut reported = RefList {
            items: Vec::new(alloc),
            bad: Vec::new(alloc),
            id,
        };
        let mut number: usize = 0;
        let mut rest = input;
        while !rest.is_empty() {
            let (record, after) = first_record(rest, end);
            number = number.saturating_add(1);
            reported.add(number, record)?;
            rest = after;
        }
        Ok(reported)
    }

    // Adds a record: a ref, the target of the tag before it, or a bad record.
    fn add(&mut self, number: usize, bytes: &'a [u8]) -> Result<(), AllocError>
        ensures { OnOk result (AddsListed bytes.now
            (map ref_of self.old.items.items) (map ref_of self.new.items.items)
            (map bad_bytes self.old.bad.items) (map bad_bytes self.new.bad.items)) }
    {
        match name_of_line(bytes) {
            None => self.add_bad(BadRecord {
                number,
                bytes,
                is_peeled: false,
            }),
            Some(name) => self.add_named(number, bytes, name),
        }
    }

    // Adds a record that has an id and this name.
    fn add_named(
        &mut self,
        number: usize,
        bytes: &'a [u8],
        name: &'a [u8],
    ) -> Result<(), AllocError>
        requires { ListsName bytes.now name.now }
        ensures { OnOk result (AddsListed bytes.now
            (map ref_of self.old.items.items) (map ref_of self.new.items.items)
            (map bad_bytes self.old.bad.items) (map bad_bytes self.new.bad.items)) }
    {
        match tag_of(name) {
            None => self.add_ref(name),
            Some(tag) => self.add_peeled(number, bytes, tag),
        }
    }

    // Adds the line of a peeled tag. If the tag is the last ref so far, nothing changes; else the record is bad.
    fn add_peeled(&mut self, number: usize, bytes: &'a [u8], tag: &[u8]) -> Result<(), AllocError>
        requires { ListsName bytes.now (tag.now ++ peeled) }
        ensures { OnOk result (AddsListed bytes.now
            (map ref_of self.old.items.items) (map ref_of self.new.items.items)
            (map bad_bytes self.old.bad.items) (map bad_bytes self.new.bad.items)) }
    {
        if self.is_last(tag) {
            return Ok(());
        }
        self.add_bad(BadRecord {
            number,
            bytes,
            is_peeled: true,
        })
    }

    // Whether the last ref so far has the name.
    fn is_last(&self, name: &[u8]) -> bool
        ensures { IsTrue result ↔ HasLast (map ref_of self.now.items.items) name.now }
    {
        match self.items.last() {
            Some(last) => last.full_ref_name.as_bytes() == name,
            None => false,
        }
    }

    fn add_ref(&mut self, name: &'a [u8]) -> Result<(), AllocError>
        ensures items { OnOk result (map ref_of self.new.items.items ≡ map ref_of self.old.items.items
            ++ record { name = name.now; target = id_bytes self.old.id.now; object = None } ∷ []) }
        ensures bad { OnOk result (self.new.bad.items ≡ self.old.bad.items) }
    {
        self.items.push(Item {
            full_ref_name: BStr::new(name),
            target: self.id,
            object: None,
        })?;
        Ok(())
    }

    fn add_bad(&mut self, bad: BadRecord<'a>) -> Result<(), AllocError>
        ensures items { OnOk result (self.new.items.items ≡ self.old.items.items) }
        ensures bad { OnOk result (map bad_bytes self.new.bad.items
            ≡ map bad_bytes self.old.bad.items ++ bad_bytes bad.entry ∷ []) }
    {
        self.bad.push(bad)?;
        Ok(())
    }
}

// The name in a line, after an object id and a tab or a space. It isn't empty, and contains no white space.
fn name_of_line(line: &[u8]) -> Option<&[u8]>
    ensures some { IfSome result (λ name. ListsName line.now name.now) }
    ensures none { IfNone result (IsNoRefLine line.now) }
{
    match name_after(line, Kind::Sha1) {
        None => name_after(line, Kind::Sha256),
        found => found,
    }
}

// `name_of_line` for ids of one kind.
fn name_after(line: &[u8], kind: Kind) -> Option<&[u8]>
    ensures some { IfSome result (λ name. ListsName line.now name.now) }
    ensures none { IfNone result ((id name : List ℕ) (says : IsIdThen line.now id name)
        → ¬ (length says.digits ≡ digits_of kind)) }
{
    let len = kind.len_in_hex();
    if line.len() <= len {
        return None;
    }
    if !is_space(line[len]) {
        return None;
    }
    let (digits, back) = line.split_at(len);
    let name = &back[1..];
    if !is_one_word(name) {
        return None;
    }
    if !is_id(digits) {
        return None;
    }
    Some(name)
}

// Whether a text is accepted as a name in a line: it isn't empty, and contains no white space. The loop has no early exit, so
// that it can be vectorized.
fn is_one_word(text: &[u8]) -> bool
    ensures { MatchBool result (IsOneWord text.now) (¬ (IsOneWord text.now)) }
{
    if text.is_empty() {
        return false;
    }
    let mut has_newline = false;
    let mut has_return = false;
    let mut has_tab = false;
    let mut has_gap = false;
    for byte in text {
        has_newline |= *byte == b'\n';
        has_return |= *byte == b'\r';
        has_tab |= *byte == b'\t';
        has_gap |= *byte == b' ';
    }
    !((has_newline | has_return) | (has_tab | has_gap))
}

// The name of the tag, if the name is that of a peeled tag.
fn tag_of(name: &[u8]) -> Option<&[u8]>
    ensures some { IfSome result (λ tag. name.now ≡ tag.now ++ peeled) }
    ensures none { IfNone result ((tag : List ℕ) → ¬ (name.now ≡ tag ++ peeled)) }
{
    name.strip_suffix(b"^{}")
}

fn is_space(byte: u8) -> bool
    ensures { IsTrue result ↔ ((byte ≡ 9) ⊎ (byte ≡ 32)) }
{
    byte == b'\t' || byte == b' '
}
