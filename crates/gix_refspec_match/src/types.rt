//! The items that specs match, and the mappings that they give.

ghost use Rattle.std.specs.Prelude.{◌≡◌, ◌↔◌, [], ◌∷◌, nat_eq, Some, IfOk, OnErr, IsTrue};
ghost use Rattle.std.specs.Cmp.Lexicographic.{pointwise, nat_list_eq_equiv};
ghost use Rattle.std.specs.Cmp.{partial_equiv_from_equiv, on_per, on_equiv};
ghost use Rattle.std.specs.Cmp.Rules.{hashing};
ghost use Rattle.std.proofs.Common.{rules};
ghost use Rattle.bstr.specs.BStr.{bstr_bytes};
ghost use Rattle.bstr.specs.Owned.{bstring_bytes};

use bstr::{BStr, BString};
use gix_refspec_text::oid::ObjectId;
use std::alloc::{AllocError, Global};
use std::fmt;
use std::hash::{Hash, Hasher};

/// A ref of a repository, as it is matched. Borrows all that it has.
#[derive(Clone, Copy, Debug)]
pub struct Item<'a> {
    /// The full name of the ref, like `refs/heads/main`. Any bytes will do: only `without_invalid_names` of
    /// an outcome checks it.
    pub full_ref_name: BStr<'a>,
    /// The object that the ref points to.
    pub target: &'a ObjectId,
    /// The object that was tagged, if the target is an annotated tag.
    pub object: Option<&'a ObjectId>,
}

/// The name of a ref, borrowed if an item or a spec has it, otherwise owned. Names are compared and
/// hashed by their bytes.
#[derive(Debug, Drop)]
pub enum NameRef<'a> {
    /// A name that is borrowed, from an item or from a spec.
    Borrowed(BStr<'a>),
    /// A name with bytes of its own, such as a pattern with a word for its star.
    Owned(BString),
}

impl<'a> NameRef<'a> {
    ghost use Rattle.gix_refspec_match.specs.Views.Mapping.{name_bytes, IsBorrowed, IsOwned, IsNameCopy};

    /// The bytes of the name, borrowed from it.
    pub fn as_bstr(&self) -> BStr<'_>
        ensures { bstr_bytes result ≡ name_bytes self.now }
    {
        match self {
            NameRef::Borrowed(name) => *name,
            NameRef::Owned(name) => name.as_bstr(),
        }
    }

    /// The bytes of the name, owned. Fails if memory runs out, and then the name is dropped; never for a
    /// name that is owned already.
    pub fn into_owned(self, alloc: Global) -> Result<BString, AllocError>
        ensures keeps { IfOk result (λ owned. bstring_bytes owned ≡ name_bytes self.entry) }
        ensures memory { OnErr result (IsBorrowed self.entry) }
    {
        match self {
            NameRef::Borrowed(name) => BString::from_slice(alloc, name),
            NameRef::Owned(name) => Ok(name),
        }
    }

    /// A copy of the name, which borrows what this one borrows. Fails if memory runs out; never for a
    /// name that is borrowed.
    pub fn clone(&self, alloc: Global) -> Result<NameRef<'a>, AllocError>
        ensures keeps { IfOk result (IsNameCopy self.now) }
        ensures memory { OnErr result (IsOwned self.now) }
    {
        Ok(match self {
            NameRef::Borrowed(name) => NameRef::Borrowed(*name),
            NameRef::Owned(name) => NameRef::Owned(BString::from_slice(alloc, name.as_bstr())?),
        })
    }
}

impl<'a> PartialEq for NameRef<'a> {
    ghost use Rattle.gix_refspec_match.specs.Views.Mapping.{name_bytes};

    ghost eq = { λ x y. pointwise nat_eq (name_bytes x) (name_bytes y) };

    ghost laws = { on_per name_bytes (partial_equiv_from_equiv nat_list_eq_equiv) };

    fn eq(&self, other: &Self) -> bool
        ensures test { result ≡ pointwise nat_eq (name_bytes self.now) (name_bytes other.now) }
        ensures same { IsTrue result ↔ (name_bytes self.now ≡ name_bytes other.now) }
    {
        self.as_bstr() == other.as_bstr()
    }
}

impl<'a> Eq for NameRef<'a> {
    ghost use Rattle.gix_refspec_match.specs.Views.Mapping.{name_bytes};

    ghost laws = { on_equiv name_bytes nat_list_eq_equiv };
}

impl<'a> Hash for NameRef<'a> {
    ghost use Rattle.gix_refspec_match.specs.Views.Mapping.{name_bytes};

    ghost hash_input = { λ s. name_bytes s ∷ [] };

    ghost respects_eq = { Prim.search (hashing, rules) };

    // One write, since a hasher takes many bytes at once faster than one by one.
    fn hash<H: Hasher>(&self, state: &mut H) {
        state.write(self.as_bstr().as_bytes());
    }
}

/// The source of a mapping: the left side, for a fetch and for a push.
#[derive(Debug, Drop, PartialEq, Eq, Hash)]
pub enum SourceRef<'a> {
    /// The full name of a ref. That it is one isn't checked.
    FullName(NameRef<'a>),
    /// An object that is asked for by its id. The remote may have it without a ref to it.
    ObjectId(ObjectId),
}

/// A source that borrows nothing.
pub type Source = SourceRef<'static>;

impl<'a> SourceRef<'a> {
    ghost use Rattle.gix_refspec_match.specs.Views.Mapping.{start_of, IsLent, IsOwnedSource, IsSourceCopy};

    /// The same source, owned. Fails if memory runs out, and then the source is dropped; never for a
    /// name that is owned already or for an id.
    pub fn into_owned(self, alloc: Global) -> Result<Source, AllocError>
        ensures keeps { IfOk result (λ owned. start_of owned ≡ start_of self.entry) }
        ensures memory { OnErr result (IsLent self.entry) }
    {
        Ok(match self {
            SourceRef::FullName(name) => {
                SourceRef::FullName(NameRef::Owned(name.into_owned(alloc)?))
            }
            SourceRef::ObjectId(id) => SourceRef::ObjectId(id),
        })
    }

    /// A copy of the source, which borrows what this one borrows. Fails if memory runs out; only for a
    /// name that is owned.
    pub fn clone(&self, alloc: Global) -> Result<SourceRef<'a>, AllocError>
        ensures keeps { IfOk result (IsSourceCopy self.now) }
        ensures memory { OnErr result (IsOwnedSource self.now) }
    {
        Ok(match self {
            SourceRef::FullName(name) => SourceRef::FullName(name.clone(alloc)?),
            SourceRef::ObjectId(id) => SourceRef::ObjectId(*id),
        })
    }
}

impl<'a> fmt::Display for SourceRef<'a> {
    ghost use Rattle.gix_refspec_match.specs.Views.Mapping.{text_of_source};

    ghost output = { λ s. Some (text_of_source s) };

    fn fmt<W: fmt::Write>(&self, f: &mut fmt::Formatter<W>) -> fmt::Result {
        match self {
            SourceRef::FullName(name) => name.as_bstr().fmt(f),
            SourceRef::ObjectId(id) => id.fmt(f),
        }
    }
}

/// A ref or an object, and the ref on the other side that it belongs to. Mappings are compared and
/// hashed by their source and destination alone.
#[derive(Debug, Drop)]
#[derive_where(PartialEq, Eq, Hash)]
pub struct Mapping<'a, 'b> {
    /// The index of the item that was matched. `None` for an object that is asked for by its id.
    #[derive_where(skip(EqHashOrd))]
    pub item_index: Option<usize>,
    /// The source: on the remote for a fetch, local for a push.
    pub lhs: SourceRef<'a>,
    /// The destination: local for a fetch, on the remote for a push. `None` if the spec has none.
    pub rhs: Option<NameRef<'b>>,
    /// The index of the spec among those of the group.
    #[derive_where(skip(EqHashOrd))]
    pub spec_index: usize,
}

impl<'a, 'b> Mapping<'a, 'b> {
    ghost use Rattle.gix_refspec_match.specs.Views.Mapping.{IsMappingCopy, HasOwned};

    /// A copy of the mapping, which borrows what this one borrows. Fails if memory runs out; only if a
    /// name of it is owned.
    pub fn clone(&self, alloc: Global) -> Result<Mapping<'a, 'b>, AllocError>
        ensures keeps { IfOk result (IsMappingCopy self.now) }
        ensures memory { OnErr result (HasOwned self.now) }
    {
        Ok(Mapping {
            item_index: self.item_index,
            lhs: self.lhs.clone(alloc)?,
            rhs: match &self.rhs {
                None => None,
                Some(name) => Some(name.clone(alloc)?),
            },
            spec_index: self.spec_index,
        })
    }
}
