//! What duplicates are found among: names, owned ones too, items by their names, and mappings by their sources and
//! destinations.

ghost use Rattle.std.specs.Cmp.{on_total};
ghost use Rattle.std.specs.Cmp.Lexicographic.{nat_list_cmp_total};
ghost use Rattle.bstr.specs.BStr.{bstr_bytes};
ghost use Rattle.bstr.specs.Owned.{bstring_bytes};
ghost use Rattle.gix_refspec_match.specs.Private.Orders.{bytes_alike, bytes_hash, bytes_order};
ghost use Rattle.std.specs.Prelude.{◌≡◌};
ghost use Rattle.gix_refspec_match.specs.Views.Mapping.{mapped_of};
ghost use Rattle.gix_refspec_match.specs.Private.Kept.{pair_hash};

use super::Element;
use crate::hashes;
use crate::types::{Item, Mapping, SourceRef};
use bstr::{BStr, BString};
use std::cmp::Ordering;
use std::hash::{FoldHasher, Hash, Hasher};

impl<'a> Element for BStr<'a> {
    ghost order = { λ x y. bytes_order (bstr_bytes x) (bstr_bytes y) };

    ghost hash = { λ seed x. bytes_hash seed (bstr_bytes x) };

    ghost total = { on_total bstr_bytes nat_list_cmp_total };

    ghost alike = { λ seed x y same. bytes_alike seed (bstr_bytes x) (bstr_bytes y) same };

    fn hash_by(&self, seed: FoldHasher) -> u64 {
        hashes::hash_by(seed, self.as_bytes())
    }

    fn compare(&self, other: &Self) -> Ordering {
        self.cmp(other)
    }
}

impl Element for BString {
    ghost order = { λ x y. bytes_order (bstring_bytes x) (bstring_bytes y) };

    ghost hash = { λ seed x. bytes_hash seed (bstring_bytes x) };

    ghost total = { on_total bstring_bytes nat_list_cmp_total };

    ghost alike = { λ seed x y same. bytes_alike seed (bstring_bytes x) (bstring_bytes y) same };

    fn hash_by(&self, seed: FoldHasher) -> u64 {
        hashes::hash_by(seed, self.as_bytes())
    }

    fn compare(&self, other: &Self) -> Ordering {
        self.as_bytes().cmp(other.as_bytes())
    }
}

// Items are compared by their names.
impl<'a> Element for Item<'a> {
    ghost order = { λ x y. bytes_order (bstr_bytes x.full_ref_name) (bstr_bytes y.full_ref_name) };

    ghost hash = { λ seed x. bytes_hash seed (bstr_bytes x.full_ref_name) };

    ghost total = { on_total (λ x. bstr_bytes x.full_ref_name) nat_list_cmp_total };

    ghost alike = { λ seed x y same. bytes_alike seed (bstr_bytes x.full_ref_name) (bstr_bytes y.full_ref_name) same };

    fn hash_by(&self, seed: FoldHasher) -> u64 {
        hashes::hash_by(seed, self.full_ref_name.as_bytes())
    }

    fn compare(&self, other: &Self) -> Ordering {
        self.full_ref_name.cmp(&other.full_ref_name)
    }

    fn equals(&self, other: &Self) -> bool {
        self.full_ref_name.as_bytes() == other.full_ref_name.as_bytes()
    }
}

// The source and the destination of a mapping.
#[derive(Clone, Copy, PartialEq, Eq, PartialOrd, Ord)]
struct Pair<'m> {
    is_id: bool,
    source: &'m [u8],
    destination: Option<&'m [u8]>,
}

impl<'m> Pair<'m> {
    ghost use Rattle.gix_refspec_match.specs.Private.Kept.{IsPairOf};

    // The pair of a mapping.
    fn of(mapping: &'m Mapping<'_, '_>) -> Pair<'m>
        ensures { IsPairOf (mapped_of mapping.now) result }
    {
        let (is_id, source) = match &mapping.lhs {
            SourceRef::FullName(name) => (false, name.as_bstr().as_bytes()),
            SourceRef::ObjectId(id) => (true, id.as_slice()),
        };
        let destination = mapping.rhs.as_ref().map(|name| name.as_bstr().as_bytes());
        Pair {
            is_id,
            source,
            destination,
        }
    }
}

// Mappings are compared by their source and then by their destination.
impl<'a, 'b> Element for Mapping<'a, 'b> {
    ghost use Rattle.std.specs.Cmp.{on_total};
    ghost use Rattle.gix_refspec_match.specs.Views.Mapping.{mapped_of};
    ghost use Rattle.gix_refspec_match.specs.Private.Kept.{pair_hash};
    ghost use Rattle.gix_refspec_match.specs.Private.Orders.{pair_alike, pair_order, pair_total};

    ghost order = { λ x y. pair_order (mapped_of x) (mapped_of y) };

    ghost hash = { λ seed x. pair_hash seed (mapped_of x) };

    ghost total = { on_total mapped_of pair_total };

    ghost alike = { λ seed x y same. pair_alike seed (mapped_of x) (mapped_of y) same };

    fn hash_by(&self, seed: FoldHasher) -> u64 {
        let mut state = seed;
        self.hash(&mut state);
        state.finish()
    }

    fn compare(&self, other: &Self) -> Ordering {
        Pair::of(self).cmp(&Pair::of(other))
    }
}
