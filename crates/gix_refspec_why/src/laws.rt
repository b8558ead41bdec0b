//! Laws of fates, for proofs: the contract of each function states a law of its arguments. A proved caller calls it to get
//! that fact. At run time it does nothing, and no other caller needs it.

ghost use Rattle.std.specs.Prelude.{map};
ghost use Rattle.bstr.specs.BStr.{bstr_bytes};
ghost use Rattle.gix_refspec_text.specs.Views.Spec.{reading_of};
ghost use Rattle.gix_refspec_match.specs.Views.Mapping.{ref_of};
ghost use Rattle.gix_refspec_why.specs.Laws.Why.{MappedExactly, WrittenExactly};

use bstr::BStr;
use gix_refspec::match_group::Item;
use gix_refspec_text::RefSpecRef;

/// `plan_fetch` writes a ref, of a fetch of these specs as configured ones, exactly if the remote has it and `why` gives it the
/// fate `Written` by some spec.
pub fn written_exactly(specs: &[RefSpecRef<'_>], items: &[Item<'_>], name: BStr<'_>)
    ensures { WrittenExactly (map reading_of specs.now) (map ref_of items.now) (bstr_bytes name.entry) }
{}

/// `match_lhs` of the specs, with the destinations that a fetch completes, maps a ref to a destination exactly if the remote has
/// the ref, and `why` says of some spec that it maps it there: its fate is one from `InvalidName` on.
pub fn mapped_exactly(specs: &[RefSpecRef<'_>], items: &[Item<'_>], name: BStr<'_>)
    ensures { MappedExactly (map reading_of specs.now) (map ref_of items.now) (bstr_bytes name.entry) }
{}
