//! Laws of upstreams, for proofs: the contract of each function states a law of its arguments. A proved caller calls it to
//! get that fact. At run time it does nothing, and no other caller needs it.

ghost use Rattle.std.specs.Prelude.{map};
ghost use Rattle.bstr.specs.BStr.{bstr_bytes};
ghost use Rattle.gix_refspec_text.specs.Views.Spec.{reading_of};
ghost use Rattle.gix_refspec_remote.specs.Laws.{StoredAsMapped, TrackedAsMapped};

use bstr::BStr;
use gix_refspec_text::RefSpecRef;

/// A spec with two full names or two patterns stores a merged ref, as `upstream_of` finds it, where `map` of the spec maps
/// that; and it stores each ref that `map` maps.
pub fn stored_as_mapped(spec: &RefSpecRef<'_>, merge: BStr<'_>)
    ensures { StoredAsMapped (bstr_bytes merge.entry) (reading_of spec.now) }
{}

/// If each positive spec has two full names or two patterns, and none is asked for an excluded ref, `upstream_of` finds the
/// ref to which the first spec that maps the merged ref by `map` does.
pub fn tracked_as_mapped(specs: &[RefSpecRef<'_>], merge: BStr<'_>)
    ensures { TrackedAsMapped (bstr_bytes merge.entry) (map reading_of specs.now) }
{}
