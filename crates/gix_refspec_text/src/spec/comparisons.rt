//! Specs are compared, ordered and hashed by their instructions: a push of `main` equals one of
//! `main:main`, and a push never equals a fetch.

ghost use Rattle.std.specs.Prelude.{◌≡◌, ◌↔◌, nat_eq, refl, Some, IsTrue, fold};
ghost use Rattle.std.specs.Ordering.{nat_cmp};
ghost use Rattle.std.specs.Cmp.Lexicographic.{pointwise, slice_cmp, lists_ties, texts_ties};
ghost use Rattle.std.specs.Cmp.{partial_equiv_from_equiv, on_per, on_equiv, on_po, on_total};
ghost use Rattle.gix_refspec_text.specs.Specs.Meaning.{meaning_of};
ghost use Rattle.gix_refspec_text.specs.Specs.Order.{is_same as is_same_of, order, writes, writes_of};
ghost use Rattle.gix_refspec_text.specs.Views.Instruction.{meaning_of_instruction};
ghost use Rattle.gix_refspec_text.specs.Views.Spec.{key_of_spec, key_of_owned, reading_of, owned_reading_of};
ghost use Rattle.gix_refspec_text.specs.Laws.Order.{keys_equiv, keys_total, keys_po, meanings_alike};

use crate::spec::{RefSpec, RefSpecRef};
use crate::types::Instruction;
use std::cmp::Ordering;
use std::hash::{Hash, Hasher};

fn is_same(a: Instruction<'_>, b: Instruction<'_>) -> bool
    ensures { result ≡ is_same_of (meaning_of_instruction a.entry) (meaning_of_instruction b.entry) }
{
    a == b
}

fn compare(a: Instruction<'_>, b: Instruction<'_>) -> Ordering
    ensures { result ≡ order (meaning_of_instruction a.entry) (meaning_of_instruction b.entry) }
{
    a.cmp(&b)
}

impl<'a> PartialEq for RefSpecRef<'a> {
    ghost eq = { λ x y. pointwise (pointwise nat_eq) (key_of_spec x) (key_of_spec y) };

    ghost laws = { on_per key_of_spec (partial_equiv_from_equiv keys_equiv) };

    fn eq(&self, other: &Self) -> bool
        ensures keys { result ≡
            pointwise (pointwise nat_eq) (key_of_spec self.now) (key_of_spec other.now) }
        ensures same { IsTrue result ↔
            (meaning_of (reading_of self.now) ≡ meaning_of (reading_of other.now)) }
    {
        is_same(self.instruction(), other.instruction())
    }
}

impl<'a> Eq for RefSpecRef<'a> {
    ghost laws = { on_equiv key_of_spec keys_equiv };
}

impl<'a> PartialOrd for RefSpecRef<'a> {
    ghost partial_cmp = { λ x y. Some (slice_cmp (slice_cmp nat_cmp) (key_of_spec x) (key_of_spec y)) };

    ghost laws = { on_po key_of_spec keys_po };

    fn partial_cmp(&self, other: &RefSpecRef<'a>) -> Option<Ordering> {
        Some(self.cmp(other))
    }
}

impl<'a> Ord for RefSpecRef<'a> {
    ghost cmp = { λ x y. slice_cmp (slice_cmp nat_cmp) (key_of_spec x) (key_of_spec y) };

    ghost total = { on_total key_of_spec keys_total };

    ghost matches_partial_cmp = { λ x y. refl };

    ghost matches_eq = { λ x y. lists_ties (slice_cmp nat_cmp) texts_ties (key_of_spec x) (key_of_spec y) };

    fn cmp(&self, other: &Self) -> Ordering {
        compare(self.instruction(), other.instruction())
    }
}

impl<'a> Hash for RefSpecRef<'a> {
    ghost hash_input = { λ s. writes (meaning_of (reading_of s)) };

    ghost respects_eq = { λ x y same. meanings_alike.fed (meaning_of (reading_of x)) (meaning_of (reading_of y)) same };

    fn hash<H: Hasher>(&self, state: &mut H) {
        feed(self.instruction(), state);
    }
}

impl PartialEq for RefSpec {
    ghost eq = { λ x y. pointwise (pointwise nat_eq) (key_of_owned x) (key_of_owned y) };

    ghost laws = { on_per key_of_owned (partial_equiv_from_equiv keys_equiv) };

    fn eq(&self, other: &Self) -> bool
        ensures keys { result ≡
            pointwise (pointwise nat_eq) (key_of_owned self.now) (key_of_owned other.now) }
        ensures same { IsTrue result ↔
            (meaning_of (owned_reading_of self.now) ≡ meaning_of (owned_reading_of other.now)) }
    {
        self.to_ref() == other.to_ref()
    }
}

impl Eq for RefSpec {
    ghost laws = { on_equiv key_of_owned keys_equiv };
}

impl PartialOrd for RefSpec {
    ghost partial_cmp = { λ x y. Some (slice_cmp (slice_cmp nat_cmp) (key_of_owned x) (key_of_owned y)) };

    ghost laws = { on_po key_of_owned keys_po };

    fn partial_cmp(&self, other: &RefSpec) -> Option<Ordering> {
        Some(self.cmp(other))
    }
}

impl Ord for RefSpec {
    ghost cmp = { λ x y. slice_cmp (slice_cmp nat_cmp) (key_of_owned x) (key_of_owned y) };

    ghost total = { on_total key_of_owned keys_total };

    ghost matches_partial_cmp = { λ x y. refl };

    ghost matches_eq = { λ x y. lists_ties (slice_cmp nat_cmp) texts_ties (key_of_owned x) (key_of_owned y) };

    fn cmp(&self, other: &Self) -> Ordering {
        self.to_ref().cmp(&other.to_ref())
    }
}

impl Hash for RefSpec {
    ghost hash_input = { λ s. writes (meaning_of (owned_reading_of s)) };

    ghost respects_eq = { λ x y same. meanings_alike.fed (meaning_of (owned_reading_of x)) (meaning_of (owned_reading_of y)) same };

    fn hash<H: Hasher>(&self, state: &mut H) {
        self.to_ref().hash(state);
    }
}

// Hashes an instruction.
fn feed<H: Hasher>(a: Instruction<'_>, state: &mut H)
    ensures { state.new ≡ fold H.write state.old (writes_of (meaning_of_instruction a.entry)) }
{
    a.hash(state);
}
