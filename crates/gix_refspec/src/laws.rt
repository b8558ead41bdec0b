//! Laws, for proofs: the contract of each function states a law of its arguments. A proved caller calls
//! it to get that fact. At run time it does nothing, and no other caller needs it.

ghost use Rattle.std.specs.Prelude.{◌≡◌, ◌↔◌, map, option_map, IsTrue};
ghost use Rattle.std.specs.Ordering.{nat_cmp};
ghost use Rattle.gix_refspec_text.specs.Laws.Readings.{ReadsOrRefused, OneRefusal, ReadsBack, IsPrintedBack, KeepsOperation, SaysForOperation, EqualTexts, EqualReadings, IdOrFault, OneLowerText, NothingAgainst, OneWord, PrefixBegins, OnePrefix, Candidates, FirstCandidate, ClonesExactly};
ghost use Rattle.gix_refspec_text.specs.Laws.Sides.{SidesAgree, OneKind, OneOfEach};
ghost use Rattle.gix_refspec_text.specs.Specs.Meaning.{meaning_of};
ghost use Rattle.gix_refspec_text.specs.Texts.ObjectId.{id_bytes};
ghost use Rattle.gix_refspec_text.specs.Specs.Order.{is_same, order, rank_of, writes_of};
ghost use Rattle.gix_refspec_match.specs.Views.Mapping.{mapped_of, name_bytes, ref_of, start_of};
ghost use Rattle.gix_refspec.specs.Views.Group.{readings_of};
ghost use Rattle.gix_refspec_match.specs.Matching.Mappings.{IsSamePair};
ghost use Rattle.gix_refspec_match.specs.Matching.Hits.{KeptOnce, OneForward, OneBackward};
ghost use Rattle.gix_refspec.specs.Laws.Matching.{Transpose, KeptExactly, FirstStays, NothingExcluded, MapAlike, FetchGroupReadsBack, EqualGroups, AreFetches, Cover, CoverTogether};
ghost use Rattle.gix_refspec.specs.Laws.Items.{AskedItems, FewerItems, FilteredItems, ListedItems, FilteredByEntries, FilteredByList, NamesDecide, NamesDecideBack};
ghost use Rattle.gix_refspec.specs.Matching.Validation.{ForwardFits, ItemIndexesFit, ValidatedOnce};
ghost use Rattle.gix_refspec.specs.Laws.Validation.{OneValidation, CopiedOutcome};
ghost use Rattle.gix_refspec.specs.Views.Issue.{IsSameFix, conflict_of, mappings_of};
ghost use Rattle.gix_refspec_text.specs.Views.Errors.{IsSameError};
ghost use Rattle.gix_refspec.specs.Matching.RefNames.{WritesRefs};
ghost use Rattle.gix_refspec.specs.Laws.Indexes.{MadeAtIndexes, RemainsExactly};
ghost use Rattle.gix_refspec.specs.Laws.Plans.{NoControlCharacter, PlansApart};
ghost use Rattle.gix_refspec.specs.Laws.Reasons.{ReasonRefuses};
ghost use Rattle.gix_refspec.specs.Laws.Names.{PlainNames};
ghost use Rattle.gix_refspec_text.specs.Views.Spec.{reading_of, owned_reading_of};
ghost use Rattle.gix_refspec_text.specs.Views.Instruction.{meaning_of_instruction, meaning_of_fetch, meaning_of_push};
ghost use Rattle.gix_refspec_match.specs.Views.Hashed.{source_writes, pair_writes};

use crate::match_group::ref_names::InvalidSide;
use crate::match_group::validate::{Fix, Issue};
use crate::match_group::{Item, Mapping, NameRef, Outcome, SourceRef, match_lhs};
use crate::{Instruction, MatchGroup, RefSpec, RefSpecRef, name, oid, parsing};
use gix_refspec_text::instruction::{Fetch, Push};
use gix_refspec_text::name::PatternError;
use gix_refspec_text::oid::{Kind, ObjectId};
use gix_refspec_text::parsing::Operation;
use std::hash::Hash;

/// A text has exactly one reading, or it is refused.
pub fn reads_or_refused(operation: Operation, text: &[u8])
    ensures { ReadsOrRefused operation text.now }
{}

/// A text is refused for one reason. For an invalid name any of its faults may be reported.
pub fn one_refusal(operation: Operation, text: &[u8])
    ensures { OneRefusal operation text.now }
{}

/// A text is refused for the first reason that applies to its parts.
pub fn reason_refuses(operation: Operation, text: &[u8])
    ensures { ReasonRefuses operation text.now }
{}

/// The reading of a text is for the operation that the text was read for.
pub fn keeps_operation(operation: Operation, text: &[u8])
    ensures { KeepsOperation operation text.now }
{}

/// The reading of a text has a canonical text, which has exactly one reading, with the same meaning.
pub fn reads_back(operation: Operation, text: &[u8])
    ensures { ReadsBack operation text.now }
{}

/// Two texts that are read for one operation mean the same exactly if their canonical texts are equal.
pub fn equal_texts(operation: Operation, a: &[u8], b: &[u8])
    ensures { EqualTexts operation a.now b.now }
{}

/// Two specs are equal exactly if they are for one operation and have the same canonical text.
pub fn equal_specs<'a>(a: &RefSpecRef<'a>, b: &RefSpecRef<'_>)
    ensures same { IsTrue (⟦<RefSpecRef<'a> as PartialEq>⟧.eq a.now b.now) ↔
        (meaning_of (reading_of a.now) ≡ meaning_of (reading_of b.now)) }
    ensures text { EqualReadings (reading_of a.now) (reading_of b.now) }
{}

/// As `equal_specs`, of owned specs.
pub fn equal_owned_specs(a: &RefSpec, b: &RefSpec)
    ensures same { IsTrue (⟦<RefSpec as PartialEq>⟧.eq a.now b.now) ↔
        (meaning_of (owned_reading_of a.now) ≡ meaning_of (owned_reading_of b.now)) }
    ensures text { EqualReadings (owned_reading_of a.now) (owned_reading_of b.now) }
{}

/// A spec has a canonical text, which has exactly one reading, with the same meaning.
pub fn spec_reads_back(spec: &RefSpecRef<'_>)
    ensures { IsPrintedBack (reading_of spec.now).operation (reading_of spec.now) }
{}

/// As `spec_reads_back`, of an owned spec.
pub fn owned_spec_reads_back(spec: &RefSpec)
    ensures { IsPrintedBack (owned_reading_of spec.now).operation (owned_reading_of spec.now) }
{}

/// The instruction of a spec is for the operation of the spec.
pub fn says_for_operation(spec: &RefSpecRef<'_>)
    ensures { SaysForOperation (reading_of spec.now) }
{}

/// Each side of a spec has at most one star. If it has two sides, both have a star or neither has.
pub fn sides_agree(spec: &RefSpecRef<'_>)
    ensures { SidesAgree (reading_of spec.now) }
{}

/// As `sides_agree`, of an owned spec.
pub fn owned_sides_agree(spec: &RefSpec)
    ensures { SidesAgree (owned_reading_of spec.now) }
{}

/// A text spells exactly one id, or has exactly one fault; never both.
pub fn id_or_fault(text: &[u8])
    ensures { IdOrFault text.now }
{}

/// An id prints as its one text in lower case, from which the same id is read.
pub fn one_lower_text(id: ObjectId)
    ensures { OneLowerText (id_bytes id) }
{}

/// A text is a ref name, as `name_partial` checks it, if no component between its slashes is empty, and
/// no byte is a control character, a space or one of `~^:?[\*.{`. The law covers all such texts, but
/// not all ref names: `v1.0` is one too. So a proof that writes out a name, as `refs/heads/main`, shows
/// by computing that it is valid.
pub fn plain_names()
    ensures { PlainNames }
{}

/// A valid pattern is refused only if it has more than 256 bytes and memory runs out.
pub fn nothing_against(pattern: &[u8])
    ensures { NothingAgainst pattern.now }
{}

/// A pattern's star matches at most one word of a name.
pub fn one_word(before: &[u8], after: &[u8], name: &[u8])
    ensures { OneWord before.now after.now name.now }
{}

/// A side has at most one kind: a pattern, a full name, an object id, or a partial name.
pub fn one_kind(side: &[u8])
    ensures { OneKind side.now }
{}

/// For all bytes: a side has at most one kind, a pattern's star matches at most one word of a name, and
/// a text spells at most one id. `one_kind`, `one_word` and `id_or_fault` say so of given slices.
pub fn one_of_each()
    ensures { OneOfEach }
{}

/// Each ref that a side matches begins with the prefix of the side, except for the side `HEAD`.
pub fn prefix_begins(side: &[u8])
    ensures { PrefixBegins side.now }
{}

/// A side has at most one prefix and one expansion.
pub fn one_prefix(side: &[u8])
    ensures { OnePrefix side.now }
{}

/// A side without a star that isn't `HEAD`, doesn't begin `refs/` and isn't an id expands to its six
/// candidates, and matches exactly the refs with one of these names. As the source of a spec, over a
/// list of one ref, it takes this ref exactly if its name is one of them.
pub fn candidates(side: &[u8])
    ensures { Candidates side.now }
{}

/// Among items, a source without a star that doesn't begin `refs/` and isn't an id takes exactly those
/// whose name is the first of its candidates that some item has. There is at most one such name, and
/// there is one if some item has a candidate as its name.
pub fn first_candidate(side: &[u8], items: &[Item<'_>])
    ensures { FirstCandidate side.now (map ref_of items.now) }
{}

/// A group and items have at most one list of kept mappings from left to right: the contract of
/// `match_lhs` determines what it lists.
pub fn one_forward(group: &MatchGroup<'_>, items: &[Item<'_>])
    ensures { OneForward (readings_of group.now) (map ref_of items.now) }
{}

/// As `one_forward`, from right to left: the contract of `match_rhs` determines what it lists.
pub fn one_backward(group: &MatchGroup<'_>, items: &[Item<'_>])
    ensures { OneBackward (readings_of group.now) (map ref_of items.now) }
{}

/// No two mappings that are kept have the same source and the same destination, in either direction.
pub fn kept_once(group: &MatchGroup<'_>, items: &[Item<'_>])
    ensures { KeptOnce (readings_of group.now) (map ref_of items.now) }
{}

/// Both directions agree if each positive spec with two sides has two patterns, or two sides that begin
/// `refs/`: between the names of `left` and of `right`, `match_lhs` over `left` maps the same pairs as
/// `match_rhs` over `right`.
pub fn transpose(group: &MatchGroup<'_>, left: &[Item<'_>], right: &[Item<'_>])
    ensures { Transpose (readings_of group.now) (map ref_of left.now) (map ref_of right.now) }
{}

/// A pair is kept exactly if some spec makes it and no spec excludes its source: from left to right of
/// an item that the source takes, or of an id; from right to left of an item that the destination
/// matches.
pub fn kept_exactly(group: &MatchGroup<'_>, items: &[Item<'_>])
    ensures { KeptExactly (readings_of group.now) (map ref_of items.now) }
{}

/// In both directions: of the mappings with the same source and destination only the first is kept,
/// with its indexes, if no negative spec excludes its source.
pub fn first_stays(group: &MatchGroup<'_>, items: &[Item<'_>])
    ensures { FirstStays (readings_of group.now) (map ref_of items.now) }
{}

/// In both directions: no kept mapping has a source that a negative spec excludes, and no spec excludes
/// an id.
pub fn nothing_excluded(group: &MatchGroup<'_>, items: &[Item<'_>])
    ensures { NothingExcluded (readings_of group.now) (map ref_of items.now) }
{}

/// A group of fetches and the group read from its canonical texts map alike, in both directions and
/// over all items.
pub fn fetch_group_reads_back(group: &MatchGroup<'_>, again: &MatchGroup<'_>, items: &[Item<'_>])
    ensures { FetchGroupReadsBack
        (readings_of group.now) (readings_of again.now) (map ref_of items.now) }
{}

/// Two groups of fetches that are equal by `==`, spec by spec, map alike: in both directions and over
/// all items. Only the force of a spec without a destination may differ.
pub fn equal_groups<'a>(group: &MatchGroup<'a>, other: &MatchGroup<'a>, items: &[Item<'_>])
    ensures meaning { EqualGroups
        (readings_of group.now) (readings_of other.now) (map ref_of items.now) }
    ensures equal { IsTrue (⟦<Vec<RefSpecRef<'a>> as PartialEq>⟧.eq group.now.specs other.now.specs) →
        AreFetches (readings_of group.now) →
        MapAlike (readings_of group.now) (readings_of other.now) (map ref_of items.now) }
{}

/// Each name that a fetch of a group maps from left to right begins with an entry of the expansion of
/// this spec, whatever the other specs are, and so with one of the expansion of the group. The source
/// has to begin `refs/` and have a prefix, or to be a partial name other than `HEAD`, or an id. A
/// source `HEAD` covers only the name `HEAD`: it takes `refs/heads/HEAD` too if there is no `HEAD`.
pub fn cover(group: &MatchGroup<'_>, items: &[Item<'_>])
    ensures some { Cover (readings_of group.now) (map ref_of items.now) }
    ensures together { CoverTogether (readings_of group.now) (map ref_of items.now) }
{}

/// Items that no spec takes may be left out: over a subset of the items with each one that some spec
/// takes, the same pairs are kept, in both directions. What a partial source takes is decided among all
/// items.
pub fn fewer_items(group: &MatchGroup<'_>, items: &[Item<'_>], part: &[Item<'_>])
    ensures kept { FewerItems (readings_of group.now) (map ref_of items.now) (map ref_of part.now) }

    // A filter that passes each item that some spec takes gives such a subset.
    ensures filtered { FilteredItems (readings_of group.now) items.now part.now }
{}

/// From left to right only the names of refs decide what is kept: refs with the same names have the
/// same mappings. So a caller of `match_lhs` needs no ids of refs.
pub fn names_decide(group: &MatchGroup<'_>, items: &[Item<'_>])
    ensures { NamesDecide (readings_of group.now) (map ref_of items.now) }
{}

/// As `names_decide`, from right to left, if no destination is an id: an id matches the ids of refs.
pub fn names_decide_back(group: &MatchGroup<'_>, items: &[Item<'_>])
    ensures { NamesDecideBack (readings_of group.now) (map ref_of items.now) }
{}

/// A client that lists only the refs whose names begin with an entry of the expansion of a group loses
/// no pair of a spec whose source is as `cover` asks, or is `HEAD` if there is such a ref. If each spec
/// is one of these or negative, the same pairs are kept.
pub fn listed_items(group: &MatchGroup<'_>, items: &[Item<'_>], listed: &[Item<'_>])
    ensures kept { ListedItems
        (readings_of group.now) (map ref_of items.now) (map ref_of listed.now) }

    // A filter by these entries gives such a list.
    ensures filtered { FilteredByEntries (readings_of group.now) items.now listed.now }
{}

/// A client that lists only the refs whose names begin with an entry of `ref_prefixes` of a group of
/// fetches loses no pair, and gets no other: over these and over all items the same pairs are kept.
pub fn asked_items(group: &MatchGroup<'_>, items: &[Item<'_>], asked: &[Item<'_>])
    ensures kept { AskedItems (readings_of group.now) (map ref_of items.now) (map ref_of asked.now) }

    // A filter by these entries gives such a list.
    ensures filtered { FilteredByList items.now asked.now }
{}

/// The `spec_index` of each mapping of `match_lhs` is that of a spec of the group: the condition of
/// `validated`.
pub fn forward_fits(group: &MatchGroup<'_>, items: &[Item<'_>])
    ensures { ForwardFits (readings_of group.now) (map ref_of items.now) }
{}

/// The indexes of a kept mapping are those of a spec of the group and of an item, whose name is the
/// source, or from right to left the destination; only the mapping of an id has no item. The same holds
/// of the mappings that survive a validation.
pub fn item_indexes_fit(group: &MatchGroup<'_>, items: &[Item<'_>])
    ensures { ItemIndexesFit (readings_of group.now) (map ref_of items.now) }
{}

/// Each kept mapping is made by the spec at its index: of the item at its index, or, without an item,
/// of an id that the spec asks for. From right to left each mapping has an item.
pub fn made_at_indexes(group: &MatchGroup<'_>, items: &[Item<'_>])
    ensures { MadeAtIndexes (readings_of group.now) (map ref_of items.now) }
{}

/// A mapping survives a validation exactly if its destination begins `refs/`, is `HEAD` or is missing,
/// and `without_invalid_names` exactly if neither side is an invalid ref name.
pub fn remains_exactly(outcome: &match_lhs::Outcome<'_, '_>)
    ensures { RemainsExactly (readings_of outcome.now.group) (mappings_of outcome.now) }
{}

/// After a validation, mappings with the same destination have the same source. If the mappings came
/// from `match_lhs`, no two have the same destination.
pub fn validated_once(group: &MatchGroup<'_>, items: &[Item<'_>])
    ensures { ValidatedOnce (readings_of group.now) (map ref_of items.now) }
{}

/// For all groups and items: if the outcome of `match_lhs` is validated, no two of the remaining
/// mappings have the same destination, or are the same pair, and no two fixes have the same
/// destination. Mappings of one spec and one item have one source. So a caller that writes them out,
/// with their indexes, writes no duplicates.
pub fn plans_apart()
    ensures { PlansApart }
{}

/// For all texts: neither a side of the fetch that a text is read as, nor its canonical text, contains
/// a byte below 32. So no mapping of `match_lhs` contains one, if no name of an item does.
pub fn no_control_character()
    ensures { NoControlCharacter }
{}

/// An outcome has at most one list of conflicts, one of survivors and one of fixes: the contract of
/// `validated` determines what it returns.
pub fn one_validation(outcome: &match_lhs::Outcome<'_, '_>)
    ensures { OneValidation (readings_of outcome.now.group) (mappings_of outcome.now) }
{}

/// An outcome and its `clone` have the same specs and the same mappings. So both have the same
/// conflicts, survivors and fixes.
pub fn copied_outcome<'a, 'b, 'c, const FORWARD: bool>(
    outcome: &Outcome<'a, 'b, 'c, FORWARD>,
    copy: &Outcome<'a, 'b, 'c, FORWARD>,
)
    ensures { CopiedOutcome outcome.now copy.now }
{}

/// After `validated` and `without_invalid_names`, in either order, each destination is a valid ref
/// name: it is `HEAD` or begins `refs/`, no component of it is empty or begins with a dot, as `..`
/// does, and no byte of it is a control character. If the mappings came from `match_lhs`, no two have
/// the same destination. What `without_invalid_names` keeps has its indexes unchanged: so `validated`
/// may be called.
pub fn writes_refs(group: &MatchGroup<'_>, items: &[Item<'_>])
    ensures { WritesRefs (readings_of group.now) (map ref_of items.now) }
{}

/// Two issues are equal exactly if they report the same conflict.
pub fn equal_issues(a: &Issue, b: &Issue)
    ensures { IsTrue (⟦<Issue as PartialEq>⟧.eq a.now b.now) ↔
        (conflict_of a.now ≡ conflict_of b.now) }
{}

/// Two fixes are equal exactly if they have the same destination, and specs with the same meaning.
pub fn equal_fixes(a: &Fix, b: &Fix)
    ensures { IsTrue (⟦<Fix as PartialEq>⟧.eq a.now b.now) ↔ IsSameFix a.now b.now }
{}

/// Two sources are equal exactly if they are the same name or the same id.
pub fn equal_sources<'a>(a: &SourceRef<'a>, b: &SourceRef<'a>)
    ensures { IsTrue (⟦<SourceRef<'a> as PartialEq>⟧.eq a.now b.now) ↔
        (start_of a.now ≡ start_of b.now) }
{}

/// Two mappings are equal exactly if they have the same source and the same destination, whatever their
/// indexes are.
pub fn equal_mappings<'a, 'b>(a: &Mapping<'a, 'b>, b: &Mapping<'a, 'b>)
    ensures { IsTrue (⟦<Mapping<'a, 'b> as PartialEq>⟧.eq a.now b.now) ↔
        IsSamePair (mapped_of a.now) (mapped_of b.now) }
{
    equal_sources(&a.lhs, &b.lhs);
    equal_destinations(&a.rhs, &b.rhs);
}

// Two destinations are equal exactly if both are present with the same bytes, or both are missing.
fn equal_destinations<'a>(a: &Option<NameRef<'a>>, b: &Option<NameRef<'a>>)
    ensures { IsTrue (⟦<Option<NameRef<'a>> as PartialEq>⟧.eq a.now b.now) ↔
        (option_map name_bytes a.now ≡ option_map name_bytes b.now) }
{}

/// Two invalid sides are equal exactly if they are the same variant.
pub fn equal_invalid_sides(a: InvalidSide, b: InvalidSide)
    ensures { IsTrue (⟦<InvalidSide as PartialEq>⟧.eq a b) ↔ (a ≡ b) }
{}

/// Two kinds of ids are equal exactly if they are the same.
pub fn equal_kinds(a: Kind, b: Kind)
    ensures { IsTrue (⟦<Kind as PartialEq>⟧.eq a b) ↔ (a ≡ b) }
{}

/// Two faults of ids are equal exactly if they are the same variant with equal fields.
pub fn equal_id_faults(a: oid::Error, b: oid::Error)
    ensures { IsTrue (⟦<oid::Error as PartialEq>⟧.eq a b) ↔ (a ≡ b) }
{}

/// Two faults of names are equal exactly if they are the same variant with equal fields.
pub fn equal_name_faults(a: name::Error, b: name::Error)
    ensures { IsTrue (⟦<name::Error as PartialEq>⟧.eq a b) ↔ (a ≡ b) }
{}

/// Two refusals of texts are equal exactly if they are the same variant with equal fields.
pub fn equal_errors(a: &parsing::Error, b: &parsing::Error)
    ensures { IsTrue (⟦<parsing::Error as PartialEq>⟧.eq a.now b.now) ↔ IsSameError a.now b.now }
{}

/// Two faults of patterns are equal exactly if they are the same variant with equal fields.
pub fn equal_pattern_errors(a: PatternError, b: PatternError)
    ensures { IsTrue (⟦<PatternError as PartialEq>⟧.eq a b) ↔ (a ≡ b) }
{}

/// A clone of any value of these types never fails, and is that value.
pub fn same_clones<'a>()
    ensures operation { ClonesExactly ⟦<Operation as Clone>⟧.is_clone ⟦<Operation as Clone>⟧.is_infallible }
    ensures push { ClonesExactly ⟦<Push<'a> as Clone>⟧.is_clone ⟦<Push<'a> as Clone>⟧.is_infallible }
    ensures fetch { ClonesExactly ⟦<Fetch<'a> as Clone>⟧.is_clone ⟦<Fetch<'a> as Clone>⟧.is_infallible }
    ensures instruction { ClonesExactly
        ⟦<Instruction<'a> as Clone>⟧.is_clone ⟦<Instruction<'a> as Clone>⟧.is_infallible }
    ensures spec { ClonesExactly
        ⟦<RefSpecRef<'a> as Clone>⟧.is_clone ⟦<RefSpecRef<'a> as Clone>⟧.is_infallible }
    ensures item { ClonesExactly ⟦<Item<'a> as Clone>⟧.is_clone ⟦<Item<'a> as Clone>⟧.is_infallible }
    ensures invalid_side { ClonesExactly ⟦<InvalidSide as Clone>⟧.is_clone ⟦<InvalidSide as Clone>⟧.is_infallible }
    ensures kind { ClonesExactly ⟦<Kind as Clone>⟧.is_clone ⟦<Kind as Clone>⟧.is_infallible }
    ensures id { ClonesExactly ⟦<ObjectId as Clone>⟧.is_clone ⟦<ObjectId as Clone>⟧.is_infallible }
    ensures id_fault { ClonesExactly
        ⟦<oid::Error as Clone>⟧.is_clone ⟦<oid::Error as Clone>⟧.is_infallible }
    ensures name_fault { ClonesExactly
        ⟦<name::Error as Clone>⟧.is_clone ⟦<name::Error as Clone>⟧.is_infallible }
    ensures pattern_error { ClonesExactly
        ⟦<PatternError as Clone>⟧.is_clone ⟦<PatternError as Clone>⟧.is_infallible }
{}

/// Two operations are equal exactly if they are the same, and a push is less than a fetch.
pub fn push_before_fetch(a: Operation, b: Operation)
    ensures order { ⟦<Operation as Ord>⟧.cmp a b ≡ nat_cmp (rank_of a) (rank_of b) }
    ensures same { IsTrue (⟦<Operation as PartialEq>⟧.eq a b) ↔ (a ≡ b) }
{}

/// Two pushes are equal, and ordered, by their variant and then their fields.
pub fn compared_pushes<'a>(a: Push<'a>, b: Push<'a>)
    ensures order { ⟦<Push<'a> as Ord>⟧.cmp a.entry b.entry ≡
        order (meaning_of_push a.entry) (meaning_of_push b.entry) }
    ensures same { ⟦<Push<'a> as PartialEq>⟧.eq a.entry b.entry ≡
        is_same (meaning_of_push a.entry) (meaning_of_push b.entry) }
{}

/// Two fetches are equal, and ordered, by their variant and then their fields.
pub fn compared_fetches<'a>(a: Fetch<'a>, b: Fetch<'a>)
    ensures order { ⟦<Fetch<'a> as Ord>⟧.cmp a.entry b.entry ≡
        order (meaning_of_fetch a.entry) (meaning_of_fetch b.entry) }
    ensures same { ⟦<Fetch<'a> as PartialEq>⟧.eq a.entry b.entry ≡
        is_same (meaning_of_fetch a.entry) (meaning_of_fetch b.entry) }
{}

/// Two instructions are equal, and ordered, by their operation, their variant and then their fields.
pub fn compared_instructions<'a>(a: Instruction<'a>, b: Instruction<'a>)
    ensures order { ⟦<Instruction<'a> as Ord>⟧.cmp a.entry b.entry ≡
        order (meaning_of_instruction a.entry) (meaning_of_instruction b.entry) }
    ensures same { ⟦<Instruction<'a> as PartialEq>⟧.eq a.entry b.entry ≡
        is_same (meaning_of_instruction a.entry) (meaning_of_instruction b.entry) }
{}

/// Hashing an instruction writes its operation, its variant and then its fields. So equal instructions
/// are hashed alike.
pub fn hashed_instructions<'a>(a: Instruction<'a>, b: Instruction<'a>)
    ensures writes { ⟦<Instruction<'a> as Hash>⟧.hash_input a.entry ≡ writes_of (meaning_of_instruction a.entry) }
    ensures alike { IsTrue (⟦<Instruction<'a> as PartialEq>⟧.eq a.entry b.entry) →
        ⟦<Instruction<'a> as Hash>⟧.hash_input a.entry ≡
        ⟦<Instruction<'a> as Hash>⟧.hash_input b.entry }
{}

/// Hashing a source writes whether it is a name or an id, and then its bytes. So equal sources are hashed
/// alike.
pub fn hashed_sources<'a>(a: &SourceRef<'a>, b: &SourceRef<'a>)
    ensures writes { ⟦<SourceRef<'a> as Hash>⟧.hash_input a.now ≡ source_writes (start_of a.now) }
    ensures alike { IsTrue (⟦<SourceRef<'a> as PartialEq>⟧.eq a.now b.now) →
        ⟦<SourceRef<'a> as Hash>⟧.hash_input a.now ≡ ⟦<SourceRef<'a> as Hash>⟧.hash_input b.now }
{
    equal_sources(a, b);
}

/// Hashing a mapping writes its source and its destination alone, not its indexes. So equal mappings
/// are hashed alike.
pub fn hashed_mappings<'a, 'b>(a: &Mapping<'a, 'b>, b: &Mapping<'a, 'b>)
    ensures writes { ⟦<Mapping<'a, 'b> as Hash>⟧.hash_input a.now ≡ pair_writes (mapped_of a.now) }
    ensures alike { IsTrue (⟦<Mapping<'a, 'b> as PartialEq>⟧.eq a.now b.now) →
        ⟦<Mapping<'a, 'b> as Hash>⟧.hash_input a.now ≡
        ⟦<Mapping<'a, 'b> as Hash>⟧.hash_input b.now }
{
    equal_mappings(a, b);
}
