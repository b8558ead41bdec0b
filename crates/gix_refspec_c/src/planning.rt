//! What a fetch does.

ghost use Rattle.std.specs.Prelude.{◌≡◌, ◌++◌, ◌∷◌, [], None, List, length, map, IfErr, IfOk, OnOk};
ghost use Rattle.bstr.specs.BStr.{bstr_bytes};
ghost use Rattle.gix_refspec_plan.specs.Views.Plan.{planned_of, wish_of};
ghost use Rattle.gix_refspec_c.specs.Group.{bytes_of};
ghost use Rattle.gix_refspec_c.specs.Mapping.{Entry, HasAll, Describes, described_at, described_by, text_of};
ghost use Rattle.gix_refspec_c.specs.Outcome.{Concludes};
ghost use Rattle.gix_refspec_c.specs.Planning.{Ends, IsPlan, IsUnplanned, LacksPlan, ListsPlan, forced_from, missing_entry, origin_code, spec_number, update_entry, verdict_code, wish_texts};

use crate::explanation::Text;
use crate::failure::Failure;
use crate::listing::{Listing, MappingOut, Numbers, forced_of, id_digits, index_number, write_all};
use crate::matching::items_of;
use crate::reading::read_all;
use bstr::BStr;
use gix_refspec::match_group::ref_names::InvalidSide;
use gix_refspec::oid::{Kind, ObjectId};
use gix_refspec::parsing::Operation;
use gix_refspec_plan::{Origin, Plan, Update, Verdict, Wish, plan_fetch};
use std::alloc::{AllocError, Global};

/// What a fetch is asked for, from C.
#[repr(C)]
#[derive(Clone, Copy)]
pub struct WishIn<'w, 'a> {
    /// The refspecs of the call.
    pub given: &'w [Text<'a>],
    /// The configured refspecs.
    pub configured: &'w [Text<'a>],
    /// What the current branch merges.
    pub merges: &'w [Text<'a>],
    /// 0 unless all tags are asked for.
    pub tags: u32,
}

/// What a fetch does with the refs of a remote that have these names: its updates, and behind them an
/// element for each refspec whose source the remote lacks. If there is such a refspec, the number of
/// `MissingSource` is returned, or else that of `InConflict` if some update is in conflict, with the
/// lists filled all the same. Sets `count` and `len` to the required sizes even if `mappings` or
/// `buffer` is too small, and leaves both of these unchanged then; after any other failure nothing has
/// changed.
#[unsafe(no_mangle)]
pub extern "C" fn gix_refspec_plan(
    alloc: Global,
    wish: &WishIn<'_, '_>,
    names: &[Text<'_>],
    mappings: &mut [MappingOut],
    buffer: &mut [u8],
    count: &mut usize,
    len: &mut usize,
) -> u32
    ensures { Concludes
        ((es : List Entry) × IsPlan None (wish_texts wish.now) (map bytes_of names.now) es × HasAll es
        (record { mappings = mappings.old; buffer = buffer.old; count = count.old; len = len.old })
        (record { mappings = mappings.new; buffer = buffer.new; count = count.new; len = len.new }))
        (LacksPlan (wish_texts wish.now) (map bytes_of names.now)
        (record { mappings = mappings.old; buffer = buffer.old; count = count.old; len = len.old })
        (record { mappings = mappings.new; buffer = buffer.new; count = count.new; len = len.new }))
        result }
{
    let answer = match answer_of(alloc, wish, names) {
        Ok(answer) => answer,
        Err(failure) => return failure.number(),
    };
    match write_all(&answer.listing, mappings, buffer, count, len) {
        Ok(()) => match answer.hindrance {
            None => 0,
            Some(failure) => failure.number(),
        },
        Err(failure) => failure.number(),
    }
}

// The listing of a plan, and why nothing is fetched. `None` if the plan is carried out.
#[derive(Drop)]
struct Answer {
    listing: Listing,
    hindrance: Option<Failure>,
}

// Reads what is asked for, and plans the fetch.
fn answer_of(alloc: Global, wish: &WishIn<'_, '_>, names: &[Text<'_>]) -> Result<Answer, Failure>
    ensures ok { IfOk result (λ answer. (es : List Entry) ×
        IsPlan answer.hindrance (wish_texts wish.now) (map bytes_of names.now) es ×
        Describes es answer.listing.mappings.items answer.listing.text.items) }
    ensures err { IfErr result (IsUnplanned (wish_texts wish.now)) }
{
    let given = read_all(alloc, wish.given, Operation::Fetch)?;
    let configured = match read_all(alloc, wish.configured, Operation::Fetch) {
        Ok(configured) => configured,
        Err(failure) => return Err(failure),
    };
    let merges = match merges_of(alloc, wish.merges) {
        Ok(merges) => merges,
        Err(_) => return Err(Failure::NoMemory),
    };
    let wish = Wish {
        given: given.specs.as_slice(),
        configured: configured.specs.as_slice(),
        merges: merges.as_slice(),
        tags: wish.tags != 0,
    };
    match planned(alloc, &wish, names) {
        Ok(answer) => Ok(answer),
        Err(failure) => Err(failure),
    }
}

// Plans the fetch for a wish.
fn planned(alloc: Global, wish: &Wish<'_, '_>, names: &[Text<'_>]) -> Result<Answer, Failure>
    ensures ok { IfOk result (λ answer. (es : List Entry) ×
        ListsPlan answer.hindrance (wish_of wish.now) (map bytes_of names.now) es ×
        Describes es answer.listing.mappings.items answer.listing.text.items) }
    ensures err { IfErr result (λ f. f ≡ Failure.NoMemory) }
{
    let null = ObjectId::null(Kind::Sha1);
    let items = match items_of(alloc, names, &null) {
        Ok(items) => items,
        Err(_) => return Err(Failure::NoMemory),
    };
    let plan = match plan_fetch(alloc, wish, items.as_slice()) {
        Ok(plan) => plan,
        Err(_) => return Err(Failure::NoMemory),
    };
    match listed(alloc, wish, &plan) {
        Ok(listing) => Ok(Answer {
            listing,
            hindrance: hindrance_of(&plan),
        }),
        Err(failure) => Err(failure),
    }
}

// The names of merged refs.
fn merges_of<'a>(alloc: Global, texts: &[Text<'a>]) -> Result<Vec<BStr<'a>>, AllocError>
    ensures { IfOk result (λ names. map bstr_bytes names.items ≡ map bytes_of texts.now) }
{
    let mut names = Vec::with_capacity(alloc, texts.len())?;
    for text in texts {
        names.push(BStr::new(text.bytes))?;
    }
    Ok(names)
}

// Why nothing is fetched. `None` if the plan is carried out.
fn hindrance_of(plan: &Plan<'_>) -> Option<Failure>
    ensures { Ends result (map planned_of plan.now.updates.items) plan.now.missing.items }
{
    if !plan.missing.is_empty() {
        return Some(Failure::MissingSource);
    }
    if plan.is_carried_out() {
        None
    } else {
        Some(Failure::InConflict)
    }
}

// The listing of the plan for a wish.
fn listed(alloc: Global, wish: &Wish<'_, '_>, plan: &Plan<'_>) -> Result<Listing, Failure>
    ensures ok { IfOk result (λ listing. Describes
        (map (update_entry (wish_of wish.now)) (map planned_of plan.now.updates.items) ++ map missing_entry plan.now.missing.items)
        listing.mappings.items listing.text.items) }
    ensures err { IfErr result (λ f. f ≡ Failure.NoMemory) }
{
    let mut listing = Listing::with_room(alloc, plan.updates.len())?;
    for update in &plan.updates {
        add_update(alloc, &mut listing, wish, update)?;
    }
    for origin in &plan.missing {
        add_missing(&mut listing, *origin)?;
    }
    Ok(listing)
}

// Adds an update of the plan for a wish to a listing.
fn add_update(
    alloc: Global,
    listing: &mut Listing,
    wish: &Wish<'_, '_>,
    update: &Update<'_>,
) -> Result<(), Failure>
    ensures text { OnOk result (listing.new.text.items ≡ listing.old.text.items ++
        text_of (update_entry (wish_of wish.now) (planned_of update.now))) }
    ensures described { OnOk result (map described_by listing.new.mappings.items ≡
        map described_by listing.old.mappings.items ++
        described_at (length listing.old.text.items) (update_entry (wish_of wish.now) (planned_of update.now)) ∷ []) }
    ensures err { IfErr result (λ f. f ≡ Failure.NoMemory) }
{
    let Ok(id) = id_digits(alloc, &update.source) else {
        return Err(Failure::NoMemory);
    };
    let (has_destination, made) = match &update.destination {
        None => (0, b"".as_slice()),
        Some(name) => (1, name.as_bytes()),
    };
    let numbers = Numbers {
        spec: spec_number_of(update.origin),
        item: index_number(update.item_index),
        has_destination,
        forced: forced_by_origin(wish, update.origin),
        origin: origin_number(update.origin),
        verdict: verdict_number(update.verdict),
    };
    listing.add(numbers, id.as_bytes(), made)
}

// Adds a spec whose source is missing to a listing.
fn add_missing(listing: &mut Listing, origin: Origin) -> Result<(), Failure>
    ensures text { OnOk result (listing.new.text.items ≡ listing.old.text.items ++ text_of (missing_entry origin)) }
    ensures described { OnOk result (map described_by listing.new.mappings.items ≡
        map described_by listing.old.mappings.items ++
        described_at (length listing.old.text.items) (missing_entry origin) ∷ []) }
    ensures err { IfErr result (λ f. f ≡ Failure.NoMemory) }
{
    let numbers = Numbers {
        spec: spec_number_of(origin),
        item: usize::MAX,
        has_destination: 0,
        forced: 0,
        origin: origin_number(origin),
        verdict: MISSING,
    };
    listing.add(numbers, b"", b"")
}

// The number of an origin in C.
fn origin_number(origin: Origin) -> u32
    ensures { result ≡ origin_code origin }
{
    match origin {
        Origin::Given(_) => 1,
        Origin::Configured(_) => 2,
        Origin::Merge(_) => 3,
        Origin::Default => 4,
        Origin::AllTags => 5,
    }
}

// The index of the text that an update comes from, or `usize::MAX`.
fn spec_number_of(origin: Origin) -> usize
    ensures { result ≡ spec_number origin }
{
    match origin {
        Origin::Given(index) | Origin::Configured(index) | Origin::Merge(index) => index,
        Origin::Default | Origin::AllTags => usize::MAX,
    }
}

// 1 if the spec that an update comes from allows non-fast-forward updates, else 0.
fn forced_by_origin(wish: &Wish<'_, '_>, origin: Origin) -> u32
    ensures { result ≡ forced_from (wish_of wish.now) origin }
{
    match origin {
        Origin::Given(index) => forced_of(wish.given, index),
        Origin::Configured(index) => forced_of(wish.configured, index),
        Origin::Merge(_) | Origin::Default | Origin::AllTags => 0,
    }
}

// The number of the verdict on a refspec whose source is missing.
const MISSING: u32 = 7;

// The number of a verdict in C.
fn verdict_number(verdict: Verdict) -> u32
    ensures { result ≡ verdict_code verdict }
{
    match verdict {
        Verdict::Written => 1,
        Verdict::LeftOut(InvalidSide::Source) => 2,
        Verdict::LeftOut(InvalidSide::Destination) => 3,
        Verdict::LeftOut(InvalidSide::Both) => 4,
        Verdict::InConflict => 5,
        Verdict::Overruled => 6,
        Verdict::DirectoryConflict => 8,
    }
}
