//! What the answers of an array take of a batch.

ghost use Rattle.std.specs.Prelude.{◌≡◌, ◌++◌, ◌∷◌, [], List, Option, Some, true, false, position, drop, count_by, slice_get, option_map, option_and_then, IfOk, IsTrue, OnOk};
ghost use Rattle.std.specs.List.{list_any};
ghost use Rattle.std.specs.Option.{option_map_or};
ghost use Rattle.conversation_reading.specs.declared.entry.WrittenId.{WrittenId};
ghost use Rattle.conversation_rules.specs.Dues.{ids_read, array_fits, fits_of, fit_of, in_order, first_or_none};
ghost use Rattle.conversation_rules.specs.Matching.{taken_by, left_by, nulls_last, leaves_no_request, same_ids, is_just, is_just_due, can_be_answered};
ghost use Rattle.conversation_rules.specs.Owed.{Owed as OwedValue, is_expected, may_have};
ghost use Rattle.conversation_dues.specs.Left.{IsTaken, all_taken, are_in_line, choice, expects, ids_of, is_of, expects_any, expected_of, left_after, left_of};
ghost use Rattle.conversation_contents.specs.Left.{IsFindable, IsLeftOf, index_in, places_of};

use conversation_contents::{Due, Left, Look};
use conversation_ids::{Owed, Way, is_null};
use conversation_reading::WrittenId;
use conversation_rules::Fit;
use std::alloc::{AllocError, Global};

/// Which of the answers in an array take entries, and of which.
#[derive(Clone, Copy)]
pub(crate) enum Which {
    /// Each one takes an entry that is expected to have its id.
    Expected,
    /// Those whose id isn't null take what fits best.
    Named,
    /// Those whose id is null do.
    Nulls,
}

impl Which {
    fn is_of(self, id: &WrittenId) -> bool
        ensures { result ≡ is_of self id.now }
    {
        match self {
            Which::Expected => true,
            Which::Named => !is_null(id),
            Which::Nulls => is_null(id),
        }
    }
}

/// Whether just these ids are expected from a batch, each as often.
pub(crate) fn is_just(
    alloc: Global,
    due: &Due,
    ids: &[Option<WrittenId>],
) -> Result<bool, AllocError>
    ensures { IfOk result (λ b. b ≡ is_just (ids_read ids.now) due.now) }
{
    if !due.is_batch() {
        return Ok(false);
    }
    if is_in_line(due, ids) {
        return Ok(true);
    }
    let (entries, places) = due.placed(alloc)?;
    are_just(alloc, entries, places.as_slice(), ids)
}

/// The same of one of which an entry must be answered.
pub(crate) fn is_just_due(
    alloc: Global,
    due: &Due,
    ids: &[Option<WrittenId>],
) -> Result<bool, AllocError>
    ensures { IfOk result (λ b. b ≡ is_just_due (ids_read ids.now) due.now) }
{
    if must_be_answered(alloc, due)? {
        is_just(alloc, due, ids)
    } else {
        Ok(false)
    }
}

fn must_be_answered(alloc: Global, due: &Due) -> Result<bool, AllocError>
    ensures { IfOk result (λ b. b ≡ list_any (λ owed. owed.must) due.now.entries) }
{
    match due.in_line() {
        Some(entries) => Ok(entries.iter().any(|owed| owed.must())),
        None => any_must(alloc, due),
    }
}

fn any_must(alloc: Global, due: &Due) -> Result<bool, AllocError>
    ensures { IfOk result (λ b. b ≡ list_any (λ owed. owed.must) due.now.entries) }
{
    let (entries, places) = due.placed(alloc)?;
    Ok(any_must_at(entries, places.as_slice()))
}

fn any_must_at(entries: &[Owed], places: &[usize]) -> bool
    ensures { result ≡ list_any (λ place. option_map_or (λ owed. owed.must) (slice_get entries.now place) false) places.now }
{
    places.iter().any(|place| must_at(entries, *place))
}

/// Whether the entries stand in one list, and are those that the ids are of, one for one.
fn is_in_line(due: &Due, ids: &[Option<WrittenId>]) -> bool
    ensures { IsTrue result → same_ids (ids_read ids.now) (expected_of due.now.entries) ≡ true }
{
    match due.in_line() {
        Some(entries) => are_in_line(entries, ids),
        None => false,
    }
}

/// Whether these ids are expected from the entries at these places, each as often.
fn are_just(
    alloc: Global,
    entries: &[Owed],
    places: &[usize],
    ids: &[Option<WrittenId>],
) -> Result<bool, AllocError>
    ensures { (all : List OwedValue) → IsLeftOf (slice_get entries.now) places.now all →
        IfOk result (λ b. b ≡ same_ids (ids_read ids.now) (expected_of all)) }
{
    let mut left = Left::of(alloc, entries, places)?;
    if !take_all(Which::Expected, ids, entries, &mut left) {
        return Ok(false);
    }
    let rest = left.places(alloc)?;
    Ok(!any_expects(entries, rest.as_slice()))
}

/// Whether they are those that the entries expect, one for one, as of a side that answers in order. No index is needed then.
fn are_in_line(entries: &[Owed], ids: &[Option<WrittenId>]) -> bool
    ensures { result ≡ are_in_line entries.now ids.now }
{
    let mut left = entries;
    for id in ids {
        match behind_expected(left, id) {
            Some(rest) => left = rest,
            None => return false,
        }
    }
    left.is_empty()
}

/// The entries behind the first, where that one expects this id.
fn behind_expected<'a>(entries: &'a [Owed], id: &Option<WrittenId>) -> Option<&'a [Owed]>
    ensures { (ids : List (Option WrittenId)) → are_in_line entries.now (id.now ∷ ids) ≡
        option_map_or (λ rest. are_in_line rest.now ids) result false }
{
    match entries.split_first() {
        Some((owed, rest)) if expects(owed, id) => Some(rest),
        _ => None,
    }
}

fn expects(owed: &Owed, id: &Option<WrittenId>) -> bool
    ensures { result ≡ expects id.now owed.now }
{
    match id {
        Some(id) => owed.is_expected(id),
        None => false,
    }
}

/// Whether an answer is expected of any entry that is left.
fn any_expects(entries: &[Owed], places: &[usize]) -> bool
    ensures { result ≡ list_any (λ place. option_map_or expects_any (slice_get entries.now place) false) places.now }
{
    places.iter().any(|place| expects_at(entries, *place))
}

fn expects_at(entries: &[Owed], place: usize) -> bool
    ensures { result ≡ option_map_or expects_any (slice_get entries.now place) false }
{
    match entries.get(place) {
        Some(owed) => owed.expects_any(),
        None => false,
    }
}

/// Whether answers with these ids, and so many whose id can't be read, can be the answer of a batch.
pub(crate) fn can_be_answered(
    alloc: Global,
    due: &Due,
    ids: &[Option<WrittenId>],
    unnamed: usize,
) -> Result<bool, AllocError>
    ensures { IfOk result (λ b. b ≡ can_be_answered (ids_read ids.now) unnamed due.now) }
{
    if due.is_batch() {
        let (entries, places) = due.placed(alloc)?;
        let mut left = Left::of(alloc, entries, places.as_slice())?;
        leave_no_request(alloc, entries, &mut left, ids, unnamed)
    } else {
        Ok(false)
    }
}

fn leave_no_request(
    alloc: Global,
    entries: &[Owed],
    left: &mut Left,
    ids: &[Option<WrittenId>],
    unnamed: usize,
) -> Result<bool, AllocError>
    requires { IsFindable (slice_get entries.now) left.old }
    ensures { (all : List OwedValue) → IsLeftOf (slice_get entries.now) (places_of left.old) all →
        IfOk result (λ b. b ≡ option_map_or (leaves_no_request unnamed) (left_by (nulls_last (ids_read ids.now)) all) false) }
{
    if !take_all(Which::Named, ids, entries, left) {
        return Ok(false);
    }
    if !take_all(Which::Nulls, ids, entries, left) {
        return Ok(false);
    }
    let rest = left.places(alloc)?;
    Ok(must_count(entries, rest.as_slice()) <= unnamed)
}

/// How many of the entries that are left must be answered.
fn must_count(entries: &[Owed], places: &[usize]) -> usize
    ensures { result ≡ count_by (λ place. option_map_or (λ owed. owed.must) (slice_get entries.now place) false) places.now }
{
    places
        .iter()
        .filter(|place| must_at(entries, **place))
        .count()
}

fn must_at(entries: &[Owed], place: usize) -> bool
    ensures { result ≡ option_map_or (λ owed. owed.must) (slice_get entries.now place) false }
{
    match entries.get(place) {
        Some(owed) => owed.must(),
        None => false,
    }
}

/// Takes an entry for each of these ids. Answers whether each has one.
fn take_all(which: Which, ids: &[Option<WrittenId>], entries: &[Owed], places: &mut Left) -> bool
    requires { IsFindable (slice_get entries.now) places.old }
    ensures taken { (left : List OwedValue) → IsLeftOf (slice_get entries.now) (places_of places.old) left →
        IsTaken (slice_get entries.now) (places_of places.new) result (all_taken (choice which) (ids_of which ids.now) left) }
    ensures findable { IsFindable (slice_get entries.now) places.new }
{
    for id in ids {
        if !take_one(which, id, entries, places) {
            return false;
        }
    }
    true
}

/// Takes an entry for this id, if it is one of these. Answers whether it has one.
fn take_one(which: Which, id: &Option<WrittenId>, entries: &[Owed], places: &mut Left) -> bool
    requires { IsFindable (slice_get entries.now) places.old }
    ensures taken { (left : List OwedValue) → IsLeftOf (slice_get entries.now) (places_of places.old) left →
        IsTaken (slice_get entries.now) (places_of places.new) result (all_taken (choice which) (ids_of which (id.now ∷ [])) left) }
    ensures findable { IsFindable (slice_get entries.now) places.new }
{
    match id {
        Some(id) => !which.is_of(id) || take_chosen(which, id, entries, places),
        None => true,
    }
}

fn take_chosen(which: Which, id: &WrittenId, entries: &[Owed], places: &mut Left) -> bool
    requires { IsFindable (slice_get entries.now) places.old }
    ensures taken { (left : List OwedValue) → IsLeftOf (slice_get entries.now) (places_of places.old) left →
        IsTaken (slice_get entries.now) (places_of places.new) result (all_taken (choice which) (id.now ∷ []) left) }
    ensures findable { IsFindable (slice_get entries.now) places.new }
{
    match choice(which, id, entries, places) {
        Some(number) => {
            drop(places.take(entries, number));
            true
        }
        None => false,
    }
}

/// The number of the place that is left and that an answer with this id takes.
fn choice(which: Which, id: &WrittenId, entries: &[Owed], places: &Left) -> Option<u64>
    requires { IsFindable (slice_get entries.now) places.now }
    ensures { (left : List OwedValue) → IsLeftOf (slice_get entries.now) (places_of places.now) left →
        index_in places.now result ≡ choice which id.now left }
{
    match which {
        Which::Expected => places.first(entries, Look::Fits(Way::Expects), id),
        Which::Named | Which::Nulls => taken_by(id, entries, places),
    }
}

fn taken_by(id: &WrittenId, entries: &[Owed], places: &Left) -> Option<u64>
    requires { IsFindable (slice_get entries.now) places.now }
    ensures { (left : List OwedValue) → IsLeftOf (slice_get entries.now) (places_of places.now) left →
        index_in places.now result ≡ taken_by id.now left }
{
    match places.first(entries, Look::Fits(Way::Must), id) {
        Some(number) => Some(number),
        None => taken_rather(id, entries, places),
    }
}

/// One that is expected to have the id, rather than one that may have it.
fn taken_rather(id: &WrittenId, entries: &[Owed], places: &Left) -> Option<u64>
    requires { IsFindable (slice_get entries.now) places.now }
    ensures { (left : List OwedValue) → IsLeftOf (slice_get entries.now) (places_of places.now) left →
        index_in places.now result ≡ option_map_or Some (position (is_expected id.now) left) (position (may_have id.now) left) }
{
    match places.first(entries, Look::Fits(Way::Expects), id) {
        Some(number) => Some(number),
        None => places.first(entries, Look::Fits(Way::MayHave), id),
    }
}

/// What is told of the entries that the answers of an array take, in the order of the answers.
pub(crate) fn array_fits(
    alloc: Global,
    due: &Due,
    ids: &[Option<WrittenId>],
) -> Result<Vec<Option<Fit>>, AllocError>
    ensures { IfOk result (λ fits. fits.items ≡ array_fits ids.now due.now) }
{
    let (entries, places) = due.placed(alloc)?;
    let mut left = Left::of(alloc, entries, places.as_slice())?;
    let mut named = Vec::new(alloc);
    put_fits(Which::Named, ids, due, entries, &mut left, &mut named)?;
    let mut nulls = Vec::new(alloc);
    put_fits(Which::Nulls, ids, due, entries, &mut left, &mut nulls)?;
    in_order(alloc, ids, named.as_slice(), nulls.as_slice())
}

/// Takes an entry for each of these ids that has one, and puts behind the others what is told of it.
fn put_fits(
    which: Which,
    ids: &[Option<WrittenId>],
    due: &Due,
    entries: &[Owed],
    places: &mut Left,
    fits: &mut Vec<Option<Fit>>,
) -> Result<(), AllocError>
    requires { IsFindable (slice_get entries.now) places.old }
    ensures findable { OnOk result (IsFindable (slice_get entries.now) places.new) }
    ensures fits { OnOk result ((left : List OwedValue) → IsLeftOf (slice_get entries.now) (places_of places.old) left →
        IsLeftOf (slice_get entries.now) (places_of places.new) (left_of (ids_of which ids.now) left)
        × (fits.new.items ≡ fits.old.items ++ fits_of due.now (ids_of which ids.now) left)) }
{
    for id in ids {
        put_fit(which, id, due, entries, places, fits)?;
    }
    Ok(())
}

fn put_fit(
    which: Which,
    id: &Option<WrittenId>,
    due: &Due,
    entries: &[Owed],
    places: &mut Left,
    fits: &mut Vec<Option<Fit>>,
) -> Result<(), AllocError>
    requires { IsFindable (slice_get entries.now) places.old }
    ensures findable { OnOk result (IsFindable (slice_get entries.now) places.new) }
    ensures fits { OnOk result ((left : List OwedValue) → IsLeftOf (slice_get entries.now) (places_of places.old) left →
        IsLeftOf (slice_get entries.now) (places_of places.new) (left_of (ids_of which (id.now ∷ [])) left)
        × (fits.new.items ≡ fits.old.items ++ fits_of due.now (ids_of which (id.now ∷ [])) left)) }
{
    match id {
        Some(id) => {
            if !which.is_of(id) {
                return Ok(());
            }
            let fit = fit_taken(id, due, entries, places);
            fits.push(fit)?;
            Ok(())
        }
        None => Ok(()),
    }
}

/// Takes the entry that an answer with this id takes of those that are left, and tells of it.
fn fit_taken(id: &WrittenId, due: &Due, entries: &[Owed], places: &mut Left) -> Option<Fit>
    requires { IsFindable (slice_get entries.now) places.old }
    ensures findable { IsFindable (slice_get entries.now) places.new }
    ensures left { (left : List OwedValue) → IsLeftOf (slice_get entries.now) (places_of places.old) left →
        IsLeftOf (slice_get entries.now) (places_of places.new) (left_after (taken_by id.now left) left) }
    ensures fit { (left : List OwedValue) → IsLeftOf (slice_get entries.now) (places_of places.old) left →
        result ≡ option_and_then (λ place. option_map (fit_of due.now) (slice_get left place)) (taken_by id.now left) }
{
    match taken_by(id, entries, places) {
        Some(number) => match places.take(entries, number) {
            Some(place) => fit_at(due, entries, place),
            None => None,
        },
        None => None,
    }
}

/// What is told of the entry at this place.
fn fit_at(due: &Due, entries: &[Owed], place: usize) -> Option<Fit>
    ensures { result ≡ option_map (fit_of due.now) (slice_get entries.now place) }
{
    match entries.get(place) {
        Some(owed) => Some(due.fit_of(owed)),
        None => None,
    }
}

/// Puts what is told of the ids that aren't null, and of those that are, into the order of the answers.
fn in_order(
    alloc: Global,
    ids: &[Option<WrittenId>],
    named: &[Option<Fit>],
    nulls: &[Option<Fit>],
) -> Result<Vec<Option<Fit>>, AllocError>
    ensures { IfOk result (λ fits. fits.items ≡ in_order ids.now named.now nulls.now) }
{
    let mut fits = Vec::new(alloc);
    let (mut left_named, mut left_nulls) = (named, nulls);
    for id in ids {
        let (fit, next_named, next_nulls) = next_fit(id, left_named, left_nulls);
        fits.push(fit)?;
        left_named = next_named;
        left_nulls = next_nulls;
    }
    Ok(fits)
}

/// What is told of this answer, and of the others.
fn next_fit<'a>(
    id: &Option<WrittenId>,
    named: &'a [Option<Fit>],
    nulls: &'a [Option<Fit>],
) -> (Option<Fit>, &'a [Option<Fit>], &'a [Option<Fit>])
    ensures { (ids : List (Option WrittenId)) → in_order (id.now ∷ ids) named.now nulls.now ≡
        result.0 ∷ in_order ids result.1.now result.2.now }
{
    match id {
        Some(id) => {
            if is_null(id) {
                (first_or_none(nulls), named, behind_first(nulls))
            } else {
                (first_or_none(named), behind_first(named), nulls)
            }
        }
        None => (None, named, nulls),
    }
}

fn first_or_none(fits: &[Option<Fit>]) -> Option<Fit>
    ensures { result ≡ first_or_none fits.now }
{
    match fits.first() {
        Some(fit) => *fit,
        None => None,
    }
}

fn behind_first(fits: &[Option<Fit>]) -> &[Option<Fit>]
    ensures { result.now ≡ drop 1 fits.now }
{
    match fits.split_first() {
        Some((_, rest)) => rest,
        None => fits,
    }
}
