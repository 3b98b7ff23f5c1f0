//! What an answer is for is settled, and told.

ghost use Rattle.std.specs.Prelude.{◌≡◌, Some, remove, is_some, option_map, IfOk, OnOk, OnErr};
ghost use Rattle.conversation_dues.specs.Found.{target_at};
ghost use Rattle.conversation_dues.specs.declared.targets.Place.TheVariants as places;
ghost use Rattle.conversation_contents.specs.Left.{index_of};
ghost use Rattle.conversation_open.specs.Open.{open_entries, contents_of, IsOpen};
ghost use Rattle.conversation_reading.specs.declared.entry.WrittenId.TheVariants.{Null};
ghost use Rattle.conversation_rules.specs.declared.found.Target.TheVariants as targets;
ghost use Rattle.conversation_rules.specs.Dues.{settled, found, unreadable_target, array_target, found_batch, settled_batch, array_fits};
ghost use Rattle.number_windows.specs.Numbered.{at};
ghost use Rattle.conversation_rules.specs.Matching.{named_target, null_target, parse_error_target};

use crate::arrays::array_fits;
use crate::batches::array_target;
use crate::targets::{Place, named_target, null_target, parse_error_target, unreadable_target};
use conversation_ids::Way;
use conversation_open::OpenContents;
use conversation_reading::WrittenId;
use conversation_rules::{Fit, Found};
use std::alloc::{AllocError, Global};

pub(crate) fn settle_named(contents: &mut OpenContents, id: &WrittenId) -> Option<Found>
    requires { IsOpen contents.old }
    ensures found { result ≡ found (named_target id.now (contents_of (open_entries contents.old))) (contents_of (open_entries contents.old)) }
    ensures settled { contents_of (open_entries contents.new) ≡
        settled (named_target id.now (contents_of (open_entries contents.old))) (contents_of (open_entries contents.old)) }
    ensures stands { IsOpen contents.new }
{
    let target = named_target(contents, id);
    settle(contents, target, id)
}

pub(crate) fn settle_null(
    contents: &mut OpenContents,
    says_invalid: bool,
    is_unsure: bool,
) -> Option<Found>
    requires { IsOpen contents.old }
    ensures found { result ≡ found (null_target says_invalid is_unsure (contents_of (open_entries contents.old))) (contents_of (open_entries contents.old)) }
    ensures settled { contents_of (open_entries contents.new) ≡
        settled (null_target says_invalid is_unsure (contents_of (open_entries contents.old))) (contents_of (open_entries contents.old)) }
    ensures stands { IsOpen contents.new }
{
    let target = null_target(contents, says_invalid, is_unsure);
    settle(contents, target, &WrittenId::Null)
}

pub(crate) fn settle_parse_error(contents: &mut OpenContents, is_unsure: bool) -> Option<Found>
    requires { IsOpen contents.old }
    ensures found { result ≡ found (parse_error_target is_unsure (contents_of (open_entries contents.old))) (contents_of (open_entries contents.old)) }
    ensures settled { contents_of (open_entries contents.new) ≡
        settled (parse_error_target is_unsure (contents_of (open_entries contents.old))) (contents_of (open_entries contents.old)) }
    ensures stands { IsOpen contents.new }
{
    let target = parse_error_target(contents, is_unsure);
    settle(contents, target, &WrittenId::Null)
}

pub(crate) fn settle_unreadable(contents: &mut OpenContents) -> bool
    requires { IsOpen contents.old }
    ensures found { result ≡ is_some (unreadable_target (contents_of (open_entries contents.old))) }
    ensures settled { contents_of (open_entries contents.new) ≡
        settled (unreadable_target (contents_of (open_entries contents.old))) (contents_of (open_entries contents.old)) }
    ensures stands { IsOpen contents.new }
{
    let target = unreadable_target(contents);
    let is_there = target.is_some();
    drop(settle(contents, target, &WrittenId::Null));
    is_there
}

/// The batch that answers are for, and of each of them which entry it takes.
pub(crate) fn settle_batch(
    alloc: Global,
    contents: &mut OpenContents,
    ids: &[Option<WrittenId>],
) -> Result<Option<Vec<Option<Fit>>>, AllocError>
    requires { IsOpen contents.old }
    ensures found { IfOk result (λ fits. option_map (λ v. v.items) fits ≡ found_batch ids.now (contents_of (open_entries contents.old))) }
    ensures settled { OnOk result (contents_of (open_entries contents.new) ≡
        settled_batch (array_target ids.now (contents_of (open_entries contents.old))) (contents_of (open_entries contents.old))) }
    ensures err { OnErr result (open_entries contents.new ≡ open_entries contents.old) }
    ensures stands { IsOpen contents.new }
{
    let number = match array_target(alloc, contents, ids)? {
        Some(number) => number,
        None => return Ok(None),
    };
    let fits = fits_at(alloc, contents, number, ids)?;
    contents.remove(number);
    Ok(fits)
}

/// Of each of these answers which entry of a batch it takes.
fn fits_at(
    alloc: Global,
    contents: &OpenContents,
    number: u64,
    ids: &[Option<WrittenId>],
) -> Result<Option<Vec<Option<Fit>>>, AllocError>
    requires { IsOpen contents.now }
    ensures { IfOk result (λ fits. option_map (λ v. v.items) fits ≡ option_map (array_fits ids.now) (at number (open_entries contents.now))) }
{
    match contents.get(number) {
        Some(due) => Ok(Some(array_fits(alloc, due, ids)?)),
        None => Ok(None),
    }
}

fn settle(contents: &mut OpenContents, target: Option<Place>, id: &WrittenId) -> Option<Found>
    requires { IsOpen contents.old }
    ensures found { result ≡ found (target_at id.now (open_entries contents.old) target) (contents_of (open_entries contents.old)) }
    ensures settled { contents_of (open_entries contents.new) ≡
        settled (target_at id.now (open_entries contents.old) target) (contents_of (open_entries contents.old)) }
    ensures stands { IsOpen contents.new }
{
    match target {
        Some(place) => settle_place(contents, place, id),
        None => None,
    }
}

fn settle_place(contents: &mut OpenContents, place: Place, id: &WrittenId) -> Option<Found>
    requires { IsOpen contents.old }
    ensures found { result ≡ found (target_at id.now (open_entries contents.old) (Some place)) (contents_of (open_entries contents.old)) }
    ensures settled { contents_of (open_entries contents.new) ≡
        settled (target_at id.now (open_entries contents.old) (Some place)) (contents_of (open_entries contents.old)) }
    ensures stands { IsOpen contents.new }
{
    match place {
        Place::EntryOf(number, way) => settle_entry(contents, number, way, id),
        Place::WholeOf(number) => settle_whole(contents, number),
    }
}

fn settle_whole(contents: &mut OpenContents, number: u64) -> Option<Found>
    requires { IsOpen contents.old }
    ensures found { result ≡ found (Some (targets.WholeOf (index_of number (open_entries contents.old)))) (contents_of (open_entries contents.old)) }
    ensures settled { contents_of (open_entries contents.new) ≡
        settled (Some (targets.WholeOf (index_of number (open_entries contents.old)))) (contents_of (open_entries contents.old)) }
    ensures stands { IsOpen contents.new }
{
    contents.remove(number);
    Some(Found::Whole)
}

fn settle_entry(contents: &mut OpenContents, number: u64, way: Way, id: &WrittenId) -> Option<Found>
    requires { IsOpen contents.old }
    ensures found { result ≡ found (target_at id.now (open_entries contents.old) (Some (places.EntryOf number way))) (contents_of (open_entries contents.old)) }
    ensures settled { contents_of (open_entries contents.new) ≡
        settled (target_at id.now (open_entries contents.old) (Some (places.EntryOf number way))) (contents_of (open_entries contents.old)) }
    ensures stands { IsOpen contents.new }
{
    match contents.settle_first(number, way, id) {
        Some(fit) => Some(Found::Entry(fit)),
        None => None,
    }
}
