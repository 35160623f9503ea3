//! Judging all rules of a snapshot, and making the atlas that it describes.
//!
//! Definitions: `Snapshots`, and `StandsFor` for the rules. Steps are linear in the number of records, and so is the
//! time, but for a sort of the shelves in use.

ghost use Rattle.std.specs.Prelude.{◌≡◌, ◌+◌, ◌*◌, ◌≤◌, IfErr, IfOk, OnOk, length};
ghost use Rattle.etagere_base.specs.Frames.{HasAllColumns, IsFrame, longest_side};
ghost use Rattle.shelf_records.specs.RecordLists.{shelf_walk};
ghost use Rattle.shelf_model.specs.Atlas.{KeepsPromises};
ghost use Rattle.shelf_heights.specs.Private.ByHeight.{AreByHeight};
ghost use Rattle.shelf_records.specs.AtlasRecords.{state_spelled};
ghost use Rattle.shelf_records.specs.Private.Kept.{AreKept};
ghost use Rattle.shelf_records.specs.Private.Restoring.{HasLists, IsWalked};
ghost use Rattle.shelf_restoring.specs.RestoringSteps.{IsFollowed, StopsAfter, links_followed, links_of_all};
ghost use Rattle.shelf_records.specs.Snapshots.{IsBroken, snapshot_records};
ghost use Rattle.shelf_records.specs.StandsFor.{HasCounts, StandsFor};
ghost use Rattle.shelf_model.specs.State.{items_in_use};

use crate::atlas::AtlasAllocator;
use etagere_base::{Frame, RestoreFault};
use shelf_heights::by_height::ShelvesByHeight;
use shelf_records::Records;
use shelf_restoring::loaded_atlas::LoadedAtlas;
use shelf_restoring::rules::judge_rules;
use shelf_restoring::walked_lists::walked_shelves;
use shelf_restoring::walking::{WalkedRecords, walk_records};
use shelf_store::settling::noting::{settled_notes, unknown_seconds};
use shelf_store::starting::newly_bounded;
use snapshot_records::shelves::AtlasSnapshot;
use std::alloc::{AllocError, Global};

/// The shelves in use, by height, where walks have met them.
fn shelves_by_height(
    alloc: Global,
    frame: &Frame,
    records: &Records,
    numbers: &[u16],
) -> Result<ShelvesByHeight, AllocError>
    requires kept { AreKept frame.now records.now }
    requires met { numbers.now ≡ (shelf_walk records.now).met }
    ensures by_height { IfOk result (λ by_height. AreByHeight frame.now records.now by_height.items) }
    ensures room { IfOk result (λ by_height. length records.now.shelves ≤ by_height.capacity) }
{
    let mut by_height = ShelvesByHeight::with_room(alloc, records.shelves().len())?;
    for number in numbers {
        by_height.push(newly_bounded(frame, usize::from(*number)));
    }
    by_height.sort_by_keys(alloc, records.shelves())?;
    Ok(by_height)
}

/// Judges the rules of an atlas over what walks have met.
fn judge_walked(
    alloc: Global,
    atlas: &LoadedAtlas,
    walked: &WalkedRecords,
) -> Result<(), RestoreFault>
    requires frame { IsFrame longest_side atlas.now.frame }
    requires columns { HasAllColumns atlas.now.frame }
    requires counts { HasCounts atlas.now }
    requires walked { IsWalked atlas.now }
    requires lists { HasLists atlas.now walked.now.shelves.items walked.now.items.met.items
        walked.now.items.counts.items walked.now.free_lists.met.items walked.now.free_lists.counts.items
        walked.now.unused.items }
    ensures ok { OnOk result (StandsFor atlas.now (state_spelled atlas.now)) }
    ensures fault { IfErr result (IsBroken atlas.now) }
{
    let Ok(entries) = walked_shelves(alloc, &walked.shelves, &walked.items, &walked.free_lists)
    else {
        return Err(RestoreFault::Memory);
    };
    judge_rules(alloc, atlas, &entries, &walked.unused)
}

/// Follows all links of an atlas and judges its rules; returns what walks have met.
fn judge_atlas(
    alloc: Global,
    atlas: &LoadedAtlas,
    steps: &mut u64,
) -> Result<WalkedRecords, RestoreFault>
    requires frame { IsFrame longest_side atlas.now.frame }
    requires columns { HasAllColumns atlas.now.frame }
    requires counts { HasCounts atlas.now }
    requires steps { steps.old ≡ 0 }
    ensures ok { OnOk result (StandsFor atlas.now (state_spelled atlas.now)) }
    ensures kept { OnOk result (AreKept atlas.now.frame atlas.now.records) }
    ensures met { IfOk result (λ walked. walked.shelves.items ≡ (shelf_walk atlas.now.records).met) }
    ensures items { IfOk result
        (λ walked. length walked.items.met.items ≡ items_in_use (state_spelled atlas.now).shelves) }
    ensures fault { IfErr result (IsBroken atlas.now) }
    ensures all { OnOk result (steps.new ≡ links_of_all atlas.now.records) }
    ensures end { OnOk result (links_followed atlas.now.records ≡ links_of_all atlas.now.records) }
    ensures until { IfErr result (StopsAfter (links_followed atlas.now.records) steps.new) }
    ensures bound { steps.new
        ≤ 4 * (length atlas.now.records.shelves + length atlas.now.records.items) }
    ensures each { OnOk result
        (length (state_spelled atlas.now).shelves + items_in_use (state_spelled atlas.now).shelves ≤ steps.new) }
{
    let walked = walk_records(alloc, atlas, steps)?;
    judge_walked(alloc, atlas, &walked)?;
    Ok(walked)
}

/// Makes an atlas from a snapshot, as `AtlasAllocator::restore` does, and counts the links that it follows. The laws of
/// restoring are stated about it; it is not meant for users.
///
/// Returns a rule that the snapshot breaks; `Memory` only where there was no memory. The snapshot is consumed either
/// way. The records are made anew, so for a while there is memory for them twice. Takes some more for each record while
/// it runs, and for an entry in the list by height for each shelf record, used or not.
///
/// `steps` becomes the number of links that were followed, whether the snapshot is accepted or refused: at most four
/// times the number of its records, and after `Ok` at least as many as shelves and items are in use.
pub fn restore_atlas(
    alloc: Global,
    snapshot: AtlasSnapshot,
    steps: &mut u64,
) -> Result<AtlasAllocator, RestoreFault>
    ensures ok { IfOk result (λ atlas. StandsFor (snapshot_records snapshot) atlas) }
    ensures fault { IfErr result (IsBroken (snapshot_records snapshot)) }
    ensures promises { IfOk result KeepsPromises }
    ensures steps { IfOk result
        (λ atlas. length atlas.shelves + items_in_use atlas.shelves ≤ steps.new) }
    ensures all { OnOk result (steps.new ≡ links_of_all (snapshot_records snapshot).records) }
    ensures until { IfErr result (IsFollowed (snapshot_records snapshot).records steps.new) }
    ensures bound { steps.new
        ≤ 4 * (length snapshot.shelves.items + length snapshot.items.items) }
{
    *steps = 0;
    let atlas = LoadedAtlas::of_snapshot(alloc, snapshot)?;
    let walked = judge_atlas(alloc, &atlas, steps)?;
    let Ok(by_height) = shelves_by_height(alloc, &atlas.frame, &atlas.records, &walked.shelves)
    else {
        return Err(RestoreFault::Memory);
    };
    let Ok(pending) = settled_notes(alloc, &atlas.records, &by_height) else {
        return Err(RestoreFault::Memory);
    };
    let Ok(seconds) = unknown_seconds(alloc, &atlas.records) else {
        return Err(RestoreFault::Memory);
    };
    let items_in_use = walked.items.met.len() as u32;
    Ok(AtlasAllocator::of_judged(atlas, by_height, pending, seconds, items_in_use))
}
