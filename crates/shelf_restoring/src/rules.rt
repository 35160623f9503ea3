//! Judging the rules of a snapshot whose links were followed. The first that is broken is told.
//!
//! Definitions: `Keeps` of `StandsFor` for the rules by their faults, `IsBroken` of `Snapshots`.

ghost use Rattle.std.specs.Prelude.{◌≡◌, IfErr, OnOk};
ghost use Rattle.etagere_base.specs.Frames.{IsFrame, longest_side};
ghost use Rattle.etagere_base.specs.declared.faults.RestoreFault as spec;
ghost use Rattle.shelf_records.specs.RecordLists.{unused_item_walk};
ghost use Rattle.shelf_records.specs.AtlasRecords.{walked_entries};
ghost use Rattle.shelf_records.specs.Private.Restoring.{IsWalked};
ghost use Rattle.shelf_records.specs.Snapshots.{IsBroken};
ghost use Rattle.shelf_records.specs.StandsFor.{HasCounts, Keeps};

use crate::judging::WalkedShelf;
use crate::judging::freeing::used_marks;
use crate::judging::shelves::judge_shelves;
use crate::judging::spacing::{is_space, none_allocated};
use crate::loaded_atlas::LoadedAtlas;
use etagere_base::RestoreFault;
use std::alloc::Global;

/// Judges what walks have met; returns the first rule that is broken.
///
/// Takes a byte of memory for each item record.
pub fn judge_rules(
    alloc: Global,
    atlas: &LoadedAtlas,
    entries: &[WalkedShelf],
    unused: &[u16],
) -> Result<(), RestoreFault>
    requires frame { IsFrame longest_side atlas.now.frame }
    requires counts { HasCounts atlas.now }
    requires walked { IsWalked atlas.now }
    requires entries { entries.now ≡ walked_entries atlas.now }
    requires unused { unused.now ≡ (unused_item_walk atlas.now.records).met }
    ensures ok { OnOk result ((fault : spec.RestoreFault) → Keeps atlas.now fault) }
    ensures fault { IfErr result (IsBroken atlas.now) }
{
    let shelves = atlas.records.shelves();
    let items = atlas.records.items();
    let Ok(marks) = used_marks(alloc, items.len(), unused) else {
        return Err(RestoreFault::Memory);
    };
    let judged = judge_shelves(&atlas.frame, shelves, items, &marks, entries);
    if !judged.are_linked {
        return Err(RestoreFault::Link);
    }
    if !judged.have_free_lists {
        return Err(RestoreFault::FreeList);
    }
    if !judged.are_stacked {
        return Err(RestoreFault::Shelves);
    }
    if !judged.are_filled {
        return Err(RestoreFault::Runs);
    }
    if !judged.are_apart {
        return Err(RestoreFault::Neighbours);
    }
    if !none_allocated(items, unused) {
        return Err(RestoreFault::Unused);
    }
    if !is_space(judged.space, atlas.allocated_space) {
        return Err(RestoreFault::Space);
    }
    Ok(())
}
