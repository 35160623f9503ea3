//! Following all links of a snapshot: the chain of shelves, what is unused, the items of each shelf and its free
//! list.
//!
//! Definitions: `Restoring`.

ghost use Rattle.std.specs.Prelude.{◌≡◌, ◌+◌, ◌*◌, ◌≤◌, IfOk, IfErr, OnOk, length};
ghost use Rattle.etagere_links.specs.Links.{no_link};
ghost use Rattle.shelf_records.specs.Private.Restoring.{HasLists, IsWalked};
ghost use Rattle.shelf_restoring.specs.RestoringSteps.{StopsAfter, links_followed, links_of_all};
ghost use Rattle.shelf_records.specs.Snapshots.{IsBroken};

use crate::chains::walk_items;
use crate::free_lists::walk_free_lists;
use crate::judging::linking::links_back;
use crate::loaded_atlas::LoadedAtlas;
use crate::shelf_lists::walk_shelves;
use crate::walked_lists::WalkedLists;
use etagere_base::RestoreFault;
use shelf_records::{Chain, LinkedShelf};
use std::alloc::Global;

/// What walks have met of all records.
#[derive(Drop)]
pub struct WalkedRecords {
    /// The numbers of the shelves in use.
    pub shelves: Vec<u16>,
    /// Their items.
    pub items: WalkedLists,
    /// Their free lists.
    pub free_lists: WalkedLists,
    /// The numbers of the unused items.
    pub unused: Vec<u16>,
}

/// The shelves in use with their items and free lists, and the unused items, where each record is in one list,
/// each list ends at none, and the shelves link back. The steps are the links followed.
pub fn walk_records(
    alloc: Global,
    atlas: &LoadedAtlas,
    steps: &mut u64,
) -> Result<WalkedRecords, RestoreFault>
    requires shelves { length atlas.now.records.shelves ≤ no_link }
    requires items { length atlas.now.records.items ≤ no_link }
    requires steps { steps.old ≡ 0 }
    ensures ok { OnOk result (IsWalked atlas.now) }
    ensures lists { IfOk result (λ walked. HasLists atlas.now walked.shelves.items walked.items.met.items
        walked.items.counts.items walked.free_lists.met.items walked.free_lists.counts.items walked.unused.items) }
    ensures fault { IfErr result (IsBroken atlas.now) }
    ensures all { OnOk result (steps.new ≡ links_of_all atlas.now.records) }
    ensures end { OnOk result (links_followed atlas.now.records ≡ links_of_all atlas.now.records) }
    ensures until { IfErr result (StopsAfter (links_followed atlas.now.records) steps.new) }
    ensures bound { steps.new
        ≤ 4 * (length atlas.now.records.shelves + length atlas.now.records.items) }
    ensures each { IfOk result
        (λ walked. length walked.shelves.items + length walked.items.met.items ≤ steps.new) }
{
    let numbers = walk_shelves(alloc, atlas, steps)?;
    let walked = walk_items(alloc, atlas, &numbers, steps)?;
    let free_lists = walk_free_lists(alloc, atlas, &numbers, steps)?;
    if !links_back::<Chain, LinkedShelf>(atlas.records.shelves(), &numbers) {
        return Err(RestoreFault::Link);
    }
    Ok(WalkedRecords {
        shelves: numbers,
        items: walked.lists,
        free_lists,
        unused: walked.unused,
    })
}
