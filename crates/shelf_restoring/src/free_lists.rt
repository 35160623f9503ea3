//! Following the free list of each shelf of a snapshot, once the chains of items are known to be distinct.
//!
//! Definitions: `Restoring`.

ghost use Rattle.std.specs.Prelude.{◌≡◌, ◌+◌, ◌*◌, ◌^◌, ◌<◌, ◌≤◌, ◌++◌, [], IfOk, IfErr, OnOk, length, map};
ghost use Rattle.std.specs.List.{AllByRecursion};
ghost use Rattle.shelf_records.specs.ListEdits.{AreFitting};
ghost use Rattle.etagere_links.specs.Links.{no_link, bits_of};
ghost use Rattle.etagere_links.specs.LinksRead.{links_in, links_until};
ghost use Rattle.etagere_links.specs.Marks.{IsMarkedBy};
ghost use Rattle.etagere_links.specs.Lists.{HasEachOnce};
ghost use Rattle.shelf_records.specs.RecordLists.{free_walk, item_numbers, shelf_walk, unused_item_walk, walked_entry};
ghost use Rattle.shelf_records.specs.Records.{free_list};
ghost use Rattle.shelf_records.specs.AtlasRecords.{walked_entries};
ghost use Rattle.shelf_records.specs.Private.Restoring as spec;
ghost use Rattle.shelf_records.specs.Private.Restoring.{HasFree, free_numbers, frees_met};
ghost use Rattle.shelf_restoring.specs.RestoringSteps.{StopsAfter, free_walks};
ghost use Rattle.shelf_records.specs.Snapshots.{IsBroken};

use crate::link_bits::next_bits;
use crate::loaded_atlas::LoadedAtlas;
use crate::walked_lists::WalkedLists;
use etagere_base::RestoreFault;
use etagere_links::{WalkFault, WalkRoom, mark_onto, room_and_marks};
use shelf_records::fields::first_free_link;
use shelf_records::{FreeList, LinkedItem};
use std::alloc::Global;

/// The free lists of the shelves in use, where no item is in two of them. Each item is known to be of one shelf.
pub fn walk_free_lists(
    alloc: Global,
    atlas: &LoadedAtlas,
    numbers: &[u16],
    steps: &mut u64,
) -> Result<WalkedLists, RestoreFault>
    requires few { length atlas.now.records.items ≤ no_link }
    requires numbers { numbers.now ≡ (shelf_walk atlas.now.records).met }
    requires once { HasEachOnce (length atlas.now.records.items)
        (item_numbers (walked_entries atlas.now) ++ (unused_item_walk atlas.now.records).met) }
    requires steps { steps.old < 2 ^ 31 }
    ensures met { IfOk result (λ lists. lists.met.items ≡ free_numbers (walked_entries atlas.now)) }
    ensures counts { IfOk result (λ lists. lists.counts.items
        ≡ map (frees_met atlas.now.records) (shelf_walk atlas.now.records).met) }
    ensures free { OnOk result (AllByRecursion (HasFree atlas.now.records) (shelf_walk atlas.now.records).met) }
    ensures fit { OnOk result (AreFitting free_list.next atlas.now.records.items) }
    ensures fault { IfErr result (IsBroken atlas.now) }
    ensures all { OnOk result (steps.new ≡ steps.old + links_in (free_walks atlas.now.records)) }
    ensures own { OnOk result
        (links_until 0 0 [] (free_walks atlas.now.records) ≡ links_in (free_walks atlas.now.records)) }
    ensures until { IfErr result (StopsAfter
        (steps.old + links_until 0 0 [] (free_walks atlas.now.records)) steps.new) }
    ensures bound { steps.new ≤ steps.old + 2 * length atlas.now.records.items }
    ensures more { OnOk result (steps.old ≤ steps.new) }
{
    let Ok(links) = next_bits::<FreeList, LinkedItem>(alloc, atlas.records.items()) else {
        return Err(RestoreFault::Memory);
    };
    let Ok((mut room, mut marks)) = room_and_marks(alloc, links.len()) else {
        return Err(RestoreFault::Memory);
    };
    follow_free_lists(alloc, atlas, &mut room, &mut marks, &links, numbers, steps)
}

/// The free lists of the shelves, where none of the items was marked. They are put one behind the other.
fn follow_free_lists(
    alloc: Global,
    atlas: &LoadedAtlas,
    room: &mut WalkRoom,
    marks: &mut [bool],
    links: &[u16],
    numbers: &[u16],
    steps: &mut u64,
) -> Result<WalkedLists, RestoreFault>
    requires few { length atlas.now.records.items ≤ no_link }
    requires links { links.now
        ≡ map (λ here. bits_of (free_list.next here)) atlas.now.records.items }
    requires room { length links.now ≤ room.old }
    requires marks { length marks.old ≡ length links.now }
    requires marked { IsMarkedBy marks.old [] }
    requires numbers { numbers.now ≡ (shelf_walk atlas.now.records).met }
    requires once { HasEachOnce (length atlas.now.records.items)
        (item_numbers (walked_entries atlas.now) ++ (unused_item_walk atlas.now.records).met) }
    requires steps { steps.old < 2 ^ 31 }
    ensures met { IfOk result (λ lists. lists.met.items
        ≡ free_numbers (map (walked_entry atlas.now.records) numbers.now)) }
    ensures counts { IfOk result (λ lists. lists.counts.items
        ≡ map (frees_met atlas.now.records) numbers.now) }
    ensures free { OnOk result (AllByRecursion (HasFree atlas.now.records) numbers.now) }
    ensures fault { IfErr result (IsBroken atlas.now) }
    ensures all { OnOk result (steps.new ≡ steps.old + links_in (map (free_walk atlas.now.records) numbers.now)) }
    ensures own { OnOk result (links_until 0 0 [] (map (free_walk atlas.now.records) numbers.now)
        ≡ links_in (map (free_walk atlas.now.records) numbers.now)) }
    ensures until { IfErr result (StopsAfter
        (steps.old + links_until 0 0 [] (map (free_walk atlas.now.records) numbers.now)) steps.new) }
    ensures bound { steps.new ≤ steps.old + 2 * length atlas.now.records.items }
    ensures more { OnOk result (steps.old ≤ steps.new) }
{
    let Ok(mut met) = Vec::with_capacity(alloc, links.len()) else {
        return Err(RestoreFault::Memory);
    };
    let Ok(mut counts) = Vec::with_capacity(alloc, numbers.len()) else {
        return Err(RestoreFault::Memory);
    };
    for number in numbers {
        let first = first_free_link(atlas.records.shelves(), usize::from(*number)).bits();
        let before = *steps;
        if let Err(fault) = mark_onto(room, marks, &mut met, links, first, steps) {
            return Err(free_fault(fault));
        }
        counts.push_reserved((*steps - before) as u16);
    }
    Ok(WalkedLists { met, counts })
}

/// What is wrong with a snapshot where a walk along a free list is refused.
fn free_fault(fault: WalkFault) -> RestoreFault
    ensures { result ≡ spec.free_fault fault }
{
    match fault {
        WalkFault::OutOfRange => RestoreFault::Link,
        WalkFault::Marked => RestoreFault::FreeList,
        WalkFault::Circular => RestoreFault::FreeList,
        WalkFault::Memory => RestoreFault::Memory,
    }
}
