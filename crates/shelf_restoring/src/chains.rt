//! Following the unused items of a snapshot, and the chain of items of each of its shelves.
//!
//! Definitions: `Restoring`.

ghost use Rattle.std.specs.Prelude.{◌≡◌, ◌+◌, ◌*◌, ◌^◌, ◌<◌, ◌≤◌, ◌++◌, ℕ, [], IfOk, IfErr, OnOk, length, map};
ghost use Rattle.std.specs.List.{AllByRecursion};
ghost use Rattle.shelf_records.specs.ListEdits.{AreFitting};
ghost use Rattle.etagere_links.specs.Links.{no_link, bits_of};
ghost use Rattle.etagere_links.specs.LinksRead.{links_in, links_until};
ghost use Rattle.etagere_links.specs.Marks.{IsMarkedBy};
ghost use Rattle.shelf_records.specs.RecordLists.{item_numbers, item_walk, shelf_walk, unused_item_walk};
ghost use Rattle.shelf_records.specs.Records.{item_chain};
ghost use Rattle.shelf_records.specs.Private.Restoring.{HasChain, HasItemLists, chain_entry, items_met};
ghost use Rattle.shelf_restoring.specs.RestoringSteps.{StopsAfter, item_walks};
ghost use Rattle.shelf_records.specs.Snapshots.{IsBroken};

use crate::link_bits::next_bits;
use crate::loaded_atlas::LoadedAtlas;
use crate::walked_lists::WalkedLists;
use etagere_base::RestoreFault;
use etagere_links::{WalkRoom, all_marked, mark_onto, restore_fault, room_and_marks};
use shelf_records::fields::first_item_link;
use shelf_records::{Chain, LinkedItem};
use std::alloc::Global;

/// What walks have met of the items: of each shelf in use, and what is unused.
#[derive(Drop)]
pub struct WalkedItems {
    pub lists: WalkedLists,
    pub unused: Vec<u16>,
}

/// The items of the shelves in use, and those unused, where each item record is in one of these lists.
pub fn walk_items(
    alloc: Global,
    atlas: &LoadedAtlas,
    numbers: &[u16],
    steps: &mut u64,
) -> Result<WalkedItems, RestoreFault>
    requires few { length atlas.now.records.items ≤ no_link }
    requires numbers { numbers.now ≡ (shelf_walk atlas.now.records).met }
    requires steps { steps.old < 2 ^ 30 }
    ensures ok { OnOk result (HasItemLists atlas.now) }
    ensures unused { IfOk result (λ walked. walked.unused.items ≡ (unused_item_walk atlas.now.records).met) }
    ensures met { IfOk result (λ walked. walked.lists.met.items
        ≡ item_numbers (map (chain_entry atlas.now.records) (shelf_walk atlas.now.records).met)) }
    ensures counts { IfOk result (λ walked. walked.lists.counts.items
        ≡ map (items_met atlas.now.records) (shelf_walk atlas.now.records).met) }
    ensures fault { IfErr result (IsBroken atlas.now) }
    ensures all { OnOk result (steps.new ≡ steps.old + links_in (item_walks atlas.now.records)) }
    ensures until { IfErr result (λ fault. (more : ℕ) → StopsAfter
        (steps.old + links_until (length atlas.now.records.items) more [] (item_walks atlas.now.records))
        steps.new fault) }
    ensures bound { steps.new ≤ steps.old + 2 * length atlas.now.records.items }
    ensures each { IfOk result (λ walked. steps.old + length walked.lists.met.items ≤ steps.new) }
{
    let Ok(links) = next_bits::<Chain, LinkedItem>(alloc, atlas.records.items()) else {
        return Err(RestoreFault::Memory);
    };
    let Ok((mut room, mut marks)) = room_and_marks(alloc, links.len()) else {
        return Err(RestoreFault::Memory);
    };
    follow_items(alloc, atlas, &mut room, &mut marks, &links, numbers, steps)
}

/// The items of the shelves in use, and those unused, where none was marked.
fn follow_items(
    alloc: Global,
    atlas: &LoadedAtlas,
    room: &mut WalkRoom,
    marks: &mut [bool],
    links: &[u16],
    numbers: &[u16],
    steps: &mut u64,
) -> Result<WalkedItems, RestoreFault>
    requires few { length atlas.now.records.items ≤ no_link }
    requires links { links.now
        ≡ map (λ here. bits_of (item_chain.next here)) atlas.now.records.items }
    requires fit { AreFitting item_chain.next atlas.now.records.items }
    requires room { length links.now ≤ room.old }
    requires marks { length marks.old ≡ length links.now }
    requires marked { IsMarkedBy marks.old [] }
    requires numbers { numbers.now ≡ (shelf_walk atlas.now.records).met }
    requires steps { steps.old < 2 ^ 30 }
    ensures ok { OnOk result (HasItemLists atlas.now) }
    ensures unused { IfOk result (λ walked. walked.unused.items ≡ (unused_item_walk atlas.now.records).met) }
    ensures met { IfOk result (λ walked. walked.lists.met.items
        ≡ item_numbers (map (chain_entry atlas.now.records) (shelf_walk atlas.now.records).met)) }
    ensures counts { IfOk result (λ walked. walked.lists.counts.items
        ≡ map (items_met atlas.now.records) (shelf_walk atlas.now.records).met) }
    ensures fault { IfErr result (IsBroken atlas.now) }
    ensures all { OnOk result (steps.new ≡ steps.old + links_in (item_walks atlas.now.records)) }
    ensures until { IfErr result (λ fault. (more : ℕ) → StopsAfter
        (steps.old + links_until (length atlas.now.records.items) more [] (item_walks atlas.now.records))
        steps.new fault) }
    ensures bound { steps.new ≤ steps.old + 2 * length atlas.now.records.items }
    ensures each { IfOk result (λ walked. steps.old + length walked.lists.met.items ≤ steps.new) }
{
    let first = atlas.records.unused_items().bits();
    let mut unused = Vec::new(alloc);
    if let Err(fault) = mark_onto(room, marks, &mut unused, links, first, steps) {
        return Err(restore_fault(fault));
    }
    let lists = walk_chains(alloc, atlas, room, marks, links, numbers, steps)?;
    if !all_marked(marks) {
        return Err(RestoreFault::Sharing);
    }
    Ok(WalkedItems { lists, unused })
}

/// The items of each of the shelves, where the unused ones are marked. They are put one behind the other.
fn walk_chains(
    alloc: Global,
    atlas: &LoadedAtlas,
    room: &mut WalkRoom,
    marks: &mut [bool],
    links: &[u16],
    numbers: &[u16],
    steps: &mut u64,
) -> Result<WalkedLists, RestoreFault>
    requires few { length atlas.now.records.items ≤ no_link }
    requires links { links.now
        ≡ map (λ here. bits_of (item_chain.next here)) atlas.now.records.items }
    requires room { length links.now ≤ room.old }
    requires marks { length marks.old ≡ length links.now }
    requires numbers { numbers.now ≡ (shelf_walk atlas.now.records).met }
    requires marked { IsMarkedBy marks.old (unused_item_walk atlas.now.records).met }
    requires steps { steps.old < 2 ^ 31 }
    ensures room { room.new ≡ room.old }
    ensures met { IfOk result (λ lists. lists.met.items
        ≡ item_numbers (map (chain_entry atlas.now.records) numbers.now)) }
    ensures counts { IfOk result (λ lists. lists.counts.items
        ≡ map (items_met atlas.now.records) numbers.now) }
    ensures chains { OnOk result (AllByRecursion (HasChain atlas.now.records) numbers.now) }
    ensures marked { OnOk result (IsMarkedBy marks.new ((unused_item_walk atlas.now.records).met
        ++ item_numbers (map (chain_entry atlas.now.records) numbers.now))) }
    ensures fault { IfErr result (IsBroken atlas.now) }
    ensures steps { OnOk result (steps.new
        ≡ steps.old + length (item_numbers (map (chain_entry atlas.now.records) numbers.now))) }
    ensures until { IfErr result (λ fault. (more : ℕ) → StopsAfter
        (steps.old + links_until (length atlas.now.records.items) more (unused_item_walk atlas.now.records).met
        (map (item_walk atlas.now.records) numbers.now))
        steps.new fault) }
    ensures bound { steps.new + length (unused_item_walk atlas.now.records).met
        ≤ steps.old + 2 * length atlas.now.records.items }
{
    let Ok(mut met) = Vec::with_capacity(alloc, links.len()) else {
        return Err(RestoreFault::Memory);
    };
    let Ok(mut counts) = Vec::with_capacity(alloc, numbers.len()) else {
        return Err(RestoreFault::Memory);
    };
    for number in numbers {
        let first = first_item_link(atlas.records.shelves(), usize::from(*number)).bits();
        let before = *steps;
        if let Err(fault) = mark_onto(room, marks, &mut met, links, first, steps) {
            return Err(restore_fault(fault));
        }
        counts.push_reserved((*steps - before) as u16);
    }
    Ok(WalkedLists { met, counts })
}
