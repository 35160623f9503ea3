//! Following the chain of shelves and the unused shelves of a snapshot.
//!
//! Definitions: `Restoring`.

ghost use Rattle.std.specs.Prelude.{◌≡◌, ◌*◌, ◌≤◌, ℕ, [], IfOk, IfErr, OnOk, length, map};
ghost use Rattle.shelf_records.specs.ListEdits.{AreFitting};
ghost use Rattle.etagere_links.specs.Links.{bits_of, no_link};
ghost use Rattle.etagere_links.specs.LinksRead.{links_in, links_until};
ghost use Rattle.etagere_links.specs.Marks.{IsMarkedBy};
ghost use Rattle.shelf_records.specs.Records.{shelf_chain};
ghost use Rattle.shelf_records.specs.Private.Restoring.{HasShelfLists};
ghost use Rattle.shelf_restoring.specs.RestoringSteps.{StopsAfter, shelf_walks};
ghost use Rattle.shelf_records.specs.Snapshots.{IsBroken};

use crate::link_bits::next_bits;
use crate::loaded_atlas::LoadedAtlas;
use etagere_base::RestoreFault;
use etagere_links::{WalkRoom, all_marked, mark_onto, restore_fault, room_and_marks};
use shelf_records::{Chain, LinkedShelf};
use std::alloc::Global;

/// The numbers of the shelves in use, where each shelf record is in use or unused, and in one list.
pub fn walk_shelves(
    alloc: Global,
    atlas: &LoadedAtlas,
    steps: &mut u64,
) -> Result<Vec<u16>, RestoreFault>
    requires few { length atlas.now.records.shelves ≤ no_link }
    requires steps { steps.old ≡ 0 }
    ensures ok { IfOk result (λ numbers. HasShelfLists atlas.now numbers.items) }
    ensures fault { IfErr result (IsBroken atlas.now) }
    ensures all { OnOk result (steps.new ≡ links_in (shelf_walks atlas.now.records)) }
    ensures until { IfErr result (λ fault. (more : ℕ) → StopsAfter
        (links_until (length atlas.now.records.shelves) more [] (shelf_walks atlas.now.records)) steps.new fault) }
    ensures bound { steps.new ≤ 2 * length atlas.now.records.shelves }
    ensures each { IfOk result (λ numbers. length numbers.items ≤ steps.new) }
{
    let Ok(links) = next_bits::<Chain, LinkedShelf>(alloc, atlas.records.shelves()) else {
        return Err(RestoreFault::Memory);
    };
    let Ok((mut room, mut marks)) = room_and_marks(alloc, links.len()) else {
        return Err(RestoreFault::Memory);
    };
    follow_shelves(alloc, atlas, &mut room, &mut marks, &links, steps)
}

/// The numbers of the shelves in use, where none was marked.
fn follow_shelves(
    alloc: Global,
    atlas: &LoadedAtlas,
    room: &mut WalkRoom,
    marks: &mut [bool],
    links: &[u16],
    steps: &mut u64,
) -> Result<Vec<u16>, RestoreFault>
    requires few { length atlas.now.records.shelves ≤ no_link }
    requires links { links.now
        ≡ map (λ here. bits_of (shelf_chain.next here)) atlas.now.records.shelves }
    requires fit { AreFitting shelf_chain.next atlas.now.records.shelves }
    requires room { length links.now ≤ room.old }
    requires marks { length marks.old ≡ length links.now }
    requires marked { IsMarkedBy marks.old [] }
    requires steps { steps.old ≡ 0 }
    ensures ok { IfOk result (λ numbers. HasShelfLists atlas.now numbers.items) }
    ensures fault { IfErr result (IsBroken atlas.now) }
    ensures all { OnOk result (steps.new ≡ links_in (shelf_walks atlas.now.records)) }
    ensures until { IfErr result (λ fault. (more : ℕ) → StopsAfter
        (links_until (length atlas.now.records.shelves) more [] (shelf_walks atlas.now.records)) steps.new fault) }
    ensures bound { steps.new ≤ 2 * length atlas.now.records.shelves }
    ensures each { IfOk result (λ numbers. length numbers.items ≤ steps.new) }
{
    let first = atlas.records.first_shelf().bits();
    let mut numbers = Vec::new(alloc);
    if let Err(fault) = mark_onto(room, marks, &mut numbers, links, first, steps) {
        return Err(restore_fault(fault));
    }
    let first_unused = atlas.records.unused_shelves().bits();
    let mut unused = Vec::new(alloc);
    if let Err(fault) = mark_onto(room, marks, &mut unused, links, first_unused, steps) {
        return Err(restore_fault(fault));
    }
    if !all_marked(marks) {
        return Err(RestoreFault::Sharing);
    }
    Ok(numbers)
}
