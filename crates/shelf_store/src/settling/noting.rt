//! The notes beside the list of the shelves by height, and room for both.
//!
//! Definitions: `Pending` for what is noted, `Settling` for notes of a list that follows the records. Nothing but
//! `reserve_shelves`, `settled_notes` and `unknown_seconds` takes memory.

ghost use Rattle.std.specs.Prelude.{◌≡◌, ℕ, ◌+◌, ◌<◌, ◌≤◌, IfOk, OnErr, OnOk, List, length};
ghost use Rattle.shelf_records.specs.RecordUses.{missing};
ghost use Rattle.shelf_records.specs.Records.{shelf_chain};
ghost use Rattle.shelf_heights.specs.Private.ByHeight.{AreInOrder};
ghost use Rattle.shelf_heights.specs.declared.by_height.BoundedShelf.{BoundedShelf};
ghost use Rattle.etagere_links.specs.Links.{no_link};
ghost use Rattle.shelf_notes.specs.Private.SecondWidths.{second_at};
ghost use Rattle.shelf_store.specs.Private.Settling.{AreSettled, Follows, IsListOf};

use crate::starting::FIRST_ROOM;
use shelf_heights::by_height::ShelvesByHeight;
use shelf_notes::pending::{IN_USE, PendingShelves, UNKNOWN};
use shelf_notes::second_widths::SecondWidths;
use shelf_records::{LinkedShelf, Records};
use std::alloc::{AllocError, Global};

/// Makes room for the shelves of so many records, and for notes and widths of them, of which those that are missing are to
/// be made: an unused one has its room. Where there is none, it is made for a quarter more, and for some at least. The error
/// comes only where some are missing and there was no memory.
pub fn reserve_shelves(
    records: &Records,
    by_height: &mut ShelvesByHeight,
    pending: &mut PendingShelves,
    seconds: &mut SecondWidths,
    wanted: u32,
) -> Result<(), AllocError>
    requires room { length records.now.shelves ≤ by_height.old.capacity }
    requires room_to_note { length records.now.shelves ≤ pending.old.room }
    ensures items { by_height.new.items ≡ by_height.old.items }
    ensures notes { pending.new.notes ≡ pending.old.notes }
    ensures room { OnOk result
        (length records.now.shelves
        + missing shelf_chain wanted records.now.unused_shelves records.now.shelves
        ≤ by_height.new.capacity) }
    ensures room_to_note { OnOk result
        (length records.now.shelves
        + missing shelf_chain wanted records.now.unused_shelves records.now.shelves
        ≤ pending.new.room) }
    ensures capacity { by_height.old.capacity ≤ by_height.new.capacity }
    ensures more_room { pending.old.room ≤ pending.new.room }
    ensures seconds { (k : ℕ) → second_at seconds.new k ≡ second_at seconds.old k }
    ensures short { OnErr result
        (0 < missing shelf_chain wanted records.now.unused_shelves records.now.shelves) }
{
    let missing = records.missing_shelves(wanted as usize);
    if missing == 0 {
        return Ok(());
    }
    let room = records.shelves().len() + missing;
    if room <= by_height.room() && room <= pending.room() {
        return Ok(());
    }
    reserve_room(
        by_height,
        pending,
        seconds,
        room + (room / 4).max(FIRST_ROOM),
    )
}

/// Makes room for so many shelves, and for notes and widths of them. Never inlined, so that where no record is missing no
/// call is made.
#[inline(never)]
fn reserve_room(
    by_height: &mut ShelvesByHeight,
    pending: &mut PendingShelves,
    seconds: &mut SecondWidths,
    room: usize,
) -> Result<(), AllocError>
    ensures items { by_height.new.items ≡ by_height.old.items }
    ensures notes { pending.new.notes ≡ pending.old.notes }
    ensures room { OnOk result (room ≤ by_height.new.capacity) }
    ensures room_to_note { OnOk result (room ≤ pending.new.room) }
    ensures capacity { by_height.old.capacity ≤ by_height.new.capacity }
    ensures more_room { pending.old.room ≤ pending.new.room }
    ensures seconds { (k : ℕ) → second_at seconds.new k ≡ second_at seconds.old k }
{
    seconds.reserve(room)?;
    pending.reserve(room)?;
    by_height.reserve(room)
}

/// The notes of a list that follows these records.
pub fn settled_notes(
    alloc: Global,
    records: &Records,
    by_height: &ShelvesByHeight,
) -> Result<PendingShelves, AllocError>
    requires list { IsListOf records.now by_height.now.items }
    ensures settled { IfOk result (λ pending. AreSettled records.now pending.notes) }
    ensures room { IfOk result (λ pending. length records.now.shelves ≤ pending.room) }
{
    let room = records.shelves().len().max(FIRST_ROOM);
    let mut pending = PendingShelves::with_room(alloc, room)?;
    settle_notes(records, by_height, &mut pending);
    Ok(pending)
}

/// Second widths of the shelves of these records, of which nothing is known.
pub fn unknown_seconds(alloc: Global, records: &Records) -> Result<SecondWidths, AllocError>
    ensures { IfOk result (λ seconds. (k : ℕ) → second_at seconds k ≡ 65535) }
{
    SecondWidths::with_room(alloc, records.shelves().len().max(FIRST_ROOM))
}

/// Makes the notes those of a list that follows these records. There is room for them.
pub fn settle_notes(records: &Records, by_height: &ShelvesByHeight, pending: &mut PendingShelves)
    requires list { IsListOf records.now by_height.now.items }
    requires room { length records.now.shelves ≤ pending.old.room }
    ensures settled { AreSettled records.now pending.new.notes }
    ensures room { pending.new.room ≡ pending.old.room }
{
    follow(pending, records.shelves(), by_height);
}

/// The same where the list has as many shelves as there are records: each of them.
#[inline(always)]
pub fn settle_all_notes(records: &Records, pending: &mut PendingShelves)
    requires room { length records.now.shelves ≤ pending.old.room }
    requires few { length records.now.shelves ≤ no_link }
    ensures settled { (by_height : List BoundedShelf) → IsListOf records.now by_height
        → length by_height ≡ length records.now.shelves → AreSettled records.now pending.new.notes }
    ensures room { pending.new.room ≡ pending.old.room }
{
    pending.restart(records.shelves(), IN_USE);
}

/// Makes the notes those of a list that follows these records, which has just the shelves in use: each of them once, so all
/// records where they are as many.
fn follow(pending: &mut PendingShelves, shelves: &[LinkedShelf], by_height: &ShelvesByHeight)
    requires order { AreInOrder shelves.now by_height.now.items }
    requires room { length shelves.now ≤ pending.old.room }
    requires few { length shelves.now ≤ no_link }
    ensures notes { Follows shelves.now by_height.now.items pending.new.notes }
    ensures room { pending.new.room ≡ pending.old.room }
{
    if by_height.len() == shelves.len() {
        pending.restart(shelves, IN_USE);
        return;
    }
    pending.restart(shelves, UNKNOWN);
    for index in 0..by_height.len() {
        pending.put_to_use(by_height.shelf(index));
    }
}
