//! Grows the records of an atlas: a width at the end of each shelf, a height at the end of each column, and columns.
//!
//! Definitions: `RecordsGrown`. All records that are missing are made before the first change; this has to stay so.

ghost use Rattle.std.specs.Prelude.{◌≡◌, ◌+◌, ◌<◌, ◌≤◌, ◌||◌, nat_lt, IfOk, OnOk, OnErr, length};
ghost use Rattle.etagere_base.specs.Frames as frames;
ghost use Rattle.etagere_base.specs.Frames.{IsFrame, longest_side};
ghost use Rattle.shelf_heights.specs.Private.ByHeight.{AreByHeight};
ghost use Rattle.shelf_model.specs.Growing as growing;
ghost use Rattle.shelf_records.specs.Private.Kept.{AreKept};
ghost use Rattle.shelf_store.specs.Private.Settling.{AreSettled};
ghost use Rattle.shelf_store.specs.Private.RecordsGrown as spec;
ghost use Rattle.shelf_store.specs.Private.SecondWidths.{AreSeconds};
ghost use Rattle.shelf_store.specs.Private.RecordsGrown.{CanGrow};

pub mod appending;
pub mod counting;
pub mod heightening;
pub mod inserting;
pub mod widening;

use crate::growing::appending::append_columns;
use crate::growing::heightening::heighten_columns;
use crate::growing::widening::widen_shelves;
use crate::settling::noting::{reserve_shelves, settle_notes};
use crate::starting::{reorder_shelves, sort_shelves};
use etagere_base::{Frame, LONGEST_SIDE, ResizeFault, Size, resize_fault};
use shelf_heights::by_height::ShelvesByHeight;
use shelf_model::faults::AtlasGrowFault;
use shelf_notes::pending::PendingShelves;
use shelf_notes::second_widths::SecondWidths;
use shelf_records::Records;
use std::alloc::AllocError;

/// How many records a grow needs: of items, and of shelves.
#[derive(Clone, Copy)]
pub struct Needed {
    pub items: u32,
    pub shelves: u32,
}

/// The numbers of the records that were made for a grow and are put to use next.
#[derive(Clone, Copy)]
pub struct Made {
    pub item: usize,
    pub shelf: usize,
}

/// The first fault of a grow to a size, records and memory aside.
pub fn size_fault(frame: &Frame, size: Size) -> Option<AtlasGrowFault>
    ensures { result ≡ growing.size_fault frame.now size }
{
    match resize_fault(LONGEST_SIDE, frame, size)? {
        ResizeFault::Size => Some(AtlasGrowFault::Size),
        ResizeFault::Smaller => Some(AtlasGrowFault::Smaller),
        ResizeFault::Area => Some(AtlasGrowFault::Area),
    }
}

/// Makes the records and the list of shelves by height grow to a frame, for which they need so many. An `Err`, which
/// comes only where some are needed, changes nothing.
pub fn grow_shelves(
    records: &mut Records,
    by_height: &mut ShelvesByHeight,
    pending: &mut PendingShelves,
    seconds: &mut SecondWidths,
    frame: &Frame,
    grown: &Frame,
    needed: Needed,
) -> Result<(), AllocError>
    requires frame { IsFrame longest_side frame.now }
    requires grown { IsFrame longest_side grown.now }
    requires needed { needed ≡ spec.needed_of frame.now grown.now records.old }
    requires grows { CanGrow frame.now grown.now needed records.old }
    requires kept { AreKept grown.now (spec.records_grown frame.now grown.now needed records.old).records }
    requires by_height { AreByHeight frame.now records.old by_height.old.items }
    requires settled { AreSettled records.old pending.old.notes }
    requires room { length records.old.shelves ≤ by_height.old.capacity }
    requires room_to_note { length records.old.shelves ≤ pending.old.room }
    ensures ok { OnOk result
        (records.new ≡ (spec.records_grown frame.now grown.now needed records.old).records) }
    ensures by_height { OnOk result (AreByHeight grown.now records.new by_height.new.items) }
    ensures settled { OnOk result (AreSettled records.new pending.new.notes) }
    ensures seconds { AreSeconds records.old seconds.old → AreSeconds records.new seconds.new }
    ensures err { OnErr result (records.new ≡ records.old) }
    ensures same { OnErr result (by_height.new.items ≡ by_height.old.items) }
    ensures same_notes { OnErr result (pending.new.notes ≡ pending.old.notes) }
    ensures room { length records.new.shelves ≤ by_height.new.capacity }
    ensures room_to_note { length records.new.shelves ≤ pending.new.room }
    ensures some { OnErr result (0 < needed.items) }
{
    reserve_shelves(records, by_height, pending, seconds, needed.shelves)?;
    grow_records(records, frame, grown, needed)?;
    if needed.shelves > 0 {
        sort_shelves(grown, records, by_height);
        settle_notes(records, by_height, pending);
        seconds.restart(records.shelves().len());
    } else if is_extended(frame, grown) {
        reorder_shelves(grown, records, by_height);
        settle_notes(records, by_height, pending);
        seconds.restart(records.shelves().len());
    }
    Ok(())
}

/// Whether columns become wider or taller, or more.
fn is_extended(frame: &Frame, grown: &Frame) -> bool
    ensures { result
        ≡ (nat_lt frame.now.column_width grown.now.column_width
        || nat_lt (frames.across_side frame.now) (frames.across_side grown.now)
        || nat_lt frame.now.columns grown.now.columns) }
{
    grown.column_width > frame.column_width
        || grown.across_side() > frame.across_side()
        || grown.columns > frame.columns
}

/// Makes the records grow to a frame, for which they need so many. An `Err`, which comes only where some are
/// needed, changes nothing.
fn grow_records(
    records: &mut Records,
    frame: &Frame,
    grown: &Frame,
    needed: Needed,
) -> Result<(), AllocError>
    requires frame { IsFrame longest_side frame.now }
    requires grown { IsFrame longest_side grown.now }
    requires grows { CanGrow frame.now grown.now needed records.old }
    ensures ok { OnOk result
        (records.new ≡ (spec.records_grown frame.now grown.now needed records.old).records) }
    ensures err { OnErr result (records.new ≡ records.old) }
    ensures some { OnErr result (0 < needed.items + needed.shelves) }
{
    let mut made = make_missing(records, needed)?;
    if grown.column_width > frame.column_width {
        let place = frame.column_width as u16;
        let width = (grown.column_width - frame.column_width) as u16;
        widen_shelves(records, &mut made, place, width);
    }
    if grown.across_side() > frame.across_side() {
        let height = (grown.across_side() - frame.across_side()) as u16;
        heighten_columns(records, &mut made, grown.column_width as u16, height);
    }
    if grown.columns > frame.columns {
        append_columns(records, &mut made, grown, frame.columns);
    }
    Ok(())
}

/// Makes the records that are missing to put so many to use.
fn make_missing(records: &mut Records, needed: Needed) -> Result<Made, AllocError>
    ensures ok { OnOk result (records.new ≡ (spec.with_missing needed records.old).records) }
    ensures made { IfOk result (λ made. made ≡ (spec.with_missing needed records.old).made) }
    ensures err { OnErr result (records.new ≡ records.old) }
    ensures some { OnErr result (0 < needed.items + needed.shelves) }
{
    let made = Made {
        item: records.items().len(),
        shelf: records.shelves().len(),
    };
    let items = records.missing_items(needed.items as usize);
    let shelves = records.missing_shelves(needed.shelves as usize);
    records.make_records(items, shelves)?;
    Ok(made)
}
