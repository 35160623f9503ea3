//! What an atlas of these records is saved as.
//!
//! Definitions: `Snapshots`.

ghost use Rattle.std.specs.Prelude.{◌≡◌, ◌<◌, ◌^◌, IfOk, pos};
ghost use Rattle.etagere_base.specs.Frames.{HasAllColumns, IsFrame, longest_side};
ghost use Rattle.shelf_records.specs.Snapshots.{snapshot_records};

use crate::Records;
use crate::saving::{saved_items, saved_shelves};
use etagere_base::Frame;
use snapshot_records::shelves::AtlasSnapshot;
use std::alloc::AllocError;

/// What an atlas of this frame, these records and this allocated space is saved as.
pub fn snapshot_of(
    frame: &Frame,
    records: &Records,
    allocated_space: u32,
) -> Result<AtlasSnapshot, AllocError>
    requires frame { IsFrame longest_side frame.now }
    requires columns { HasAllColumns frame.now }
    requires space { allocated_space < 2 ^ 31 }
    ensures { IfOk result (λ snapshot. snapshot_records snapshot
        ≡ record { frame = frame.now; records = records.now; allocated_space = pos allocated_space }) }
{
    Ok(AtlasSnapshot {
        width: frame.width as i32,
        height: frame.height as i32,
        alignment_width: frame.alignment_width as i32,
        alignment_height: frame.alignment_height as i32,
        vertical_shelves: frame.vertical,
        shelf_width: frame.column_width as u16,
        first_shelf: records.first_shelf().bits(),
        free_items: records.unused_items().bits(),
        free_shelves: records.unused_shelves().bits(),
        allocated_space: allocated_space as i32,
        shelves: saved_shelves(records.allocator(), records.shelves())?,
        items: saved_items(records.allocator(), records.items())?,
    })
}
