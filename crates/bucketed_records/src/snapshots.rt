//! What a bucketed atlas of these records is saved as.
//!
//! Definitions: `Restoring`.

ghost use Rattle.std.specs.Prelude.{◌≡◌, ◌<◌, ◌^◌, pos, map};
ghost use Rattle.bucketed_model.specs.Frames.{IsBucketedFrame};
ghost use Rattle.bucketed_records.specs.Restoring as spec;

use etagere_base::Frame;
use etagere_links::Link;
use snapshot_records::buckets::{BucketRecord, BucketShelfRecord, BucketedSnapshot};

/// What an atlas says beside its records: the current column, the height that it leaves, and the space.
#[derive(Clone, Copy)]
pub struct Totals {
    pub column: u32,
    pub height: u32,
    pub space: u32,
}

/// The snapshot of these records.
pub fn snapshot_of(
    frame: &Frame,
    said: Totals,
    unused: Link,
    shelves: Vec<BucketShelfRecord>,
    buckets: Vec<BucketRecord>,
) -> BucketedSnapshot
    requires frame { IsBucketedFrame frame.now }
    requires column_width { frame.now.column_width < 2 ^ 16 }
    requires columns { frame.now.columns < 2 ^ 16 }
    requires column { said.column < 2 ^ 16 }
    requires height { said.height < 2 ^ 16 }
    requires space { said.space < 2 ^ 31 }
    ensures { spec.snapshot_records result
        ≡ record {
          frame = frame.now;
          shelves = map spec.linked_shelf shelves.items;
          buckets = map spec.linked_bucket buckets.items;
          unused = unused;
          current_column = said.column;
          available_height = said.height;
          allocated_space = pos said.space;
        } }
{
    BucketedSnapshot {
        width: frame.width as i32,
        height: frame.height as i32,
        alignment_width: frame.alignment_width as i32,
        alignment_height: frame.alignment_height as i32,
        vertical_shelves: frame.vertical,
        column_width: frame.column_width as u16,
        num_columns: frame.columns as u16,
        current_column: said.column as u16,
        available_height: said.height as u16,
        first_unallocated_bucket: unused.bits(),
        allocated_space: said.space as i32,
        shelves,
        buckets,
    }
}
