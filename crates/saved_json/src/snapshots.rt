//! Whether a JSON value spells a snapshot.
//!
//! Definitions: `Snapshots`. A snapshot's type is in `shelf_records` or `bucketed_records`, with its fields in their order.

ghost use Rattle.std.specs.Prelude.{IsTrue};
ghost use Rattle.json.specs.Value.{items_view, value_view};
ghost use Rattle.saved_json.specs.JsonFields.{field};
ghost use Rattle.saved_json.specs.Records.{AreRecords};
ghost use Rattle.saved_json.specs.Snapshots.{HasAtlasFields, HasBucketedFields, HasColumns, HasSides, HasStarts, IsArrayOf, IsAtlas, IsBucketed};

use crate::json_fields::{field, holds_boolean, holds_natural, holds_whole};
use crate::records::Spelled;
use etagere_base::Size;
use json::Value;
use snapshot_records::buckets::BucketedSnapshot;
use snapshot_records::shelves::AtlasSnapshot;

impl Spelled for AtlasSnapshot {
    ghost spells = { IsAtlas };

    fn is_spelled_by(&self, json: &Value<'_>) -> bool {
        has_atlas_fields(json, self)
            && holds_records(json, 12, 10, "shelves", self.shelves.as_slice())
            && holds_records(json, 12, 11, "items", self.items.as_slice())
    }
}

impl Spelled for BucketedSnapshot {
    ghost spells = { IsBucketed };

    fn is_spelled_by(&self, json: &Value<'_>) -> bool {
        has_bucketed_fields(json, self)
            && holds_records(json, 13, 11, "shelves", self.shelves.as_slice())
            && holds_records(json, 13, 12, "buckets", self.buckets.as_slice())
    }
}

pub fn has_atlas_fields(json: &Value<'_>, snapshot: &AtlasSnapshot) -> bool
    ensures { IsTrue result → HasAtlasFields (value_view json.now) snapshot.now }
{
    let size = Size {
        width: snapshot.width,
        height: snapshot.height,
    };
    let alignment = Size {
        width: snapshot.alignment_width,
        height: snapshot.alignment_height,
    };
    has_sides(json, 12, size, alignment, snapshot.vertical_shelves) && has_starts(json, snapshot)
}

fn has_starts(json: &Value<'_>, snapshot: &AtlasSnapshot) -> bool
    ensures { IsTrue result → HasStarts (value_view json.now) snapshot.now }
{
    holds_natural(json, 12, 5, "shelf_width", snapshot.shelf_width)
        && holds_natural(json, 12, 6, "first_shelf", snapshot.first_shelf)
        && holds_natural(json, 12, 7, "free_items", snapshot.free_items)
        && holds_natural(json, 12, 8, "free_shelves", snapshot.free_shelves)
        && holds_whole(json, 12, 9, "allocated_space", snapshot.allocated_space)
}

pub fn has_bucketed_fields(json: &Value<'_>, snapshot: &BucketedSnapshot) -> bool
    ensures { IsTrue result → HasBucketedFields (value_view json.now) snapshot.now }
{
    let size = Size {
        width: snapshot.width,
        height: snapshot.height,
    };
    let alignment = Size {
        width: snapshot.alignment_width,
        height: snapshot.alignment_height,
    };
    has_sides(json, 13, size, alignment, snapshot.vertical_shelves) && has_columns(json, snapshot)
}

fn has_columns(json: &Value<'_>, snapshot: &BucketedSnapshot) -> bool
    ensures { IsTrue result → HasColumns (value_view json.now) snapshot.now }
{
    holds_natural(json, 13, 5, "column_width", snapshot.column_width)
        && holds_natural(json, 13, 6, "num_columns", snapshot.num_columns)
        && holds_natural(json, 13, 7, "current_column", snapshot.current_column)
        && holds_natural(json, 13, 8, "available_height", snapshot.available_height)
        && holds_natural(
            json,
            13,
            9,
            "first_unallocated_bucket",
            snapshot.first_unallocated_bucket,
        )
        && holds_whole(json, 13, 10, "allocated_space", snapshot.allocated_space)
}

/// Whether the fields hold these sides, with which a snapshot begins, of so many fields.
pub fn has_sides(
    json: &Value<'_>,
    count: usize,
    size: Size,
    alignment: Size,
    vertical: bool,
) -> bool
    ensures { IsTrue result → HasSides count (value_view json.now) size alignment vertical }
{
    holds_whole(json, count, 0, "width", size.width)
        && holds_whole(json, count, 1, "height", size.height)
        && holds_whole(json, count, 2, "alignment_width", alignment.width)
        && holds_whole(json, count, 3, "alignment_height", alignment.height)
        && holds_boolean(json, count, 4, "vertical_shelves", vertical)
}

/// Whether a field holds an array of these records.
pub fn holds_records<R: Spelled>(
    json: &Value<'_>,
    count: usize,
    position: usize,
    name: &str,
    records: &[R],
) -> bool
    ensures { IsTrue result → IsArrayOf R.spells (field count position name.now (value_view json.now)) records.now }
{
    match field(json, count, position, name) {
        Some(Value::Array(items)) => are_spelled(records, items.as_slice()),
        _ => false,
    }
}

/// Whether the items of an array spell these records, one by one.
fn are_spelled<R: Spelled>(records: &[R], items: &[Value<'_>]) -> bool
    ensures { IsTrue result → AreRecords R.spells (items_view items.now) records.now }
{
    if records.len() != items.len() {
        return false;
    }
    for (i, record) in records.iter().enumerate() {
        if !record.is_spelled_by(&items[i]) {
            return false;
        }
    }
    true
}
