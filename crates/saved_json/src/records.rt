//! Whether a JSON value spells a record.
//!
//! Definitions: `Records`. A record's type is in `shelf_records` or `bucketed_records`, with its fields in their order.

ghost use Rattle.std.specs.Prelude.{IsTrue};
ghost use Rattle.json.specs.Json.{Json};
ghost use Rattle.json.specs.Value.{value_view};
ghost use Rattle.saved_json.specs.Records.{IsBucket, IsBucketShelf, IsItem, IsShelf};

use crate::json_fields::{holds_boolean, holds_natural};
use json::Value;
use snapshot_records::buckets::{BucketRecord, BucketShelfRecord};
use snapshot_records::shelves::{ItemRecord, ShelfRecord};

/// A record that a JSON value may spell.
pub trait Spelled {
    ghost use Rattle.json.specs.Json.{Json};

    ghost spells: { Json → Self → Type 0 };

    /// Whether a JSON value spells the record.
    fn is_spelled_by(&self, json: &Value<'_>) -> bool
        ensures { IsTrue result → spells (value_view json.now) self.now };
}

impl Spelled for ItemRecord {
    ghost spells = { IsItem };

    fn is_spelled_by(&self, json: &Value<'_>) -> bool {
        holds_natural(json, 9, 0, "x", self.x)
            && holds_natural(json, 9, 1, "width", self.width)
            && holds_natural(json, 9, 2, "prev", self.prev)
            && holds_natural(json, 9, 3, "next", self.next)
            && holds_natural(json, 9, 4, "prev_unallocated", self.prev_unallocated)
            && holds_natural(json, 9, 5, "next_unallocated", self.next_unallocated)
            && holds_natural(json, 9, 6, "shelf", self.shelf)
            && holds_boolean(json, 9, 7, "allocated", self.allocated)
            && holds_natural(json, 9, 8, "generation", self.generation)
    }
}

impl Spelled for BucketShelfRecord {
    ghost spells = { IsBucketShelf };

    fn is_spelled_by(&self, json: &Value<'_>) -> bool {
        holds_natural(json, 5, 0, "x", self.x)
            && holds_natural(json, 5, 1, "y", self.y)
            && holds_natural(json, 5, 2, "height", self.height)
            && holds_natural(json, 5, 3, "bucket_width", self.bucket_width)
            && holds_natural(json, 5, 4, "first_bucket", self.first_bucket)
    }
}

impl Spelled for ShelfRecord {
    ghost spells = { IsShelf };

    fn is_spelled_by(&self, json: &Value<'_>) -> bool {
        holds_natural(json, 8, 0, "x", self.x)
            && holds_natural(json, 8, 1, "y", self.y)
            && holds_natural(json, 8, 2, "height", self.height)
            && holds_natural(json, 8, 3, "prev", self.prev)
            && holds_natural(json, 8, 4, "next", self.next)
            && holds_natural(json, 8, 5, "first_item", self.first_item)
            && holds_natural(json, 8, 6, "first_unallocated", self.first_unallocated)
            && holds_boolean(json, 8, 7, "is_empty", self.is_empty)
    }
}

impl Spelled for BucketRecord {
    ghost spells = { IsBucket };

    fn is_spelled_by(&self, json: &Value<'_>) -> bool {
        holds_natural(json, 7, 0, "x", self.x)
            && holds_natural(json, 7, 1, "free_space", self.free_space)
            && holds_natural(json, 7, 2, "next", self.next)
            && holds_natural(json, 7, 3, "refcount", self.refcount)
            && holds_natural(json, 7, 4, "item_count", self.item_count)
            && holds_natural(json, 7, 5, "shelf", self.shelf)
            && holds_natural(json, 7, 6, "generation", u16::from(self.generation))
    }
}
