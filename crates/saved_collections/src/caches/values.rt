//! Whether a JSON value spells a snapshot of a cache.
//!
//! Definitions: `Caches`. The snapshot's type is in `glyph_shelf`, with its fields in their order.

ghost use Rattle.std.specs.Prelude.{IsTrue, codes};
ghost use Rattle.json.specs.Value.{items_view, value_view};
ghost use Rattle.saved_json.specs.JsonFields.{field};
ghost use Rattle.saved_json.specs.Records.{AreRecords};
ghost use Rattle.saved_json.specs.Snapshots.{IsArrayOf};
ghost use Rattle.saved_collections.specs.Caches.Values.{IsCache, IsSavedAtlas, IsSavedKey};

use etagere_shelves::AtlasSnapshot;
use glyph_shelf::{CacheSnapshot, SavedKey};
use json::Value;
use saved_json::{Spelled, field, holds_number};

/// Whether a JSON value spells a snapshot of a cache.
pub(crate) fn is_cache(json: &Value<'_>, snapshot: &CacheSnapshot) -> bool
    ensures { IsTrue result → IsCache (value_view json.now) snapshot.now }
{
    holds_number(json, 3, 0, "capacity", snapshot.capacity as u64)
        && holds_atlas(json, &snapshot.atlas)
        && holds_keys(json, snapshot.keys.as_slice())
}

/// Whether the field of the atlas holds this one.
fn holds_atlas(json: &Value<'_>, atlas: &AtlasSnapshot) -> bool
    ensures { IsTrue result → IsSavedAtlas (field 3 1 (codes "atlas") (value_view json.now)) atlas.now }
{
    match field(json, 3, 1, "atlas") {
        Some(value) => atlas.is_spelled_by(value),
        None => false,
    }
}

/// Whether the field of the keys holds an array of these.
fn holds_keys(json: &Value<'_>, keys: &[SavedKey]) -> bool
    ensures { IsTrue result → IsArrayOf IsSavedKey (field 3 2 (codes "keys") (value_view json.now)) keys.now }
{
    match field(json, 3, 2, "keys") {
        Some(Value::Array(items)) => are_keys(keys, items.as_slice()),
        _ => false,
    }
}

/// Whether the items of an array spell these keys, one by one.
fn are_keys(keys: &[SavedKey], items: &[Value<'_>]) -> bool
    ensures { IsTrue result → AreRecords IsSavedKey (items_view items.now) keys.now }
{
    if keys.len() != items.len() {
        return false;
    }
    for (i, key) in keys.iter().enumerate() {
        if !is_key(&items[i], key) {
            return false;
        }
    }
    true
}

/// Whether a JSON value spells a key.
fn is_key(json: &Value<'_>, saved: &SavedKey) -> bool
    ensures { IsTrue result → IsSavedKey (value_view json.now) saved.now }
{
    holds_number(json, 2, 0, "key", saved.key)
        && holds_number(json, 2, 1, "id", u64::from(saved.id.serialize()))
}
