//! Reading a saved atlas: serde reads the text, and what it read is then held against the text.
//!
//! Definition: `Snapshots`.

ghost use Rattle.std.specs.Prelude.{IfOk, IsTrue, OnOk};
ghost use Rattle.json.specs.Value.{value_view};
ghost use Rattle.saved_json.specs.Snapshots.{IsSaved, Spells};

use crate::holding::hold;
use crate::records::Spelled;
use crate::saved::{ReadFault, Saved};
use json::{Scratch, Value};
use std::alloc::Global;
use std::str;

/// Reads the JSON text of a saved atlas: an object with one key, `atlas` or `bucketed`, whose value is the snapshot.
///
/// A snapshot and its records are objects, with each field once, in any order, and others that are passed over; or they
/// are arrays of exactly their fields, in order. Takes memory for the snapshot and as much as the text has bytes, and
/// time linear in the bytes; a snapshot that is an array takes more memory, for its whole JSON value.
pub fn read_saved(alloc: Global, bytes: &[u8]) -> Result<Saved, ReadFault>
    ensures { IfOk result (λ saved. Spells bytes.now saved) }
{
    let saved = serde_json::from_slice(alloc, bytes).map_err(|_| ReadFault::Unreadable)?;
    let text = str::from_utf8(bytes).map_err(|_| ReadFault::Unreadable)?;
    match hold(alloc, text, &saved) {
        Ok(()) => Ok(saved),
        Err(ReadFault::Memory) => Err(ReadFault::Memory),
        Err(ReadFault::Unreadable) => {
            hold_whole(alloc, text, &saved)?;
            Ok(saved)
        }
    }
}

/// Holds a saved atlas against a text, whose whole value is kept.
fn hold_whole(alloc: Global, text: &str, saved: &Saved) -> Result<(), ReadFault>
    ensures { OnOk result (Spells text.now saved.now) }
{
    let mut scratch = Scratch::new(alloc);
    let json = Value::parse(alloc, text, &mut scratch)?;
    if is_saved(&json, saved) {
        Ok(())
    } else {
        Err(ReadFault::Unreadable)
    }
}
/// Whether a JSON value spells a saved atlas.
fn is_saved(json: &Value<'_>, saved: &Saved) -> bool
    ensures { IsTrue result → IsSaved (value_view json.now) saved.now }
{
    let Value::Object(members) = json else {
        return false;
    };
    let [(name, value)] = members.as_slice() else {
        return false;
    };
    match saved {
        Saved::Atlas(snapshot) => *name == "atlas" && snapshot.is_spelled_by(value),
        Saved::Bucketed(snapshot) => *name == "bucketed" && snapshot.is_spelled_by(value),
    }
}
