//! Reading a saved cache: serde reads the text, and what it read is then held against the text.
//!
//! Definition: `Caches`.

ghost use Rattle.std.specs.Prelude.{IfOk, OnOk};
ghost use Rattle.saved_collections.specs.Caches.Values.{SpellsCache};

use crate::caches::texts::ReadCache;
use crate::caches::values::is_cache;
use glyph_shelf::CacheSnapshot;
use json::{Scratch, Value};
use saved_json::ReadFault;
use std::alloc::Global;
use std::str;

/// Reads the JSON text of a saved cache: an object with its `capacity`, its `atlas`, which is a snapshot as
/// `saved_json::read_saved` reads it, and its `keys`, the most recently used first, each with its `key` and its `id`.
///
/// The cache and its keys are objects, with each field once, in any order, and others that are passed over; or they are
/// arrays of exactly their fields, in order. Numbers are written in full, without a fraction or an exponent. Takes memory
/// for the snapshot, for its keys twice, and for the JSON value of the whole text; and time linear in the bytes.
pub fn read_saved_cache(alloc: Global, bytes: &[u8]) -> Result<CacheSnapshot, ReadFault>
    ensures { IfOk result (λ snapshot. SpellsCache bytes.now snapshot) }
{
    let read: ReadCache = serde_json::from_slice(alloc, bytes).map_err(|_| ReadFault::Unreadable)?;
    let text = str::from_utf8(bytes).map_err(|_| ReadFault::Unreadable)?;
    let snapshot = read.snapshot(alloc).map_err(|_| ReadFault::Memory)?;
    hold(alloc, text, &snapshot)?;
    Ok(snapshot)
}

/// Holds a cache against a text.
pub(crate) fn hold(alloc: Global, text: &str, snapshot: &CacheSnapshot) -> Result<(), ReadFault>
    ensures { OnOk result (SpellsCache text.now snapshot.now) }
{
    let mut scratch = Scratch::new(alloc);
    let json = Value::parse(alloc, text, &mut scratch)?;
    if is_cache(&json, snapshot) {
        Ok(())
    } else {
        Err(ReadFault::Unreadable)
    }
}
