//! Reading saved pages: serde reads the text, and what it read is then held against the text.
//!
//! Definition: `Pages`.

ghost use Rattle.std.specs.Prelude.{IfOk, OnOk};
ghost use Rattle.saved_collections.specs.Pages.Values.{SpellsPages};

use crate::pages::texts::ReadPages;
use crate::pages::values::are_pages;
use atlas_pages::PagesSnapshot;
use json::{Scratch, Value};
use saved_json::ReadFault;
use std::alloc::Global;
use std::str;

/// Reads the JSON text of saved pages: an object with the sides and the alignment of a page, whether its shelves stand
/// upright, its number of columns, how many pages there may be, the `choice` among them, `first_fit` or `fullest_first`,
/// and the `pages`, each a snapshot as `saved_json::read_saved` reads it behind `atlas`.
///
/// The object has each field once, in any order, and others that are passed over; or there is an array of exactly its
/// fields, in order. Numbers are written in full, without a fraction or an exponent. Takes memory for the snapshot and for
/// the JSON value of the whole text, and time linear in the bytes.
pub fn read_saved_pages(alloc: Global, bytes: &[u8]) -> Result<PagesSnapshot, ReadFault>
    ensures { IfOk result (λ snapshot. SpellsPages bytes.now snapshot) }
{
    let read: ReadPages = serde_json::from_slice(alloc, bytes).map_err(|_| ReadFault::Unreadable)?;
    let text = str::from_utf8(bytes).map_err(|_| ReadFault::Unreadable)?;
    let snapshot = read.snapshot();
    hold(alloc, text, &snapshot)?;
    Ok(snapshot)
}

/// Holds pages against a text.
pub(crate) fn hold(alloc: Global, text: &str, snapshot: &PagesSnapshot) -> Result<(), ReadFault>
    ensures { OnOk result (SpellsPages text.now snapshot.now) }
{
    let mut scratch = Scratch::new(alloc);
    let json = Value::parse(alloc, text, &mut scratch)?;
    if are_pages(&json, snapshot) {
        Ok(())
    } else {
        Err(ReadFault::Unreadable)
    }
}
