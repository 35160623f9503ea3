//! Writing a saved cache: serde writes the text, which is then held against what was to be saved.
//!
//! Definition: `Caches`.

ghost use Rattle.std.specs.Prelude.{IfOk};
ghost use Rattle.saved_collections.specs.Caches.Values.{SpellsCache};

use crate::caches::reading::hold;
use crate::caches::texts::text_of;
use glyph_shelf::CacheSnapshot;
use std::alloc::{AllocError, Global};
use std::str;

/// Writes the JSON text of a saved cache, as `read_saved_cache` reads it, without a space.
///
/// The error comes only where there was no memory. Takes memory for the text, for the keys and for the JSON value of
/// the whole text, and time linear in the bytes.
pub fn write_saved_cache(alloc: Global, snapshot: &CacheSnapshot) -> Result<Vec<u8>, AllocError>
    ensures { IfOk result (λ text. SpellsCache text.items snapshot.now) }
{
    let written = text_of(alloc, snapshot)?;
    let text = str::from_utf8(written.as_slice()).map_err(|_| AllocError)?;
    hold(alloc, text, snapshot).map_err(|_| AllocError)?;
    Ok(written)
}
