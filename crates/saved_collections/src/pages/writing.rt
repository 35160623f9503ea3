//! Writing saved pages: serde writes the text, which is then held against what was to be saved.
//!
//! Definition: `Pages`.

ghost use Rattle.std.specs.Prelude.{IfOk};
ghost use Rattle.saved_collections.specs.Pages.Values.{SpellsPages};

use crate::pages::reading::hold;
use crate::pages::texts::text_of;
use atlas_pages::PagesSnapshot;
use std::alloc::{AllocError, Global};
use std::str;

/// Writes the JSON text of saved pages, as `read_saved_pages` reads it, without a space.
///
/// The error comes only where there was no memory. Takes memory for the text and for the JSON value of
/// the whole text, and time linear in the bytes.
pub fn write_saved_pages(alloc: Global, snapshot: &PagesSnapshot) -> Result<Vec<u8>, AllocError>
    ensures { IfOk result (λ text. SpellsPages text.items snapshot.now) }
{
    let written = text_of(alloc, snapshot)?;
    let text = str::from_utf8(written.as_slice()).map_err(|_| AllocError)?;
    hold(alloc, text, snapshot).map_err(|_| AllocError)?;
    Ok(written)
}
