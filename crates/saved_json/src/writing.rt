//! Writing a saved atlas: serde writes the text, which is then held against what was to be saved.
//!
//! Definition: `Snapshots`.

ghost use Rattle.std.specs.Prelude.{IfOk};
ghost use Rattle.saved_json.specs.Snapshots.{Spells};

use crate::holding::hold;
use crate::saved::Saved;
use std::alloc::{AllocError, Global};
use std::str;

/// Writes the JSON text of a saved atlas, as `read_saved` reads it, without a space.
///
/// The error comes only where there was no memory. Takes memory for the text and for one record's JSON value, and time
/// linear in the bytes.
pub fn write_saved(alloc: Global, saved: &Saved) -> Result<Vec<u8>, AllocError>
    ensures { IfOk result (λ text. Spells text.items saved.now) }
{
    let written = serde_json::to_vec(alloc, saved).map_err(|_| AllocError)?;
    let text = str::from_utf8(written.as_slice()).map_err(|_| AllocError)?;
    hold(alloc, text, saved).map_err(|_| AllocError)?;
    Ok(written)
}
