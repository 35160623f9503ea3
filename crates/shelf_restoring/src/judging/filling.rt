//! Whether a shelf is empty.
//!
//! Definitions: `is_one_free` of `State`.

ghost use Rattle.std.specs.Prelude.{◌≡◌, map};
ghost use Rattle.shelf_model.specs.State as state;
ghost use Rattle.shelf_records.specs.AtlasRecords.{item_at};

use shelf_records::{LinkedItem, fields};

/// Whether these items are one, and that is free.
pub fn is_one_free(items: &[LinkedItem], numbers: &[u16]) -> bool
    ensures { result ≡ state.is_one_free (map (item_at items.now) numbers.now) }
{
    numbers.len() == 1 && !fields::is_allocated(items, usize::from(numbers[0]))
}
