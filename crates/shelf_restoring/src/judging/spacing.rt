//! Whether no unused record is allocated, and whether the allocated space is the sum that it should
//! be.
//!
//! Definitions: the rules `Unused` and `Space` of `Keeps`.

ghost use Rattle.std.specs.Prelude.{◌≡◌, false, pos, Decides};
ghost use Rattle.std.specs.List.{AllByRecursion};
ghost use Rattle.shelf_records.specs.AtlasRecords as spec;

use shelf_records::{LinkedItem, fields};

/// Whether none of these items is allocated.
pub fn none_allocated(items: &[LinkedItem], numbers: &[u16]) -> bool
    ensures { Decides result
        (AllByRecursion (λ item. spec.is_allocated_at items.now item ≡ false) numbers.now) }
{
    for number in numbers {
        if fields::is_allocated(items, usize::from(*number)) {
            return false;
        }
    }
    true
}

/// Whether this is the area that a snapshot says.
pub fn is_space(space: u64, allocated: i32) -> bool
    ensures { Decides result (allocated ≡ pos space) }
{
    match u64::try_from(allocated) {
        Ok(allocated) => allocated == space,
        Err(_) => false,
    }
}
