//! All that is allocated, written to the front of a buffer.
//!
//! Definitions: `Calls`, `Listed`, `Statuses`, and `Listing` of the shelf atlas.

ghost use Rattle.std.specs.Prelude.{◌≡◌, ◌↔◌, ◌≢◌, ◌<◌, ◌≤◌, [], ◌∷◌, length};
ghost use Rattle.shelf_model.specs.Listing.{listed};
ghost use Rattle.etagere_shelves.specs.Plain.{allocation_in};
ghost use Rattle.c_answers.specs.Calls.{IsAmong};
ghost use Rattle.c_answers.specs.Listed.{AreWritten};
ghost use Rattle.c_answers.specs.Statuses as statuses;

use crate::geometry::EtagereAllocation;
use crate::statuses::{LENGTH, OK};
use etagere::AtlasAllocator;

/// Writes all that is allocated to the front of a buffer that has room for it.
pub fn write_each(atlas: &AtlasAllocator, allocations: &mut [EtagereAllocation])
    requires { length (listed atlas.now) ≤ length allocations.old }
    ensures { AreWritten allocation_in (listed atlas.now) allocations.old allocations.new }
{
    let mut written: usize = 0;
    for allocation in atlas {
        allocations[written] = EtagereAllocation::of(allocation);
        written += 1;
    }
}

/// How many there are, and all of them where the buffer has room.
pub fn write_all(
    atlas: &AtlasAllocator,
    allocations: &mut [EtagereAllocation],
    count: &mut usize,
) -> u32
    ensures status { IsAmong (statuses.ok ∷ statuses.too_short ∷ []) result }
    ensures counted { count.new ≡ length (listed atlas.now) }
    ensures short { (result ≡ statuses.too_short) ↔ (length allocations.old < length (listed atlas.now)) }
    ensures written { result ≡ statuses.ok → AreWritten allocation_in (listed atlas.now) allocations.old allocations.new }
    ensures unwritten { result ≢ statuses.ok → allocations.new ≡ allocations.old }
{
    *count = atlas.iter().count();
    if allocations.len() < *count {
        return LENGTH;
    }
    write_each(atlas, allocations);
    OK
}
