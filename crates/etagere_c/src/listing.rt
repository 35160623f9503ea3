//! All that is allocated, in a buffer of the caller.
//!
//! Definitions: `Calls`, `Listed`, `Statuses`, and `Listing` of the shelf atlas.

ghost use Rattle.std.specs.Prelude.{◌≡◌, ◌↔◌, ◌≢◌, ◌<◌, [], ◌∷◌, None, length, IfSome};
ghost use Rattle.shelf_model.specs.Listing.{listed};
ghost use Rattle.etagere_shelves.specs.Plain.{allocation_in};
ghost use Rattle.c_answers.specs.Calls.{IsAmong};
ghost use Rattle.c_answers.specs.Listed.{AreWritten};
ghost use Rattle.c_answers.specs.Statuses as statuses;

use c_answers::EtagereAtlas;
use c_answers::geometry::EtagereAllocation;
use c_answers::listing::write_all;
use c_answers::statuses::NULL_HANDLE;

/// Gives all that is allocated, by rising index: writes it to the front of the buffer, and how many there are to
/// *count. What is behind stays, and the atlas does.
///
/// Answers ETAGERE_OK; ETAGERE_NULL_HANDLE; ETAGERE_LENGTH where the buffer is shorter than there are allocations: then
/// *count is written too, and nothing else. Takes no memory, and goes through all records twice.
#[unsafe(no_mangle)]
pub extern "C" fn etagere_atlas_allocations(
    atlas: &mut EtagereAtlas,
    allocations: &mut [EtagereAllocation],
    count: &mut usize,
) -> u32
    ensures null { (result ≡ statuses.null_handle) ↔ (atlas.old.state ≡ None) }
    ensures status { IsAmong (statuses.ok ∷ statuses.null_handle ∷ statuses.too_short ∷ []) result }
    ensures counted { IfSome atlas.old.state (λ held. count.new ≡ length (listed held)) }
    ensures short { IfSome atlas.old.state (λ held. (result ≡ statuses.too_short) ↔ (length allocations.old < length (listed held))) }
    ensures written { result ≡ statuses.ok → IfSome atlas.old.state (λ held. AreWritten allocation_in (listed held) allocations.old allocations.new) }
    ensures unwritten { result ≢ statuses.ok → allocations.new ≡ allocations.old }
    ensures uncounted { result ≡ statuses.null_handle → count.new ≡ count.old }
    ensures stays { atlas.new.state ≡ atlas.old.state }
{
    let Some(held) = atlas.lend() else {
        return NULL_HANDLE;
    };
    write_all(held, allocations, count)
}
