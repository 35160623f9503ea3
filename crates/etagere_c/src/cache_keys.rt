//! The keys of a cache, looked at without using them.
//!
//! Definitions: `Calls`, `Crossing`, `Listed`, `Statuses`, and `Cache` of `glyph_shelf`.

ghost use Rattle.std.specs.Prelude.{◌≡◌, ◌↔◌, ◌≢◌, ◌<◌, [], ◌∷◌, None, Some, length, IfSome};
ghost use Rattle.glyph_shelf.specs.Cache.{listed, rectangle_at};
ghost use Rattle.etagere_shelves.specs.Plain.{rectangle_in};
ghost use Rattle.c_answers.specs.Calls.{IsAmong};
ghost use Rattle.c_answers.specs.Crossing.{entry_in};
ghost use Rattle.c_answers.specs.Listed.{AreWritten};
ghost use Rattle.c_answers.specs.Statuses as statuses;

use c_answers::EtagereCache;
use c_answers::cache_keys::write_all_entries;
use c_answers::geometry::{EtagereEntry, EtagereRectangle};
use c_answers::statuses::{NULL_HANDLE, OK, UNKNOWN_KEY};

/// Gives the rectangle of a key, without using it. The cache stays, with the order of use.
///
/// Answers ETAGERE_OK; ETAGERE_NULL_HANDLE; ETAGERE_UNKNOWN_KEY. Takes no memory, and constant time on average.
#[unsafe(no_mangle)]
pub extern "C" fn etagere_cache_peek(
    cache: &mut EtagereCache,
    key: u64,
    rectangle: &mut EtagereRectangle,
) -> u32
    ensures null { (result ≡ statuses.null_handle) ↔ (cache.old.state ≡ None) }
    ensures status { IsAmong (statuses.ok ∷ statuses.null_handle ∷ statuses.unknown_key ∷ []) result }
    ensures found { result ≡ statuses.ok → IfSome cache.old.state (λ held. rectangle_at held key ≡ Some (rectangle_in rectangle.new)) }
    ensures unknown { IfSome cache.old.state (λ held. (result ≡ statuses.unknown_key) ↔ (rectangle_at held key ≡ None)) }
    ensures unwritten { result ≢ statuses.ok → rectangle.new ≡ rectangle.old }
    ensures stays { cache.new.state ≡ cache.old.state }
{
    let Some(held) = cache.lend() else {
        return NULL_HANDLE;
    };
    match held.peek(key) {
        Some(found) => {
            *rectangle = EtagereRectangle::of(found);
            OK
        }
        None => UNKNOWN_KEY,
    }
}

/// Gives all keys with their rectangles, the most recently used first: writes them to the front of the buffer, and how
/// many there are to *count. What is behind stays, and the cache does, with the order of use.
///
/// Answers ETAGERE_OK; ETAGERE_NULL_HANDLE; ETAGERE_LENGTH where the buffer is shorter than there are keys: then *count
/// is written too, and nothing else. Takes no memory, and goes through the keys.
#[unsafe(no_mangle)]
pub extern "C" fn etagere_cache_entries(
    cache: &mut EtagereCache,
    entries: &mut [EtagereEntry],
    count: &mut usize,
) -> u32
    ensures null { (result ≡ statuses.null_handle) ↔ (cache.old.state ≡ None) }
    ensures status { IsAmong (statuses.ok ∷ statuses.null_handle ∷ statuses.too_short ∷ []) result }
    ensures counted { IfSome cache.old.state (λ held. count.new ≡ length (listed held)) }
    ensures short { IfSome cache.old.state (λ held. (result ≡ statuses.too_short) ↔ (length entries.old < length (listed held))) }
    ensures written { result ≡ statuses.ok → IfSome cache.old.state (λ held. AreWritten entry_in (listed held) entries.old entries.new) }
    ensures unwritten { result ≢ statuses.ok → entries.new ≡ entries.old }
    ensures uncounted { result ≡ statuses.null_handle → count.new ≡ count.old }
    ensures stays { cache.new.state ≡ cache.old.state }
{
    let Some(held) = cache.lend() else {
        return NULL_HANDLE;
    };
    write_all_entries(held, entries, count)
}
