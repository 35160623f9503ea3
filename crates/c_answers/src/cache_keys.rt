//! All keys of a cache, written to the front of a buffer.
//!
//! Definitions: `Calls`, `Crossing`, `Listed`, `Statuses`, and `Cache` of `glyph_shelf`.

ghost use Rattle.std.specs.Prelude.{◌≡◌, ◌↔◌, ◌≢◌, ◌<◌, ◌≤◌, [], ◌∷◌, length};
ghost use Rattle.glyph_shelf.specs.Cache.{listed};
ghost use Rattle.c_answers.specs.Calls.{IsAmong};
ghost use Rattle.c_answers.specs.Crossing.{entry_in};
ghost use Rattle.c_answers.specs.Listed.{AreWritten};
ghost use Rattle.c_answers.specs.Statuses as statuses;

use crate::geometry::EtagereEntry;
use crate::statuses::{LENGTH, OK};
use glyph_shelf::GlyphCache;

/// Writes all keys with their rectangles to the front of a buffer that has room for them.
pub fn write_each_entry(cache: &GlyphCache, entries: &mut [EtagereEntry])
    requires { length (listed cache.now) ≤ length entries.old }
    ensures { AreWritten entry_in (listed cache.now) entries.old entries.new }
{
    let mut written: usize = 0;
    for entry in cache {
        entries[written] = EtagereEntry::of(entry);
        written += 1;
    }
}

/// How many keys there are, and all of them where the buffer has room.
pub fn write_all_entries(cache: &GlyphCache, entries: &mut [EtagereEntry], count: &mut usize) -> u32
    ensures status { IsAmong (statuses.ok ∷ statuses.too_short ∷ []) result }
    ensures counted { count.new ≡ length (listed cache.now) }
    ensures short { (result ≡ statuses.too_short) ↔ (length entries.old < length (listed cache.now)) }
    ensures written { result ≡ statuses.ok → AreWritten entry_in (listed cache.now) entries.old entries.new }
    ensures unwritten { result ≢ statuses.ok → entries.new ≡ entries.old }
{
    *count = cache.len();
    if entries.len() < *count {
        return LENGTH;
    }
    write_each_entry(cache, entries);
    OK
}
