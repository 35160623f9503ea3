//! Numbers by which a cache knows keys.

ghost use Rattle.std.specs.Prelude.{◌≡◌, ◌<◌, ◌^◌, length};
ghost use Rattle.glyph_shelf.specs.Placing.{IsNew};
ghost use Rattle.glyph_map.specs.Private.Outcomes.{IsFaultOf, went};

use crate::faults::MapFault;
use glyph_shelf::{GlyphCache, GlyphFault, Placed};

/// A number that no key of a cache has: the next one, or once these have come round and it is taken, the least one.
pub(crate) fn unused_ticket(cache: &GlyphCache, next: u64) -> u64
    requires { length cache.now.entries < 2 ^ 63 }
    ensures { IsNew cache.now result }
{
    if cache.peek(next).is_none() {
        return next;
    }
    for ticket in 0..cache.len() as u64 + 1 {
        if cache.peek(ticket).is_none() {
            return ticket;
        }
    }
    unreachable!()
}

/// How many keys a cache evicted when a key was placed, or wasn't.
pub(crate) fn evictions(outcome: &Result<Placed, GlyphFault>) -> usize
    ensures { result ≡ length (went outcome.now) }
{
    match outcome {
        Ok(placed) => placed.evicted.len(),
        Err(GlyphFault::Memory(evicted)) => evicted.len(),
        Err(_) => 0,
    }
}

/// The fault of a map whose cache refused a key for this fault, when these had gone.
pub(crate) fn with_evicted<K: Drop, V: Drop>(
    fault: GlyphFault,
    evicted: Vec<(K, V)>,
) -> MapFault<K, V>
    ensures { IsFaultOf fault evicted.items result }
{
    match fault {
        GlyphFault::TooLarge => MapFault::TooLarge,
        GlyphFault::Memory(_) => MapFault::Memory(evicted),
        GlyphFault::FrameFull => MapFault::FrameFull,
    }
}
