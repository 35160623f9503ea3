//! Each call of a cache with a padding does what the definition of runs says, and what holds of every run. `calls` has
//! what is asked and answered. Public, but not meant for users.
//!
//! Definition: `Runs`.

ghost use Rattle.std.specs.Prelude.{◌≡◌, nat_eq, not};
ghost use Rattle.glyph_shelf.specs.Dropping.{is_one_of};
ghost use Rattle.padding.specs.Caches.Runs.{EveryRunKeepsPromises, Step};

mod calls;

use crate::caches::PaddedCache;
pub use calls::{PaddedCall, PaddedReply};
use etagere_shelves::{Rectangle, Size};
use std::num::NonZeroUsize;

/// A cache with a padding, new or not, keeps its promises after each of its calls, whatever these are and whichever of
/// the replies that the definition allows are given, and what they tell is what is there.
pub fn every_run_keeps_promises()
    ensures { EveryRunKeepsPromises }
{}

/// Calls a cache, and gives what it answers.
///
/// Takes the memory of that call, and costs what it does; `Retain` goes through its keys for each key that is there.
pub fn answer_on_padded_cache(cache: &mut PaddedCache, call: PaddedCall) -> PaddedReply
    ensures { Step cache.old call result cache.new }
{
    match call {
        PaddedCall::Place(key, size) => place(cache, key, size),
        PaddedCall::Get(key) => get(cache, key),
        PaddedCall::Remove(key) => remove(cache, key),
        PaddedCall::Retain(gone) => retain(cache, gone),
        PaddedCall::BeginFrame => begin_frame(cache),
        PaddedCall::Grow(size) => grow(cache, size),
        PaddedCall::SetCapacity(capacity) => set_capacity(cache, capacity),
        PaddedCall::Clear => clear(cache),
    }
}

fn place(cache: &mut PaddedCache, key: u64, size: Size) -> PaddedReply
    ensures { Step cache.old (PaddedCall.Place key size) result cache.new }
{
    match cache.place(key, size) {
        Ok(placed) => PaddedReply::Placed(placed),
        Err(fault) => PaddedReply::Refused(fault),
    }
}

fn get(cache: &mut PaddedCache, key: u64) -> PaddedReply
    ensures { Step cache.old (PaddedCall.Get key) result cache.new }
{
    match cache.get(key) {
        Some(rectangle) => PaddedReply::At(rectangle),
        None => PaddedReply::NotThere,
    }
}

fn remove(cache: &mut PaddedCache, key: u64) -> PaddedReply
    ensures { Step cache.old (PaddedCall.Remove key) result cache.new }
{
    match cache.remove(key) {
        Some(rectangle) => PaddedReply::Removed(rectangle),
        None => PaddedReply::NotThere,
    }
}

fn retain(cache: &mut PaddedCache, gone: Vec<u64>) -> PaddedReply
    ensures { Step cache.old (PaddedCall.Retain gone) result cache.new }
{
    let stays = |key: u64, _: Rectangle|
        ensures { result ≡ not (is_one_of nat_eq gone.items key) }
    { !gone.contains(&key) };
    cache.retain(stays);
    PaddedReply::Retained
}

fn begin_frame(cache: &mut PaddedCache) -> PaddedReply
    ensures { Step cache.old PaddedCall.BeginFrame result cache.new }
{
    cache.begin_frame();
    PaddedReply::Begun
}

fn grow(cache: &mut PaddedCache, size: Size) -> PaddedReply
    ensures { Step cache.old (PaddedCall.Grow size) result cache.new }
{
    match cache.grow(size) {
        Ok(()) => PaddedReply::Grown,
        Err(fault) => PaddedReply::NotGrown(fault),
    }
}

fn set_capacity(cache: &mut PaddedCache, capacity: NonZeroUsize) -> PaddedReply
    ensures { Step cache.old (PaddedCall.SetCapacity capacity) result cache.new }
{
    match cache.set_capacity(capacity) {
        Ok(evicted) => PaddedReply::Evicted(evicted),
        Err(_) => PaddedReply::NoMemory,
    }
}

fn clear(cache: &mut PaddedCache) -> PaddedReply
    ensures { Step cache.old PaddedCall.Clear result cache.new }
{
    cache.clear();
    PaddedReply::Cleared
}
