//! Each call of a cache over pages does what the definition of runs says, and what holds of every run. `calls` has what
//! is asked and answered. Public, but not meant for users.
//!
//! Definition: `Runs`.

ghost use Rattle.paged_cache.specs.Runs.{EveryRunKeepsPromises, Step};

mod calls;

use crate::{PagedCache, PlacingFault};
pub use calls::{PagedCall, PagedReply};
use etagere_shelves::Size;

/// A cache, new or not, keeps its promises after each of its calls, whatever these are and whichever of the replies
/// that the definition allows are given, and what they tell is what is there.
pub fn every_run_keeps_promises()
    ensures { EveryRunKeepsPromises }
{}

/// Calls a cache, and gives what it answers.
///
/// Takes the memory of that call, and costs what it does.
pub fn answer_on_cache(cache: &mut PagedCache, call: PagedCall) -> PagedReply
    ensures { Step cache.old call result cache.new }
{
    match call {
        PagedCall::Place(key, size) => place(cache, key, size),
        PagedCall::Get(key) => get(cache, key),
        PagedCall::Remove(key) => remove(cache, key),
        PagedCall::Clear => clear(cache),
    }
}

fn place(cache: &mut PagedCache, key: u64, size: Size) -> PagedReply
    ensures { Step cache.old (PagedCall.Place key size) result cache.new }
{
    match cache.place(key, size) {
        Ok(placed) => PagedReply::Placed(placed),
        Err(PlacingFault::TooLarge) => PagedReply::TooLarge,
        Err(PlacingFault::Memory(evicted)) => PagedReply::NoMemory(evicted),
    }
}

fn get(cache: &mut PagedCache, key: u64) -> PagedReply
    ensures { Step cache.old (PagedCall.Get key) result cache.new }
{
    match cache.get(key) {
        Some(paged) => PagedReply::At(paged),
        None => PagedReply::NotThere,
    }
}

fn remove(cache: &mut PagedCache, key: u64) -> PagedReply
    ensures { Step cache.old (PagedCall.Remove key) result cache.new }
{
    match cache.remove(key) {
        Some(paged) => PagedReply::Removed(paged),
        None => PagedReply::NotThere,
    }
}

fn clear(cache: &mut PagedCache) -> PagedReply
    ensures { Step cache.old PagedCall.Clear result cache.new }
{
    cache.clear();
    PagedReply::Cleared
}
