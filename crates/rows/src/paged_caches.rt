//! Calls of a cache over several pages.

use atlas_pages::{PageOptions, PagedAllocation};
use paged_cache::runs::{PagedCall, PagedReply, answer_on_cache};
use paged_cache::{NewCacheFault, PagedCache, PlacedKey, PlacingFault};
use row_caches::caches::say_unentered;
use row_calls::lines::{
    capacity_of, key_and_size_of, key_of, numbers, say, say_bracketed, say_evicted, say_fault,
    say_number,
};
use row_calls::slots::{Called, NotMade};
use row_shelves::pages::options_of;
use std::alloc::Global;
use std::io;
use std::num::NonZeroUsize;

/// A cache over pages that is called by lines.
#[derive(Drop)]
pub struct CalledPagedCache(PagedCache);

impl Called for CalledPagedCache {
    /// The words are those of pages, and the capacity.
    fn made(alloc: Global, words: &str) -> Result<CalledPagedCache, NotMade> {
        let [.., capacity] = numbers(words);
        let capacity = capacity_of(capacity).ok_or(NotMade::Unread)?;
        match new_cache(alloc, &options_of(words), capacity) {
            Ok(cache) => Ok(CalledPagedCache(cache)),
            Err(fault) => Err(of_new_cache(fault)),
        }
    }

    fn answer(
        &mut self,
        rt: &(impl Print + AllocGlobal),
        call: &str,
        words: &str,
    ) -> io::Result<()> {
        let cache = &mut self.0;
        match call {
            "peek" => say_paged(rt, peek(cache, key_of(words))),
            "iter" => list(cache, rt),
            "len" => say_number(rt, len(cache)),
            "capacity" => say_number(rt, capacity(cache)),
            "open" => say_number(rt, open(cache)),
            _ => match call_of(call, words) {
                Some(call) => say_reply(rt, &answered(cache, call)),
                None => say(rt, "no such call"),
            },
        }
    }
}

fn of_new_cache(fault: NewCacheFault) -> NotMade {
    match fault {
        NewCacheFault::Memory => NotMade::NoMemory,
        NewCacheFault::Pages(_) => NotMade::Fault(fault.number()),
    }
}

/// The call that changes a cache, by its words, if it is one.
fn call_of(call: &str, words: &str) -> Option<PagedCall> {
    match call {
        "place" => Some(placement_of(words)),
        "get" => Some(PagedCall::Get(key_of(words))),
        "remove" => Some(PagedCall::Remove(key_of(words))),
        "clear" => Some(PagedCall::Clear),
        _ => None,
    }
}

fn placement_of(words: &str) -> PagedCall {
    let (key, size) = key_and_size_of(words);
    PagedCall::Place(key, size)
}

/// Writes what a call answers.
fn say_reply(rt: &impl Print, reply: &PagedReply) -> io::Result<()> {
    match reply {
        PagedReply::Placed(placed) => say_entered(rt, placed),
        PagedReply::TooLarge => say_fault(rt, PlacingFault::TooLarge.number()),
        PagedReply::NoMemory(evicted) => say_unentered(rt, evicted),
        PagedReply::At(paged) | PagedReply::Removed(paged) => say_paged(rt, Some(*paged)),
        PagedReply::NotThere => say_paged(rt, None),
        PagedReply::Cleared => say(rt, "cleared"),
    }
}

fn say_entered(rt: &impl Print, placed: &PlacedKey<PagedAllocation>) -> io::Result<()> {
    print!(rt; "page {} placed ", placed.allocation.page)?;
    say_bracketed(rt, &placed.allocation.allocation.rectangle)?;
    say_evicted(rt, &placed.evicted)
}

/// Writes the page and the corners of a place, or that there is none.
fn say_paged(rt: &impl Print, paged: Option<PagedAllocation>) -> io::Result<()> {
    let Some(paged) = paged else {
        return say(rt, "none");
    };
    print!(rt; "page {} ", paged.page)?;
    say_bracketed(rt, &paged.allocation.rectangle)?;
    say(rt, "")
}

/// Writes a line for each key with its place, and one that ends them.
fn list(cache: &PagedCache, rt: &impl Print) -> io::Result<()> {
    for (key, paged) in cache {
        print!(rt; "at {key} ")?;
        say_paged(rt, Some(paged))?;
    }
    say(rt, "end")
}

// What these calls promise ends in functions that promise nothing, so that it isn't gone through in what uses them.

fn new_cache(
    alloc: Global,
    options: &PageOptions,
    capacity: NonZeroUsize,
) -> Result<PagedCache, NewCacheFault> {
    PagedCache::new(alloc, options, capacity)
}

fn answered(cache: &mut PagedCache, call: PagedCall) -> PagedReply {
    answer_on_cache(cache, call)
}

fn peek(cache: &PagedCache, key: u64) -> Option<PagedAllocation> {
    cache.peek(key)
}

fn len(cache: &PagedCache) -> u64 {
    cache.len() as u64
}

fn capacity(cache: &PagedCache) -> u64 {
    cache.capacity().get() as u64
}

fn open(cache: &PagedCache) -> u64 {
    u64::from(cache.pages().page_count())
}
