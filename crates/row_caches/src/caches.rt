//! Calls of a cache of glyphs.

use crate::moved_caches;
use etagere::{AllocatorOptions, DEFAULT_OPTIONS, OptionsFault, Rectangle, Size, size2};
use glyph_shelf::laws::saved_and_restored;
use glyph_shelf::{CacheRestoreFault, CacheSnapshot, GlyphCache, GlyphFault, Placed};
use row_calls::lines::{
    key_and_size_of, key_of, numbers, parted, say, say_bracketed, say_evicted, say_fault, say_if,
    say_number, say_rectangle,
};
use row_calls::slots::{Called, NotMade, of_options};
use saved_collections::caches::{read_saved_cache, write_saved_cache};
use std::alloc::Global;
use std::io;
use std::num::NonZeroUsize;

/// A cache that is called by lines.
#[derive(Drop)]
pub struct CalledCache(GlyphCache);

impl Called for CalledCache {
    /// The words are the capacity of the cache, the sides of its atlas, and how many columns that has.
    fn made(alloc: Global, words: &str) -> Result<CalledCache, NotMade> {
        let (capacity, words) = parted(words);
        let capacity = NonZeroUsize::new(capacity.parse().unwrap_or(0)).ok_or(NotMade::Unread)?;
        let [width, height, num_columns, ..] = numbers(words);
        let options = AllocatorOptions {
            num_columns,
            ..DEFAULT_OPTIONS
        };
        match new_cache(alloc, size2(width, height), &options, capacity) {
            Ok(cache) => Ok(CalledCache(cache)),
            Err(fault) => Err(of_options(fault)),
        }
    }

    fn copied(&self, alloc: Global) -> Result<CalledCache, NotMade> {
        match copy_of(alloc, &self.0) {
            Ok(cache) => Ok(CalledCache(cache)),
            Err(_) => Err(NotMade::NoMemory),
        }
    }

    fn saved(&self, alloc: Global) -> Option<String> {
        text_of(alloc, &self.0)
    }

    fn restored(alloc: Global, text: &str) -> Result<CalledCache, NotMade> {
        let saved = read(alloc, text).ok_or(NotMade::Unread)?;
        match restored_of(alloc, saved) {
            Ok(cache) => Ok(CalledCache(cache)),
            Err(fault) => Err(not_restored(fault)),
        }
    }

    fn answer(
        &mut self,
        rt: &(impl Print + AllocGlobal),
        call: &str,
        words: &str,
    ) -> io::Result<()> {
        let cache = &mut self.0;
        match call {
            "place" => place(cache, rt, words),
            "get" => say_rectangle(rt, look(cache, key_of(words))),
            "remove" => say_rectangle(rt, remove(cache, key_of(words))),
            "retain" => retain(cache, rt, words),
            _ => answer_without_key(cache, rt, call, words),
        }
    }
}

fn answer_without_key(
    cache: &mut GlyphCache,
    rt: &(impl Print + AllocGlobal),
    call: &str,
    words: &str,
) -> io::Result<()> {
    match call {
        "clear" => clear(cache, rt),
        "frame" => begin_frame(cache, rt),
        "moved" => moved_caches::say_moved(cache, rt, words),
        "rearrange" => moved_caches::rearrange(cache, rt, words),
        _ => say_state(cache, rt, call),
    }
}

/// The calls that change nothing.
fn say_state(cache: &GlyphCache, rt: &impl Print, call: &str) -> io::Result<()> {
    match call {
        "used" => say_number(rt, used(cache)),
        "len" => say_number(rt, len(cache)),
        "capacity" => say_number(rt, capacity(cache)),
        "empty" => say_if(rt, is_empty(cache), "yes", "no"),
        "allocated" => say_number(rt, allocated(cache)),
        _ => say(rt, "no such call"),
    }
}

/// Places a key, whose number stands before its sides.
fn place(cache: &mut GlyphCache, rt: &impl Print, words: &str) -> io::Result<()> {
    let (key, size) = key_and_size_of(words);
    say_placed(rt, &placed(cache, key, size))
}

/// Writes what a key that is placed answers.
pub fn say_placed(rt: &impl Print, answer: &Result<Placed, GlyphFault>) -> io::Result<()> {
    match answer {
        Ok(placed) => say_entered(rt, placed),
        Err(GlyphFault::Memory(evicted)) => say_unentered(rt, evicted),
        Err(fault) => say_fault(rt, fault.number()),
    }
}

/// Writes where a key was placed, and which were evicted.
pub fn say_entered(rt: &impl Print, placed: &Placed) -> io::Result<()> {
    rt.print("placed ")?;
    say_bracketed(rt, &placed.rectangle)?;
    say_evicted(rt, &placed.evicted)
}

/// Writes that there was no memory, and which keys were evicted.
pub fn say_unentered(rt: &impl Print, evicted: &[u64]) -> io::Result<()> {
    rt.print("no memory")?;
    say_evicted(rt, evicted)
}

// What these calls promise ends in functions that promise nothing, so that it isn't gone through in what uses them.

fn new_cache(
    alloc: Global,
    size: Size,
    options: &AllocatorOptions,
    capacity: NonZeroUsize,
) -> Result<GlyphCache, OptionsFault> {
    GlyphCache::new(alloc, size, options, capacity)
}

fn copy_of(alloc: Global, cache: &GlyphCache) -> Result<GlyphCache, CacheRestoreFault> {
    saved_and_restored(alloc, cache)
}

fn text_of(alloc: Global, cache: &GlyphCache) -> Option<String> {
    write(alloc, &cache.snapshot().ok()?)
}

pub fn write(alloc: Global, saved: &CacheSnapshot) -> Option<String> {
    String::from_utf8(write_saved_cache(alloc, saved).ok()?).ok()
}

pub fn read(alloc: Global, text: &str) -> Option<CacheSnapshot> {
    read_saved_cache(alloc, text.as_bytes()).ok()
}

fn restored_of(alloc: Global, saved: CacheSnapshot) -> Result<GlyphCache, CacheRestoreFault> {
    GlyphCache::restore(alloc, saved)
}

fn not_restored(fault: CacheRestoreFault) -> NotMade {
    match fault {
        CacheRestoreFault::Memory => NotMade::NoMemory,
        _ => NotMade::Fault(fault.number()),
    }
}

fn placed(cache: &mut GlyphCache, key: u64, size: Size) -> Result<Placed, GlyphFault> {
    cache.place(key, size)
}

fn look(cache: &mut GlyphCache, key: u64) -> Option<Rectangle> {
    cache.get(key)
}

fn remove(cache: &mut GlyphCache, key: u64) -> Option<Rectangle> {
    cache.remove(key)
}

/// Keeps the keys that aren't below a number.
fn retain(cache: &mut GlyphCache, rt: &impl Print, words: &str) -> io::Result<()> {
    let least = key_of(words);
    cache.retain(|key, _| key >= least);
    say(rt, "retained")
}

fn clear(cache: &mut GlyphCache, rt: &impl Print) -> io::Result<()> {
    cache.clear();
    say(rt, "cleared")
}

fn begin_frame(cache: &mut GlyphCache, rt: &impl Print) -> io::Result<()> {
    cache.begin_frame();
    say(rt, "begun")
}

fn used(cache: &GlyphCache) -> u64 {
    cache.used_in_frame() as u64
}

fn len(cache: &GlyphCache) -> u64 {
    cache.len() as u64
}

fn capacity(cache: &GlyphCache) -> u64 {
    cache.capacity().get() as u64
}

fn is_empty(cache: &GlyphCache) -> bool {
    cache.is_empty()
}

/// What its atlas has allocated, which is never below 0.
fn allocated(cache: &GlyphCache) -> u64 {
    u64::try_from(cache.atlas().allocated_space()).unwrap_or(0)
}
