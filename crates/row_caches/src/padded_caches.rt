//! Calls of a cache of glyphs with a padding.

use crate::caches::{say_entered, say_unentered};
use etagere::{
    AllocatorOptions, AtlasGrowFault, DEFAULT_OPTIONS, OptionsFault, Rectangle, Size, size2,
};
use glyph_shelf::GlyphFault;
use padding::Padding;
use padding::caches::PaddedCache;
use padding::caches::runs::{PaddedCall, PaddedReply, answer_on_padded_cache};
use row_calls::lines::{
    capacity_of, key_and_size_of, key_of, numbers, say, say_evicted, say_fault, say_number,
    say_rectangle, size_of,
};
use row_calls::slots::{Called, NotMade, of_options};
use std::alloc::Global;
use std::io;
use std::num::NonZeroUsize;

/// A padded cache that is called by lines.
#[derive(Drop)]
pub struct CalledPaddedCache(PaddedCache);

impl Called for CalledPaddedCache {
    /// The words are the sides of the atlas, how many columns it has, the capacity, and how many pixels are around each
    /// rectangle.
    fn made(alloc: Global, words: &str) -> Result<CalledPaddedCache, NotMade> {
        let [width, height, num_columns, capacity, pixels, _] = numbers(words);
        let options = AllocatorOptions {
            num_columns,
            ..DEFAULT_OPTIONS
        };
        let padding = Padding::around(u16::try_from(pixels).unwrap_or(0));
        let capacity = capacity_of(capacity).ok_or(NotMade::Unread)?;
        match new_cache(alloc, size2(width, height), &options, capacity, padding) {
            Ok(cache) => Ok(CalledPaddedCache(cache)),
            Err(fault) => Err(of_options(fault)),
        }
    }

    fn answer(
        &mut self,
        rt: &(impl Print + AllocGlobal),
        call: &str,
        words: &str,
    ) -> io::Result<()> {
        let cache = &mut self.0;
        match call {
            "peek" => say_rectangle(rt, peek(cache, key_of(words))),
            "retain" => retain(cache, rt, words),
            "iter" => list(cache, rt),
            "len" => say_number(rt, len(cache)),
            _ => change(cache, rt, call, words),
        }
    }
}

fn change(cache: &mut PaddedCache, rt: &impl Print, call: &str, words: &str) -> io::Result<()> {
    match call_of(call, words) {
        Some(call) => say_reply(rt, &answered(cache, call)),
        None => say(rt, "no such call"),
    }
}

/// The call that changes a cache, by its words, if it is one.
fn call_of(call: &str, words: &str) -> Option<PaddedCall> {
    match call {
        "place" => Some(placement_of(words)),
        "get" => Some(PaddedCall::Get(key_of(words))),
        "remove" => Some(PaddedCall::Remove(key_of(words))),
        "frame" => Some(PaddedCall::BeginFrame),
        "clear" => Some(PaddedCall::Clear),
        "grow" => Some(PaddedCall::Grow(size_of(words))),
        "keep" => Some(PaddedCall::SetCapacity(most_of(words))),
        _ => None,
    }
}

fn placement_of(words: &str) -> PaddedCall {
    let (key, size) = key_and_size_of(words);
    PaddedCall::Place(key, size)
}

/// So many keys at most.
fn most_of(words: &str) -> NonZeroUsize {
    let [most, ..] = numbers(words);
    capacity_of(most).unwrap_or(NonZeroUsize::MIN)
}

/// Writes what a call answers.
fn say_reply(rt: &impl Print, reply: &PaddedReply) -> io::Result<()> {
    match reply {
        PaddedReply::Placed(placed) => say_entered(rt, placed),
        PaddedReply::Refused(GlyphFault::Memory(evicted)) => say_unentered(rt, evicted),
        PaddedReply::Refused(fault) => say_fault(rt, fault.number()),
        PaddedReply::At(rectangle) | PaddedReply::Removed(rectangle) => {
            say_rectangle(rt, Some(*rectangle))
        }
        PaddedReply::NotThere => say_rectangle(rt, None),
        PaddedReply::Evicted(evicted) => say_evicted(rt, evicted),
        PaddedReply::NotGrown(AtlasGrowFault::Memory) | PaddedReply::NoMemory => {
            say(rt, "no memory")
        }
        PaddedReply::NotGrown(fault) => say_fault(rt, fault.number()),
        PaddedReply::Retained => say(rt, "retained"),
        PaddedReply::Begun => say(rt, "begun"),
        PaddedReply::Grown => say(rt, "grown"),
        PaddedReply::Cleared => say(rt, "cleared"),
    }
}

/// Writes a line for each key with its rectangle, and one that ends them.
fn list(cache: &PaddedCache, rt: &impl Print) -> io::Result<()> {
    for (key, rectangle) in cache {
        print!(rt; "at {key} ")?;
        say_rectangle(rt, Some(rectangle))?;
    }
    say(rt, "end")
}

// What these calls promise ends in functions that promise nothing, so that it isn't gone through in what uses them.

fn new_cache(
    alloc: Global,
    size: Size,
    options: &AllocatorOptions,
    capacity: NonZeroUsize,
    padding: Padding,
) -> Result<PaddedCache, OptionsFault> {
    PaddedCache::new(alloc, size, options, capacity, padding)
}

fn answered(cache: &mut PaddedCache, call: PaddedCall) -> PaddedReply {
    answer_on_padded_cache(cache, call)
}

fn peek(cache: &PaddedCache, key: u64) -> Option<Rectangle> {
    cache.peek(key)
}

/// Keeps the keys that aren't below a number, and of which the rectangle begins above row 17.
fn retain(cache: &mut PaddedCache, rt: &impl Print, words: &str) -> io::Result<()> {
    let least = key_of(words);
    cache.retain(|key, rectangle| key >= least && rectangle.min.y < 17);
    say(rt, "retained")
}

fn len(cache: &PaddedCache) -> u64 {
    cache.cache().len() as u64
}
