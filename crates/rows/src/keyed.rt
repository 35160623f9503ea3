//! Calls of keys with places of one atlas, which go as those of a cache of glyphs do.

use etagere::{AtlasAllocator, Size, size2};
use glyph_shelf::{GlyphFault, Placed};
use paged_cache::{KeyedAllocations, PlacedKey, PlacingFault};
use row_caches::caches::say_placed;
use row_calls::lines::{capacity_of, key_and_size_of, numbers, say};
use row_calls::slots::{Called, NotMade};
use std::alloc::Global;
use std::io;
use std::num::NonZeroUsize;

/// Keys that are called by lines.
#[derive(Drop)]
pub struct CalledKeys(KeyedAllocations<AtlasAllocator>);

impl Called for CalledKeys {
    /// The words are the sides of the atlas, and the capacity.
    fn made(alloc: Global, words: &str) -> Result<CalledKeys, NotMade> {
        let [width, height, capacity, ..] = numbers(words);
        let capacity = capacity_of(capacity).ok_or(NotMade::Unread)?;
        match new_keys(alloc, size2(width, height), capacity) {
            Some(keys) => Ok(CalledKeys(keys)),
            None => Err(NotMade::NoMemory),
        }
    }

    fn answer(
        &mut self,
        rt: &(impl Print + AllocGlobal),
        call: &str,
        words: &str,
    ) -> io::Result<()> {
        let (key, size) = key_and_size_of(words);
        match call {
            "place" => say_placed(rt, &placed(&mut self.0, key, size)),
            _ => say(rt, "no such call"),
        }
    }
}

// What these calls promise ends in functions that promise nothing, so that it isn't gone through in what uses them.

fn new_keys(
    alloc: Global,
    size: Size,
    capacity: NonZeroUsize,
) -> Option<KeyedAllocations<AtlasAllocator>> {
    let atlas = AtlasAllocator::new(alloc, size).ok()?;
    KeyedAllocations::new(alloc, capacity, atlas).ok()
}

fn placed(
    keys: &mut KeyedAllocations<AtlasAllocator>,
    key: u64,
    size: Size,
) -> Result<Placed, GlyphFault> {
    match keys.place(key, size) {
        Ok(
            PlacedKey {
                allocation,
                evicted,
            },
        ) => Ok(Placed {
            rectangle: allocation.rectangle,
            evicted,
        }),
        Err(PlacingFault::TooLarge) => Err(GlyphFault::TooLarge),
        Err(PlacingFault::Memory(evicted)) => Err(GlyphFault::Memory(evicted)),
    }
}
