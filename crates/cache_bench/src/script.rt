//! A cache of glyph places, and the calls that lines ask for: `cache W H CAPACITY` is the first one, and behind it
//! `p KEY W H` places a key, and `g KEY` looks one up.

use anyhow::{Context, Result};
use etagere::{AllocatorOptions, Size, size2};
use glyph_shelf::GlyphCache;
use std::alloc::Global;
use std::mem;
use std::num::NonZeroUsize;

/// A cache, and the calls on it.
#[derive(Drop)]
pub struct CacheScript {
    size: Size,
    capacity: NonZeroUsize,
    calls: Vec<CacheCall>,
}

#[derive(Clone, Copy)]
enum CacheCall {
    Place(u64, Size),
    Get(u64),
}

impl CacheScript {
    /// Reads lines.
    pub fn read(alloc: Global, text: &str) -> Result<CacheScript> {
        let mut lines = text.lines();
        let header = lines.next().context("no line")?;
        let (size, capacity) = header_of(header).context("no cache")?;
        let mut calls = Vec::new(alloc);
        for line in lines {
            calls.push(call_of(line).context("no call")?)?;
        }
        Ok(CacheScript {
            size,
            capacity,
            calls,
        })
    }

    /// Makes all calls on a new cache, and counts those that gave a rectangle. The cache isn't dropped: its keys would go
    /// one by one, which no call asks for.
    pub fn call_all(&self, alloc: Global) -> Result<u64> {
        let options = AllocatorOptions::default();
        let mut cache = GlyphCache::new(alloc, self.size, &options, self.capacity)?;
        let mut given = 0_u64;
        for call in self.calls.iter() {
            if gives(&mut cache, *call) {
                given = given.saturating_add(1);
            }
        }
        mem::forget(cache);
        Ok(given)
    }
}

/// Makes a call, and says whether it gave a rectangle.
fn gives(cache: &mut GlyphCache, call: CacheCall) -> bool {
    match call {
        CacheCall::Place(key, size) => cache.place(key, size).is_ok(),
        CacheCall::Get(key) => cache.get(key).is_some(),
    }
}

/// The size and the capacity of a cache.
fn header_of(line: &str) -> Option<(Size, NonZeroUsize)> {
    let mut words = line.split(' ').skip(1);
    let width = words.next()?.parse().ok()?;
    let height = words.next()?.parse().ok()?;
    let capacity = words.next()?.parse().ok()?;
    Some((size2(width, height), NonZeroUsize::new(capacity)?))
}

/// The call that a line asks for.
fn call_of(line: &str) -> Option<CacheCall> {
    let mut words = line.split(' ');
    let name = words.next()?;
    let key = words.next()?.parse().ok()?;
    if name == "g" {
        return Some(CacheCall::Get(key));
    }
    let width = words.next()?.parse().ok()?;
    let height = words.next()?.parse().ok()?;
    Some(CacheCall::Place(key, size2(width, height)))
}
