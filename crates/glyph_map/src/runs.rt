//! Each call of a map does what the definition of runs says, and what holds of every run. `calls` has what is asked and
//! answered. Public, but not meant for users.
//!
//! Definitions: `Runs` for what a call does and what holds, `Told` for what replies tell.

ghost use Rattle.std.specs.Prelude.{◌≡◌, not};
ghost use Rattle.glyph_shelf.specs.Dropping.{is_one_of};
ghost use Rattle.glyph_map.specs.Runs.{EveryRunKeepsPromises, NeedsNoClone, Step};
ghost use Rattle.glyph_map.specs.Promises.{KeepsMapPromises};
ghost use Rattle.glyph_map.specs.Retaining.{AreClonesEqual};

mod calls;

use crate::GlyphMap;
pub use calls::{MapCall, MapReply};
use etagere_shelves::Size;
use std::hash::Hash;
use std::num::NonZeroUsize;

/// A map, new or not, keeps its promises after each of its calls, whatever these are and whichever of the replies that
/// the definition allows are given, and what they tell is what is there.
pub fn every_run_keeps_promises<K: Eq + Hash, V>()
    ensures { EveryRunKeepsPromises V K.eq }
{}

/// Calls a map, and gives what it answers.
///
/// Takes the memory of that call, and costs what it does. `retain_on_map` makes `Retain`, which clones keys.
pub fn answer_on_map<K: Eq + Hash + Drop, V: Drop>(
    map: &mut GlyphMap<K, V>,
    call: MapCall<K, V>,
) -> MapReply<K, V>
    requires { NeedsNoClone call }
    ensures { Step K.eq map.old call result map.new }
{
    match call {
        MapCall::Place(key, value, size) => place(map, key, value, size),
        MapCall::UseKey(key) => use_key(map, key),
        MapCall::Remove(key) => remove(map, key),
        MapCall::Retain(_) => unreachable!(),
        MapCall::BeginFrame => begin_frame(map),
        MapCall::Grow(size) => grow(map, size),
        MapCall::SetCapacity(capacity) => set_capacity(map, capacity),
        MapCall::Clear => clear(map),
    }
}

/// Retains the keys of a map that equal none of these, and gives what it answers. That is a step where a clone of a key
/// equals it, and wherever there was no memory.
///
/// Takes the memory of `retain`, and costs what it does; it goes through these keys for each key that is there.
pub fn retain_on_map<K: Eq + Hash + Clone, V: Drop>(
    map: &mut GlyphMap<K, V>,
    gone: Vec<K>,
) -> MapReply<K, V>
    ensures step { AreClonesEqual K.is_clone K.eq
        → Step K.eq map.old (MapCall.Retain gone) result map.new }
    ensures no_memory { result ≡ MapReply.NoMemory
        → Step K.eq map.old (MapCall.Retain gone) result map.new }
    ensures promises { KeepsMapPromises K.eq map.new }
{
    let stays = |key: &K, _: &V|
        ensures { result ≡ not (is_one_of K.eq gone.items key.now) }
    { !gone.contains(key) };
    match map.retain(stays) {
        Ok(()) => MapReply::Retained,
        Err(_) => MapReply::NoMemory,
    }
}

fn place<K: Eq + Hash + Drop, V: Drop>(
    map: &mut GlyphMap<K, V>,
    key: K,
    value: V,
    size: Size,
) -> MapReply<K, V>
    ensures { Step K.eq map.old (MapCall.Place key value size) result map.new }
{
    match map.place(key, value, size) {
        Ok(placed) => MapReply::Placed(placed),
        Err(refused) => MapReply::Refused(refused),
    }
}

fn use_key<K: Eq + Hash + Drop, V: Drop>(map: &mut GlyphMap<K, V>, key: K) -> MapReply<K, V>
    ensures { Step K.eq map.old (MapCall.UseKey key) result map.new }
{
    match map.use_key(&key) {
        Some(rectangle) => MapReply::At(rectangle),
        None => MapReply::NotThere,
    }
}

fn remove<K: Eq + Hash + Drop, V: Drop>(map: &mut GlyphMap<K, V>, key: K) -> MapReply<K, V>
    ensures { Step K.eq map.old (MapCall.Remove key) result map.new }
{
    match map.remove(&key) {
        Some((rectangle, value)) => MapReply::Removed(rectangle, value),
        None => MapReply::NotThere,
    }
}

fn begin_frame<K: Eq + Hash + Drop, V: Drop>(map: &mut GlyphMap<K, V>) -> MapReply<K, V>
    ensures { Step K.eq map.old MapCall.BeginFrame result map.new }
{
    map.begin_frame();
    MapReply::Begun
}

fn grow<K: Eq + Hash + Drop, V: Drop>(map: &mut GlyphMap<K, V>, size: Size) -> MapReply<K, V>
    ensures { Step K.eq map.old (MapCall.Grow size) result map.new }
{
    match map.grow(size) {
        Ok(()) => MapReply::Grown,
        Err(fault) => MapReply::NotGrown(fault),
    }
}

fn set_capacity<K: Eq + Hash + Drop, V: Drop>(
    map: &mut GlyphMap<K, V>,
    capacity: NonZeroUsize,
) -> MapReply<K, V>
    ensures { Step K.eq map.old (MapCall.SetCapacity capacity) result map.new }
{
    match map.set_capacity(capacity) {
        Ok(evicted) => MapReply::Evicted(evicted),
        Err(_) => MapReply::NoMemory,
    }
}

fn clear<K: Eq + Hash + Drop, V: Drop>(map: &mut GlyphMap<K, V>) -> MapReply<K, V>
    ensures { Step K.eq map.old MapCall.Clear result map.new }
{
    map.clear();
    MapReply::Cleared
}
