//! The calls that change a map, as values, and what each answers.
//!
//! The definition of runs (`Runs`) matches on them.

use crate::{Placed, Refused};
use etagere_shelves::{AtlasGrowFault, Rectangle, Size};
use std::num::NonZeroUsize;

/// A call of a map.
#[derive(Drop)]
pub enum MapCall<K, V> {
    /// `place` of a key with a value, for a size in pixels.
    Place(K, V, Size),
    /// `use_key`, as `get` does before it looks.
    UseKey(K),
    /// `remove`.
    Remove(K),
    /// `retain` of the keys that equal none of these.
    Retain(Vec<K>),
    /// `begin_frame`.
    BeginFrame,
    /// `grow` to a size in pixels.
    Grow(Size),
    /// `set_capacity`.
    SetCapacity(NonZeroUsize),
    /// `clear`.
    Clear,
}

/// What a call answers.
#[derive(Drop)]
pub enum MapReply<K, V> {
    /// The key has this place.
    Placed(Placed<K, V>),
    /// The key wasn't placed.
    Refused(Refused<K, V>),
    /// The key has this rectangle.
    At(Rectangle),
    /// The key had this rectangle and this value.
    Removed(Rectangle, V),
    /// The key isn't there. Nothing changed.
    NotThere,
    /// None of those keys is there any more.
    Retained,
    /// A frame has begun.
    Begun,
    /// The atlas has grown.
    Grown,
    /// The atlas can't grow so. Nothing changed.
    NotGrown(AtlasGrowFault),
    /// There may be as many keys now; these went with their values.
    Evicted(Vec<(K, V)>),
    /// There was no memory. Nothing changed.
    NoMemory,
    /// Nothing is there any more.
    Cleared,
}
