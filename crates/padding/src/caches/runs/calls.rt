//! The calls that change a cache with a padding, as values, and what each answers.
//!
//! The definition of runs (`Runs`) matches on them.

use etagere_shelves::{AtlasGrowFault, Rectangle, Size};
use glyph_shelf::{GlyphFault, Placed};
use std::num::NonZeroUsize;

/// A call of a cache with a padding.
#[derive(Drop)]
pub enum PaddedCall {
    /// `place` of a key, for a size in pixels.
    Place(u64, Size),
    /// `get`.
    Get(u64),
    /// `remove`.
    Remove(u64),
    /// `retain` of the keys that are none of these.
    Retain(Vec<u64>),
    /// `begin_frame`.
    BeginFrame,
    /// `grow` to a size in pixels.
    Grow(Size),
    /// `set_capacity`.
    SetCapacity(NonZeroUsize),
    /// `clear`.
    Clear,
}

/// What a call answers. Rectangles are without their padding.
#[derive(Drop)]
pub enum PaddedReply {
    /// The key has this rectangle.
    Placed(Placed),
    /// The key wasn't placed; what the fault names as evicted is gone.
    Refused(GlyphFault),
    /// The key has this rectangle.
    At(Rectangle),
    /// The key had this rectangle.
    Removed(Rectangle),
    /// The key isn't there. Nothing changed.
    NotThere,
    /// None of those keys is there any more.
    Retained,
    /// A frame has begun.
    Begun,
    /// The atlas has grown.
    Grown,
    /// The atlas can't grow so. Nothing changed.
    NotGrown(AtlasGrowFault),
    /// There may be as many keys now; these went.
    Evicted(Vec<u64>),
    /// There was no memory. Nothing changed.
    NoMemory,
    /// Nothing is there any more.
    Cleared,
}
