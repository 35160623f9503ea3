//! The commands of a run on a cache, and the replies to them.
//!
//! The definitions of runs (`Runs`) and of the text of replies (`ReplyText`) match on them.

use etagere::{Rectangle, Size};
use glyph_shelf::Placed;

/// A command of a run on a cache of glyph places.
#[derive(Clone, Copy, Debug, PartialEq, Eq)]
pub enum GlyphCommand {
    /// Places a key, with a rectangle of this size in pixels where it is new.
    Place(u64, Size),
    /// Looks up a key, which becomes the most recently used.
    Get(u64),
    /// Takes a key out.
    Remove(u64),
    /// Takes all keys out.
    Clear,
    /// Begins a frame: what is placed or looked up from here on stays until the next one.
    BeginFrame,
}

/// What a run answers to a command.
#[derive(Debug, Drop, PartialEq, Eq)]
pub enum GlyphReply {
    /// The key has this rectangle, and these keys were evicted for it.
    Placed(Placed),
    /// The key is new, and an empty cache has no room for its size. Nothing changed.
    TooLarge,
    /// The key is new, and there was no memory. These keys were evicted before that was found, the least recently used
    /// first; the others stand.
    NoMemory(Vec<u64>),
    /// The key is at this rectangle, as it was first placed.
    At(Rectangle),
    /// The key was at this rectangle, and is there no more.
    Removed(Rectangle),
    /// The key isn't there.
    NotThere,
    /// No key is there any more.
    Cleared,
    /// A frame has begun.
    Begun,
    /// The key is new, and there would be no room though all keys went that weren't used in this frame. Nothing changed.
    FrameFull,
}
