//! The commands of a run, and the replies to them, which serve every kind of run.
//!
//! The definitions of runs (`AtlasRuns`, `BucketedRuns`) and of the text of replies (`ReplyText`) match on them.

use etagere_base::{Allocation, Rectangle, Size};

/// A command of a run on a shelf atlas. A position is the number, from 0, of an earlier command.
#[derive(Clone, Copy, Debug, PartialEq, Eq)]
pub enum AtlasCommand {
    /// Asks for a rectangle of this size, in pixels.
    Allocate(Size),
    /// Gives back what the command at this position was given.
    Return(usize),
    /// Looks up what the command at this position was given.
    Look(usize),
    /// Grows the atlas to this size, in pixels.
    Grow(Size),
    /// Gives everything back at once.
    Clear,
}

/// A command of a run on a bucketed atlas. A position is the number, from 0, of an earlier command.
#[derive(Clone, Copy, Debug, PartialEq, Eq)]
pub enum BucketedCommand {
    /// Asks for a rectangle of this size, in pixels.
    Allocate(Size),
    /// Gives back what the command at this position was given.
    Return(usize),
    /// Grows the atlas to this size, in pixels.
    Grow(Size),
    /// Gives everything back at once.
    Clear,
}

/// What a run answers to a command.
#[derive(Clone, Copy, Debug, PartialEq)]
pub enum Reply {
    /// The size was given this allocation.
    Placed(Allocation),
    /// The atlas has no room for the size.
    Refused,
    /// The allocation was given back.
    Returned,
    /// The allocation is at this rectangle, as it was first given; the number is its index, the id
    /// modulo 65536.
    At(Rectangle, u32),
    /// The position names nothing that is allocated now.
    NotLive,
    /// Everything was given back.
    Cleared,
    /// The atlas now has the size that was asked for.
    Grown,
    /// The atlas can't grow to the size, for the fault of this number: 1 where a side of the size is out of range, 2
    /// where one is below the present one, 3 where the area is too large, and 4 where a shelf atlas would have more
    /// than 65535 records in use.
    GrowRefused(u32),
    /// There was no memory for the command, which changed nothing.
    NoMemory,
}
