//! Why an atlas can't be made of a size and options, why an id can't be given back, and why a snapshot can't be
//! restored.
//!
//! Definitions: `Faults`, `RestoreFaults`. Numbers and messages are public: a new fault gets a new number, and is
//! tested in `frames` in its place in the order.

ghost use Rattle.std.specs.Prelude.{◌≡◌};
ghost use Rattle.etagere_base.specs.Faults.{options_fault_number};
ghost use Rattle.etagere_base.specs.RestoreFaults.{restore_fault_number};

use thiserror::Error;

/// Why an atlas can't be made. A call returns the first fault, in this order.
#[derive(Clone, Copy, Debug, PartialEq, Eq, Error)]
pub enum OptionsFault {
    /// A side of the atlas is below 1, or above 65535, or above 65534 where the atlas is bucketed.
    #[error("Size")]
    Size,
    /// Width times height is above 2147483647.
    #[error("Area")]
    Area,
    /// An alignment is below 1.
    #[error("Alignment")]
    Alignment,
    /// The number of columns is below 1.
    #[error("Columns")]
    Columns,
    /// The width of a column, an equal share rounded down to the alignment, comes out as 0.
    #[error("ColumnTooNarrow")]
    ColumnTooNarrow,
    /// There was no memory.
    #[error("Memory")]
    Memory,
}

impl OptionsFault {
    /// The fault's number, from 1 to 6.
    pub fn number(self) -> u32
        ensures { result ≡ options_fault_number self }
    {
        match self {
            OptionsFault::Size => 1,
            OptionsFault::Area => 2,
            OptionsFault::Alignment => 3,
            OptionsFault::Columns => 4,
            OptionsFault::ColumnTooNarrow => 5,
            OptionsFault::Memory => 6,
        }
    }
}

/// Why an atlas can't get the sides of a size that it is to grow to, tested in this order. Each kind of atlas has a
/// fault of its own for each.
#[derive(Clone, Copy, Debug, PartialEq, Eq)]
pub enum ResizeFault {
    /// A side of the size is below 1, or longer than such an atlas may be.
    Size,
    /// A side of the size is below the atlas's present one.
    Smaller,
    /// Width times height is above 2147483647.
    Area,
}

/// Why no shelf of an atlas, however empty, could take a size, tested in this order. Each kind of atlas has a reason of its
/// own for each.
#[derive(Clone, Copy, Debug, PartialEq, Eq)]
pub enum SizeRefusal {
    /// A side of the size is below 1.
    NotPositive,
    /// A side of the size is above 65535.
    TooLong,
    /// The side along the shelves, rounded up to its alignment, is above the width of a column.
    WiderThanColumn,
    /// The side across the shelves, rounded up to its alignment, is above that of the atlas.
    TallerThanAtlas,
}

/// Why an atlas can't be restored from a snapshot: a rule that the snapshot breaks. Where it breaks several, any of
/// them is returned.
#[derive(Clone, Copy, Debug, PartialEq, Eq, Error)]
pub enum RestoreFault {
    /// A side, the area, an alignment or the width of a column is out of its range.
    #[error("Frame")]
    Frame,
    /// There are too few or too many records of a kind.
    #[error("Counts")]
    Counts,
    /// A link names no record, a link back doesn't lead to the one before, or a record names a shelf other than the one
    /// in whose list it is.
    #[error("Link")]
    Link,
    /// The shelves don't fill each column, column after column.
    #[error("Shelves")]
    Shelves,
    /// The items of a shelf, or its buckets, don't fill it as they must.
    #[error("Runs")]
    Runs,
    /// Two free items stand side by side, or two empty shelves of a column.
    #[error("Neighbours")]
    Neighbours,
    /// A shelf's free list doesn't have each of its free items exactly once.
    #[error("FreeList")]
    FreeList,
    /// A record is in no list or in two, or a list doesn't end.
    #[error("Sharing")]
    Sharing,
    /// A record that became unused is marked as allocated.
    #[error("Unused")]
    Unused,
    /// The allocated space is not that of what is allocated.
    #[error("Space")]
    Space,
    /// There was no memory.
    #[error("Memory")]
    Memory,
}

impl RestoreFault {
    /// The fault's number, from 1 to 11.
    pub fn number(self) -> u32
        ensures { result ≡ restore_fault_number self }
    {
        match self {
            RestoreFault::Frame => 1,
            RestoreFault::Counts => 2,
            RestoreFault::Link => 3,
            RestoreFault::Shelves => 4,
            RestoreFault::Runs => 5,
            RestoreFault::Neighbours => 6,
            RestoreFault::FreeList => 7,
            RestoreFault::Sharing => 8,
            RestoreFault::Unused => 9,
            RestoreFault::Space => 10,
            RestoreFault::Memory => 11,
        }
    }
}

/// Nothing is allocated under the id.
#[derive(Clone, Copy, Debug, PartialEq, Eq, Error)]
#[error("UnknownId")]
pub struct UnknownId;

impl UnknownId {
    /// The fault's number, 1.
    pub fn number(self) -> u32
        ensures { result ≡ 1 }
    {
        1
    }
}
