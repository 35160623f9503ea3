//! Why a grow of a shelf atlas is refused, why a size has no place, and by which number each is told.
//!
//! Definitions: `Faults` and `Refusal`. Numbers are public and don't change.

ghost use Rattle.std.specs.Prelude.{◌≡◌};
ghost use Rattle.shelf_model.specs.Faults.{grow_fault_number};
ghost use Rattle.shelf_model.specs.Refusal.{refusal_number};

use thiserror::Error;

/// Why a shelf atlas can't grow to a size. The first is returned, in this order.
#[derive(Clone, Copy, Debug, PartialEq, Eq, Error)]
pub enum AtlasGrowFault {
    /// A side of the size is below 1 or above 65535.
    #[error("Size")]
    Size,
    /// A side of the size is below the atlas's present one.
    #[error("Smaller")]
    Smaller,
    /// Width times height is above 2147483647.
    #[error("Area")]
    Area,
    /// The grow needs more records than an atlas can have, 65535 in use.
    #[error("Records")]
    Records,
    /// There was no memory.
    #[error("Memory")]
    Memory,
}

impl AtlasGrowFault {
    /// The fault's number, from 1 to 5.
    pub fn number(self) -> u32
        ensures { result ≡ grow_fault_number self }
    {
        match self {
            AtlasGrowFault::Size => 1,
            AtlasGrowFault::Smaller => 2,
            AtlasGrowFault::Area => 3,
            AtlasGrowFault::Records => 4,
            AtlasGrowFault::Memory => 5,
        }
    }
}

/// Why a size has no place in a shelf atlas. The first that holds is given, in this order.
#[derive(Clone, Copy, Debug, PartialEq, Eq, Error)]
pub enum Refusal {
    /// A side of the size is below 1.
    #[error("NotPositive")]
    NotPositive,
    /// A side of the size is above 65535.
    #[error("TooLong")]
    TooLong,
    /// The side along the shelves, rounded up to its alignment, is above the width of a column.
    #[error("WiderThanColumn")]
    WiderThanColumn,
    /// The side across the shelves, rounded up to its alignment, is above that of the atlas.
    #[error("TallerThanAtlas")]
    TallerThanAtlas,
    /// No shelf that is tall enough has a free item that is wide enough.
    #[error("NoRoom")]
    NoRoom {
        /// How long the widest free item of the shelves that are tall enough is along them, in pixels; 0 where they
        /// have none.
        widest: u32,
    },
    /// A shelf has room, but the splits of the chosen place would make more than 65535 items.
    #[error("NoRecords")]
    NoRecords,
}

impl Refusal {
    /// The reason's number, from 1 to 6.
    pub fn number(self) -> u32
        ensures { result ≡ refusal_number self }
    {
        match self {
            Refusal::NotPositive => 1,
            Refusal::TooLong => 2,
            Refusal::WiderThanColumn => 3,
            Refusal::TallerThanAtlas => 4,
            Refusal::NoRoom { .. } => 5,
            Refusal::NoRecords => 6,
        }
    }
}
