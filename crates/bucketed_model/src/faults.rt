//! Why a grow of a bucketed atlas is refused, and by which number.
//!
//! Definitions: `Faults`. Numbers are public and don't change.

ghost use Rattle.std.specs.Prelude.{◌≡◌};
ghost use Rattle.bucketed_model.specs.Faults.{grow_fault_number};

use thiserror::Error;

/// Why a bucketed atlas can't grow to a size. The first is returned, in this order.
#[derive(Clone, Copy, Debug, PartialEq, Eq, Error)]
pub enum GrowFault {
    /// A side of the size is below 1 or above 65534.
    #[error("Size")]
    Size,
    /// A side of the size is below the atlas's present one.
    #[error("Smaller")]
    Smaller,
    /// Width times height is above 2147483647.
    #[error("Area")]
    Area,
    /// There was no memory.
    #[error("Memory")]
    Memory,
}

impl GrowFault {
    /// The fault's number, from 1 to 4.
    pub fn number(self) -> u32
        ensures { result ≡ grow_fault_number self }
    {
        match self {
            GrowFault::Size => 1,
            GrowFault::Smaller => 2,
            GrowFault::Area => 3,
            GrowFault::Memory => 4,
        }
    }
}
