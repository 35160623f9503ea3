//! Ids, and what `allocate` returns.
//!
//! Contracts see an id as its number. How numbers are chosen is a matter of each allocator: those of a
//! shelf atlas have an index and a generation, those of a bucketed atlas a layout of their own.

ghost use Rattle.std.specs.Prelude.{◌≡◌, ℕ};

use crate::geometry::Rectangle;
use serde::{Deserialize, Serialize};
use std::marker::Model;

/// An id of a shelf atlas is the index, which is the number of its item's record, plus this times the
/// record's generation. It says nothing of the ids of a bucketed atlas.
pub const INDEX_MODULUS: u32 = 65536;

/// What names an allocation from `allocate` to its return. It is serialized as its number.
#[derive(Clone, Copy, Debug, PartialEq, Eq, Hash, Serialize, Deserialize)]
#[serde(transparent)]
pub struct AllocId {
    number: u32,
}

impl Model for AllocId {
    ghost Value = { ℕ };

    ghost view = { λ id. id.number };

    ghost inverse = { λ number. record { number = number } };
}

impl AllocId {
    /// The number that stands for the id.
    pub fn serialize(&self) -> u32
        ensures { result ≡ self.now }
    {
        self.number
    }

    /// The id that a number stands for.
    pub fn deserialize(number: u32) -> AllocId
        ensures { result ≡ number }
    {
        AllocId { number }
    }
}

/// A rectangle of an atlas, and the id by which it is given back.
#[derive(Clone, Copy, Debug, PartialEq, Serialize, Deserialize)]
pub struct Allocation {
    pub id: AllocId,
    pub rectangle: Rectangle,
}
