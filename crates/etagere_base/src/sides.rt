//! One length or two: sides and axes, rounding up to an alignment, and the steps of shelf heights.
//!
//! Definitions: `Sides`. Each function is the definition of its name. The numbers of `step` are
//! public: with others, sizes get other shelves.

ghost use Rattle.std.specs.Prelude.{◌≡◌, ◌+◌, ◌<◌, ◌≤◌, ◌^◌};
ghost use Rattle.etagere_base.specs.Sides as spec;
ghost use Rattle.etagere_base.specs.Sides.{IsRoundedUp};

/// Two lengths in pixels: one along the shelves, one across them.
#[derive(Clone, Copy, Debug, PartialEq, Eq)]
pub struct Sides {
    pub along: u32,
    pub across: u32,
}

/// A signed length as an unsigned one: 0 where it is negative.
pub fn side(length: i32) -> u32
    ensures value { result ≡ spec.side length }
    ensures bounded { result < 2 ^ 31 }
{
    length.max(0) as u32
}

/// Swaps sides or places between the axes of the atlas and those of its shelves, either way.
pub fn swapped_axes(vertical: bool, sides: Sides) -> Sides
    ensures { result ≡ spec.swapped_axes vertical sides }
{
    if vertical {
        Sides {
            along: sides.across,
            across: sides.along,
        }
    } else {
        sides
    }
}

/// The least multiple of `alignment` that is not below `length`. The alignment is at least 1, and the two
/// add up to at most 2^32.
pub fn up(length: u32, alignment: u32) -> u32
    requires positive { 0 < alignment }
    requires fits { length + alignment ≤ 2 ^ 32 }
    ensures value { result ≡ spec.up length alignment }
    ensures rounded { IsRoundedUp length alignment result }
{
    if alignment == 1 {
        return length;
    }
    (length + (alignment - 1)) / alignment * alignment
}

/// The height of a shelf that is made for items of this height, which is below 2^31: up to a multiple of 8
/// below 32, of 16 below 128, of 32 below 512, and else of 64.
pub fn step(height: u32) -> u32
    requires { height < 2 ^ 31 }
    ensures { result ≡ spec.step height }
{
    let coarseness = match height {
        0..=31 => 8,
        32..=127 => 16,
        128..=511 => 32,
        _ => 64,
    };
    up(height, coarseness)
}
