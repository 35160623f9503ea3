//! Who asks for a place first: the tallest, for the shelves that it makes take what is less tall.
//!
//! Definitions: `Order`.

ghost use Rattle.std.specs.Prelude.{◌≡◌, ◌-ℤ◌};
ghost use Rattle.std.specs.List.Sorted.{IsPermutation};
ghost use Rattle.etagere_base.specs.Sides.{side};
ghost use Rattle.moves.specs.Atlases.Order as spec;
ghost use Rattle.moves.specs.Atlases.Order.{AreTallestFirst};

use etagere_base::{Allocation, Rectangle, Sides, swapped_axes};
use std::cmp::Reverse;

/// How far it is from one place to another, which is not before it; else 0.
fn length(from: i32, to: i32) -> u32
    ensures { result ≡ side (to -ℤ from) }
{
    let length = i64::from(to) - i64::from(from);
    if length < 0 { 0 } else { length as u32 }
}

/// How tall a rectangle stands on its shelf: its side across the shelves, in pixels. Takes constant time.
pub fn height_across(vertical: bool, rectangle: Rectangle) -> u32
    ensures { result ≡ spec.height_across vertical rectangle }
{
    let Rectangle { min, max } = rectangle;
    let sides = Sides {
        along: length(min.x, max.x),
        across: length(min.y, max.y),
    };
    swapped_axes(vertical, sides).across
}

/// Sorts allocations: the tallest first, and of equally tall ones that of the least id.
///
/// Takes no memory. Makes as many comparisons as a sort.
pub fn sort_tallest_first(allocations: &mut Vec<Allocation>, vertical: bool)
    ensures same { IsPermutation allocations.old.items allocations.new.items }
    ensures ordered { AreTallestFirst vertical allocations.new.items }
{
    allocations.sort_unstable_by_key(|allocation| {
        (
            Reverse(height_across(vertical, allocation.rectangle)),
            allocation.id.serialize(),
        )
    });
}
