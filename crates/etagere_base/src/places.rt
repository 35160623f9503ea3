//! Where something lies in an atlas: its rectangle, from its place along and across the shelves; and sizes.
//!
//! Definitions: `Places`. Both allocators find every rectangle that they give here.

ghost use Rattle.std.specs.Prelude.{◌≡◌, ◌+◌, ◌<◌, ◌^◌};
ghost use Rattle.etagere_base.specs.Places as spec;

use crate::frames::Frame;
use crate::geometry::{Point, Rectangle, Size, point2, size2};
use crate::sides::{Sides, swapped_axes};

/// What lies at a place along and across, this wide along and this tall across, in pixels.
pub fn rectangle_at(frame: &Frame, along: u32, across: u32, width: u32, height: u32) -> Rectangle
    requires right { along + width < 2 ^ 31 }
    requires bottom { across + height < 2 ^ 31 }
    ensures { result ≡ spec.rectangle_at frame.now along across width height }
{
    Rectangle {
        min: point_at(frame, along, across),
        max: point_at(frame, along + width, across + height),
    }
}

fn point_at(frame: &Frame, along: u32, across: u32) -> Point
    requires along { along < 2 ^ 31 }
    requires across { across < 2 ^ 31 }
    ensures { result ≡ spec.point_at frame.now along across }
{
    let place = swapped_axes(frame.vertical, Sides { along, across });
    point2(place.along as i32, place.across as i32)
}

/// A size in the axes of the atlas, so long along the shelves and so tall across them, in pixels.
pub fn size_at(frame: &Frame, along: u32, across: u32) -> Size
    requires along { along < 2 ^ 31 }
    requires across { across < 2 ^ 31 }
    ensures { result ≡ spec.size_at frame.now along across }
{
    let sides = swapped_axes(frame.vertical, Sides { along, across });
    size2(sides.along as i32, sides.across as i32)
}
