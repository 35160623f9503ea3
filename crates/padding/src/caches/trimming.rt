//! Rectangles without their padding, as a test is told of them.

ghost use Rattle.std.specs.Prelude.{◌≡◌, ◌+ℤ◌, ◌-ℤ◌, pos};
ghost use Rattle.padding.specs.Padding as spec;
ghost use Rattle.padding.specs.Padding.{IsNear, IsNearPlace};

use crate::Padding;
use etagere_shelves::{Rectangle, point2};

/// The rectangle without its padding, as `Padding::trimmed` gives it, where no corner is farther than 2^30 from the
/// origin. What a test may be told of isn't known to be near, though each rectangle of a cache is.
pub(crate) fn without_padding(padding: Padding, rectangle: Rectangle) -> Rectangle
    ensures { IsNear rectangle → result ≡ spec.trimmed padding rectangle }
{
    let Rectangle { min, max } = rectangle;
    Rectangle {
        min: point2(after(min.x, padding.left), after(min.y, padding.top)),
        max: point2(before(max.x, padding.right), before(max.y, padding.bottom)),
    }
}

/// The place that lies so many pixels after one.
fn after(place: i32, pixels: u16) -> i32
    ensures { IsNearPlace place → result ≡ place +ℤ pos pixels }
{
    place.saturating_add(i32::from(pixels))
}

/// The place that lies so many pixels before one.
fn before(place: i32, pixels: u16) -> i32
    ensures { IsNearPlace place → result ≡ place -ℤ pos pixels }
{
    place.saturating_sub(i32::from(pixels))
}
