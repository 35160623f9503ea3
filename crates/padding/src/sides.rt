//! How many pixels stay free on each side, what is asked for with them, and what is given back without them.
//!
//! Definitions: `Padding`. The clauses stay as they are: callers prove by them.

ghost use Rattle.std.specs.Prelude.{◌≡◌, ◌+ℤ◌, ◌-ℤ◌, ◌≤ℤ◌, pos, None, Some, IfErr, IfOk, OnOk};
ghost use Rattle.padding.specs.Padding as spec;
ghost use Rattle.padding.specs.Padding.{IsNear, IsNearPlace};
ghost use Rattle.padding.specs.Private.Sides as private;

use etagere_base::{LONGEST_SIDE, Rectangle, Size, point2, size2};
use shelf_model::faults::Refusal;

/// How many pixels stay free on each side of a rectangle.
#[derive(Clone, Copy, Debug, PartialEq, Eq, Hash)]
pub struct Padding {
    pub left: u16,
    pub top: u16,
    pub right: u16,
    pub bottom: u16,
}

/// No pixel stays free.
pub const NO_PADDING: Padding = Padding {
    left: 0,
    top: 0,
    right: 0,
    bottom: 0,
};

impl Padding {
    /// So many pixels right and below.
    pub fn after(pixels: u16) -> Padding
        ensures { result ≡ record { left = 0; top = 0; right = pixels; bottom = pixels } }
    {
        Padding {
            left: 0,
            top: 0,
            right: pixels,
            bottom: pixels,
        }
    }

    /// So many pixels on each side.
    pub fn around(pixels: u16) -> Padding
        ensures { result ≡ record { left = pixels; top = pixels; right = pixels; bottom = pixels } }
    {
        Padding {
            left: pixels,
            top: pixels,
            right: pixels,
            bottom: pixels,
        }
    }

    /// The size with its padding, which is what has to be asked for.
    ///
    /// The error is that of a size that no atlas has a place for: `NotPositive` where a side is below 1, `TooLong` where
    /// a side with its padding is above 65535.
    pub fn padded(self, size: Size) -> Result<Size, Refusal>
        ensures ok { IfOk result (λ asked. asked ≡ spec.padded self size) }
        ensures accepted { OnOk result (spec.padding_refusal self size ≡ None) }
        ensures refused { IfErr result (λ refusal. spec.padding_refusal self size ≡ Some refusal) }
    {
        if size.is_empty() {
            return Err(Refusal::NotPositive);
        }
        let width = padded_side(self.left, self.right, size.width);
        let height = padded_side(self.top, self.bottom, size.height);
        match (width, height) {
            (Some(width), Some(height)) => Ok(size2(width, height)),
            _ => Err(Refusal::TooLong),
        }
    }

    /// The rectangle without its padding. The caller knows that no corner is farther than 2^30 from the origin.
    pub fn trimmed(self, rectangle: Rectangle) -> Rectangle
        requires { IsNear rectangle }
        ensures { result ≡ spec.trimmed self rectangle }
    {
        let Rectangle { min, max } = rectangle;
        Rectangle {
            min: point2(after(min.x, self.left), after(min.y, self.top)),
            max: point2(before(max.x, self.right), before(max.y, self.bottom)),
        }
    }
}

/// A length that is at least 1 with the pixels before and after it, where an atlas may be as long.
fn padded_side(before: u16, after: u16, length: i32) -> Option<i32>
    requires { pos 1 ≤ℤ length }
    ensures { result ≡ private.short_side (spec.padded_side before after length) }
{
    let padded = length as i64 + before as i64 + after as i64;
    if padded > LONGEST_SIDE as i64 {
        return None;
    }
    Some(padded as i32)
}

/// The place that lies so many pixels after one that is near the origin.
fn after(place: i32, pixels: u16) -> i32
    requires { IsNearPlace place }
    ensures { result ≡ place +ℤ pos pixels }
{
    place + i32::from(pixels)
}

/// The place that lies so many pixels before one that is near the origin.
fn before(place: i32, pixels: u16) -> i32
    requires { IsNearPlace place }
    ensures { result ≡ place -ℤ pos pixels }
{
    place - i32::from(pixels)
}
