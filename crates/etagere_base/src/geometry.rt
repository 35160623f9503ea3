//! Points, sizes and rectangles in pixels.
//!
//! The clauses state each result themselves, so there are no definitions to read. What these types
//! look like in JSON is public: a field that is added or renamed changes the text.

ghost use Rattle.std.specs.Prelude.{◌≡◌, ◌-ℤ◌, ◌*ℤ◌, ◌≤ℤ◌, ◌↔◌, ◌⊎◌, pos, IsTrue, FitsSigned};
ghost use Rattle.std.specs.Int.{w32};

use serde::{Deserialize, Serialize};

/// A place in pixels.
#[derive(Clone, Copy, Debug, PartialEq, Eq, Hash, Serialize, Deserialize)]
pub struct Point {
    pub x: i32,
    pub y: i32,
}

/// Two sides in pixels.
#[derive(Clone, Copy, Debug, PartialEq, Eq, Hash, Serialize, Deserialize)]
pub struct Size {
    pub width: i32,
    pub height: i32,
}

/// The pixels from `min` on, up to `max`, which is not part of it.
#[derive(Clone, Copy, Debug, PartialEq, Eq, Hash, Serialize, Deserialize)]
pub struct Rectangle {
    pub min: Point,
    pub max: Point,
}

/// The point at these places.
pub fn point2(x: i32, y: i32) -> Point
    ensures { result ≡ record { x = x; y = y } }
{
    Point { x, y }
}

/// The size with these sides.
pub fn size2(width: i32, height: i32) -> Size
    ensures { result ≡ record { width = width; height = height } }
{
    Size { width, height }
}

impl Size {
    /// Width times height, which the caller knows to fit an `i32`.
    pub fn area(self) -> i32
        requires { FitsSigned w32 (self.width *ℤ self.height) }
        ensures { result ≡ self.width *ℤ self.height }
    {
        self.width * self.height
    }

    /// Whether a side is 0 or less.
    pub fn is_empty(self) -> bool
        ensures { IsTrue result ↔ ((self.width ≤ℤ pos 0) ⊎ (self.height ≤ℤ pos 0)) }
    {
        self.width <= 0 || self.height <= 0
    }
}

impl Rectangle {
    /// The sides, which the caller knows to fit an `i32` each.
    pub fn size(self) -> Size
        requires width { FitsSigned w32 (self.max.x -ℤ self.min.x) }
        requires height { FitsSigned w32 (self.max.y -ℤ self.min.y) }
        ensures { result
            ≡ record { width = self.max.x -ℤ self.min.x; height = self.max.y -ℤ self.min.y } }
    {
        Size {
            width: self.max.x - self.min.x,
            height: self.max.y - self.min.y,
        }
    }

    /// The product of the sides, which the caller knows to fit an `i32`, as each side does.
    pub fn area(self) -> i32
        requires width { FitsSigned w32 (self.max.x -ℤ self.min.x) }
        requires height { FitsSigned w32 (self.max.y -ℤ self.min.y) }
        requires area { FitsSigned w32 ((self.max.x -ℤ self.min.x) *ℤ (self.max.y -ℤ self.min.y)) }
        ensures { result ≡ (self.max.x -ℤ self.min.x) *ℤ (self.max.y -ℤ self.min.y) }
    {
        self.size().area()
    }
}
