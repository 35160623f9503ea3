//! An allocation in numbers alone, laid out as C lays it out.
//!
//! Definitions: `Plain` for what the structs stand for.

ghost use Rattle.std.specs.Prelude.{◌≡◌};
ghost use Rattle.etagere_shelves.specs.Plain.{allocation_in, rectangle_in};

use etagere_base::{AllocId, Allocation, Point, Rectangle};

/// A place in pixels.
#[repr(C)]
#[derive(Clone, Copy)]
pub struct PlainPoint {
    pub x: i32,
    pub y: i32,
}

/// The pixels from `min` on, up to `max`, which is not part of it.
#[repr(C)]
#[derive(Clone, Copy)]
pub struct PlainRectangle {
    pub min: PlainPoint,
    pub max: PlainPoint,
}

/// A rectangle of an atlas, and the number of the id by which it is given back.
#[repr(C)]
#[derive(Clone, Copy)]
pub struct PlainAllocation {
    pub id: u32,
    pub rectangle: PlainRectangle,
}

impl PlainRectangle {
    /// The same rectangle in numbers alone.
    pub fn of(rectangle: Rectangle) -> PlainRectangle
        ensures { rectangle_in result ≡ rectangle }
    {
        PlainRectangle {
            min: point_of(rectangle.min),
            max: point_of(rectangle.max),
        }
    }

    /// The same rectangle.
    pub fn rectangle(self) -> Rectangle
        ensures { result ≡ rectangle_in self }
    {
        Rectangle {
            min: point_in(self.min),
            max: point_in(self.max),
        }
    }
}

fn point_in(point: PlainPoint) -> Point
    ensures { result ≡ record { x = point.x; y = point.y } }
{
    Point {
        x: point.x,
        y: point.y,
    }
}

fn point_of(point: Point) -> PlainPoint
    ensures { result ≡ record { x = point.x; y = point.y } }
{
    PlainPoint {
        x: point.x,
        y: point.y,
    }
}

impl PlainAllocation {
    /// What stands where nothing was given.
    pub const NOTHING: PlainAllocation = PlainAllocation {
        id: 0,
        rectangle: PlainRectangle {
            min: PlainPoint { x: 0, y: 0 },
            max: PlainPoint { x: 0, y: 0 },
        },
    };

    /// The same allocation in numbers alone.
    pub fn of(allocation: Allocation) -> PlainAllocation
        ensures { allocation_in result ≡ allocation }
    {
        PlainAllocation {
            id: allocation.id.serialize(),
            rectangle: PlainRectangle::of(allocation.rectangle),
        }
    }

    /// The same allocation.
    pub fn allocation(self) -> Allocation
        ensures { result ≡ allocation_in self }
    {
        Allocation {
            id: AllocId::deserialize(self.id),
            rectangle: self.rectangle.rectangle(),
        }
    }
}
