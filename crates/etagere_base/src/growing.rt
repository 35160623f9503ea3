//! Which sizes an atlas of either kind can grow to, and the frame that it has then.
//!
//! Definitions: `Growing`.

ghost use Rattle.std.specs.Prelude.{◌≡◌, ◌≤◌};
ghost use Rattle.etagere_base.specs.Frames.{IsFrame, longest_side};
ghost use Rattle.etagere_base.specs.Growing as spec;
ghost use Rattle.etagere_base.specs.Sides.{side};

use crate::faults::ResizeFault;
use crate::frames::{Frame, are_sides, is_too_large};
use crate::geometry::Size;
use crate::sides::side;

/// The first fault of a grow to a size, where no side may be longer than `longest`, in pixels.
pub fn resize_fault(longest: u16, frame: &Frame, size: Size) -> Option<ResizeFault>
    ensures { result ≡ spec.resize_fault longest frame.now size }
{
    if !are_sides(longest, size) {
        return Some(ResizeFault::Size);
    }
    if side(size.width) < frame.width || side(size.height) < frame.height {
        return Some(ResizeFault::Smaller);
    }
    if is_too_large(size) {
        return Some(ResizeFault::Area);
    }
    None
}

/// The frame after a grow to a size that is no smaller: one column becomes as wide as the alignment allows, more
/// become as many as fit.
pub fn grown_frame(frame: &Frame, size: Size) -> Frame
    requires frame { IsFrame longest_side frame.now }
    requires wider { frame.now.width ≤ side size.width }
    requires taller { frame.now.height ≤ side size.height }
    ensures { result ≡ spec.grown_frame frame.now size }
{
    let resized = Frame {
        width: side(size.width),
        height: side(size.height),
        ..*frame
    };
    let along = resized.along_side();
    if frame.columns == 1 {
        let alignment = frame.alignment_along();
        return Frame {
            column_width: along / alignment * alignment,
            ..resized
        };
    }
    Frame {
        columns: along / frame.column_width,
        ..resized
    }
}
