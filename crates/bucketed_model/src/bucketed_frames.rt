//! The frame of a bucketed atlas, and what a grow may be refused for.
//!
//! Definitions: `Frames`, `Growing`.

ghost use Rattle.std.specs.Prelude.{◌≡◌};
ghost use Rattle.etagere_base.specs.Frames.{IsAccepted};
ghost use Rattle.bucketed_model.specs.Frames as spec;
ghost use Rattle.bucketed_model.specs.Frames.{IsBucketedFrame, longest_bucketed_side};
ghost use Rattle.bucketed_model.specs.Growing as growing;

use crate::faults::GrowFault;
use etagere_base::{AllocatorOptions, Frame, ResizeFault, Size, column_width, resize_fault, side};

/// The longest side of a bucketed atlas, in pixels.
pub const LONGEST_BUCKETED_SIDE: u16 = 65534;

/// The frame of a bucketed atlas of a size and options that have no fault.
pub fn bucketed_frame(size: Size, options: &AllocatorOptions) -> Frame
    requires { IsAccepted longest_bucketed_side size options.now }
    ensures value { result ≡ spec.bucketed_frame size options.now }
    ensures frame { IsBucketedFrame result }
{
    Frame {
        column_width: column_width(size, options),
        columns: side(options.num_columns),
        ..Frame::without_columns(size, options.alignment, options.vertical_shelves)
    }
}

/// The first fault of a grow to a size, memory aside.
pub fn grow_fault(frame: &Frame, size: Size) -> Option<GrowFault>
    ensures { result ≡ growing.grow_fault frame.now size }
{
    match resize_fault(LONGEST_BUCKETED_SIDE, frame, size)? {
        ResizeFault::Size => Some(GrowFault::Size),
        ResizeFault::Smaller => Some(GrowFault::Smaller),
        ResizeFault::Area => Some(GrowFault::Area),
    }
}
