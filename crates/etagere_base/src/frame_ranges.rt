//! Whether a frame that anybody may have written keeps its ranges.
//!
//! Definition: `IsFrame` of `Frames`. All is computed wide, so nothing wraps.

ghost use Rattle.std.specs.Prelude.{◌≤◌, ◌<◌, ◌^◌, Decides};
ghost use Rattle.etagere_base.specs.Frames.{IsFrame};

use crate::frames::Frame;

/// Alignments and areas are below this.
const LIMIT: u32 = 1 << 31;

/// Whether sides, area, alignments and columns keep their ranges, where no side may be longer than `longest`, in
/// pixels.
pub fn is_frame(longest: u16, frame: &Frame) -> bool
    ensures { Decides result (IsFrame longest frame.now) }
{
    if !is_length(longest, frame.width) {
        return false;
    }
    if !is_length(longest, frame.height) {
        return false;
    }
    if u64::from(frame.width) * u64::from(frame.height) >= u64::from(LIMIT) {
        return false;
    }
    if !is_alignment(frame.alignment_width) {
        return false;
    }
    if !is_alignment(frame.alignment_height) {
        return false;
    }
    if frame.column_width == 0 {
        return false;
    }
    if frame.column_width % frame.alignment_along() != 0 {
        return false;
    }
    if frame.columns == 0 {
        return false;
    }
    u64::from(frame.columns) * u64::from(frame.column_width) <= u64::from(frame.along_side())
}

fn is_length(longest: u16, length: u32) -> bool
    ensures { Decides result ((1 ≤ length) × (length ≤ longest)) }
{
    1 <= length && length <= u32::from(longest)
}

fn is_alignment(alignment: u32) -> bool
    ensures { Decides result ((1 ≤ alignment) × (alignment < 2 ^ 31)) }
{
    1 <= alignment && alignment < LIMIT
}
