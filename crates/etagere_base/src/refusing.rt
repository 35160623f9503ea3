//! Why no shelf of an atlas of either kind, however empty, could take a size.
//!
//! Definitions: `Refusing`.

ghost use Rattle.std.specs.Prelude.{◌≡◌, ◌<◌, ◌≤◌, ◌^◌};
ghost use Rattle.etagere_base.specs.Refusing as spec;

use crate::faults::SizeRefusal;
use crate::frames::{Frame, is_not_positive, is_too_long, rounded};
use crate::geometry::Size;

/// The first reason why no shelf of a frame, however empty, could take a size. The alignments are at least 1 and below
/// 2^31.
pub fn size_refusal(frame: &Frame, size: Size) -> Option<SizeRefusal>
    requires alignment_width { (1 ≤ frame.now.alignment_width) ×
        (frame.now.alignment_width < 2 ^ 31) }
    requires alignment_height { (1 ≤ frame.now.alignment_height) ×
        (frame.now.alignment_height < 2 ^ 31) }
    ensures { result ≡ spec.size_refusal frame.now size }
{
    if is_not_positive(size) {
        return Some(SizeRefusal::NotPositive);
    }
    if is_too_long(size) {
        return Some(SizeRefusal::TooLong);
    }
    let sides = rounded(frame, size);
    if frame.column_width < sides.along {
        return Some(SizeRefusal::WiderThanColumn);
    }
    if frame.across_side() < sides.across {
        return Some(SizeRefusal::TallerThanAtlas);
    }
    None
}
