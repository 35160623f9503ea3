//! What an atlas keeps of its size and options, the first fault of these, and what an allocation of a size requires of
//! the shelves.
//!
//! Definitions: `Frames`. A new fault or option is tested in `options_fault` and kept in `Frame`,
//! and its range stands in `IsFrame`.

ghost use Rattle.std.specs.Prelude.{◌≡◌, ◌<◌, ◌≤◌, ◌^◌};
ghost use Rattle.etagere_base.specs.Frames as spec;
ghost use Rattle.etagere_base.specs.Frames.{IsAccepted, IsFrame, alignments_of, column_width_of, longest_side};
ghost use Rattle.etagere_base.specs.Sides.{side, swapped_axes};

use crate::faults::OptionsFault;
use crate::geometry::Size;
use crate::options::AllocatorOptions;
use crate::sides::{Sides, side, swapped_axes, up};

/// The longest side of a shelf atlas, and of a size that may be asked for in an atlas of either kind, in pixels.
pub const LONGEST_SIDE: u16 = 65535;

/// No atlas has a larger area, in square pixels.
const LARGEST_AREA: u64 = 2147483647;

/// What an atlas keeps of its size and options: lengths in pixels, the direction of its shelves, and the
/// number of its columns.
#[derive(Clone, Copy, Debug, PartialEq, Eq)]
pub struct Frame {
    /// The side along x.
    pub width: u32,
    /// The side along y.
    pub height: u32,
    /// Widths are rounded up to multiples of this.
    pub alignment_width: u32,
    /// Heights are rounded up to multiples of this.
    pub alignment_height: u32,
    /// Whether the shelves lie along the height.
    pub vertical: bool,
    /// The width of a column, along the shelves.
    pub column_width: u32,
    /// How many columns there are.
    pub columns: u32,
}

impl Frame {
    /// The frame of a size, an alignment and a direction of shelves, before it is given columns.
    pub fn without_columns(size: Size, alignment: Size, vertical: bool) -> Frame
        ensures value { result ≡ spec.without_columns size alignment vertical }
        ensures alignments { (result.alignment_width < 2 ^ 31) × (result.alignment_height < 2 ^ 31) }
    {
        Frame {
            width: side(size.width),
            height: side(size.height),
            alignment_width: side(alignment.width),
            alignment_height: side(alignment.height),
            vertical,
            column_width: 0,
            columns: 0,
        }
    }

    /// The side of the atlas along its shelves, in pixels.
    pub fn along_side(&self) -> u32
        ensures { result ≡ spec.along_side self.now }
    {
        self.sides().along
    }

    /// The side of the atlas across its shelves, in pixels.
    pub fn across_side(&self) -> u32
        ensures { result ≡ spec.across_side self.now }
    {
        self.sides().across
    }

    /// The alignment along the shelves, in pixels.
    pub fn alignment_along(&self) -> u32
        ensures value { result ≡ spec.alignment_along self.now }
        ensures positive { 1 ≤ self.now.alignment_width → 1 ≤ self.now.alignment_height → 1 ≤ result }
    {
        let alignments = Sides {
            along: self.alignment_width,
            across: self.alignment_height,
        };
        swapped_axes(self.vertical, alignments).along
    }

    /// The sides along and across the shelves.
    fn sides(&self) -> Sides
        ensures { result ≡ swapped_axes self.now.vertical (record { along = self.now.width; across = self.now.height }) }
    {
        let sides = Sides {
            along: self.width,
            across: self.height,
        };
        swapped_axes(self.vertical, sides)
    }
}

/// The first fault of a size and options, memory aside, where no side may pass `longest`.
pub fn options_fault(longest: u16, size: Size, options: &AllocatorOptions) -> Option<OptionsFault>
    ensures { result ≡ spec.options_fault longest size options.now }
{
    if !are_sides(longest, size) {
        return Some(OptionsFault::Size);
    }
    if is_too_large(size) {
        return Some(OptionsFault::Area);
    }
    if side(options.alignment.width) == 0 || side(options.alignment.height) == 0 {
        return Some(OptionsFault::Alignment);
    }
    if side(options.num_columns) == 0 {
        return Some(OptionsFault::Columns);
    }
    if column_width(size, options) == 0 {
        return Some(OptionsFault::ColumnTooNarrow);
    }
    None
}

/// The frame of a shelf atlas of a size and options that have no fault.
pub fn atlas_frame(size: Size, options: &AllocatorOptions) -> Frame
    requires { IsAccepted longest_side size options.now }
    ensures value { result ≡ spec.atlas_frame size options.now }
    ensures frame { IsFrame longest_side result }
{
    let frame = Frame::without_columns(size, options.alignment, options.vertical_shelves);
    let column_width = column_width(size, options);
    Frame {
        column_width,
        columns: frame.along_side() / column_width,
        ..frame
    }
}

/// The sides of a size along and across the shelves, each rounded up by its own axis. The alignments are at least 1 and
/// below 2^31.
pub fn rounded(frame: &Frame, size: Size) -> Sides
    requires alignment_width { (1 ≤ frame.now.alignment_width) ×
        (frame.now.alignment_width < 2 ^ 31) }
    requires alignment_height { (1 ≤ frame.now.alignment_height) ×
        (frame.now.alignment_height < 2 ^ 31) }
    ensures { result ≡ spec.rounded frame.now size }
{
    swapped_axes(
        frame.vertical,
        Sides {
            along: up(side(size.width), frame.alignment_width),
            across: up(side(size.height), frame.alignment_height),
        },
    )
}

/// The sides along and across that an allocation of a size requires; none where the size is empty, too long or larger
/// than a column. The alignments are at least 1 and below 2^31.
pub fn asked(frame: &Frame, size: Size) -> Option<Sides>
    requires alignment_width { (1 ≤ frame.now.alignment_width) ×
        (frame.now.alignment_width < 2 ^ 31) }
    requires alignment_height { (1 ≤ frame.now.alignment_height) ×
        (frame.now.alignment_height < 2 ^ 31) }
    ensures { result ≡ spec.asked frame.now size }
{
    if !are_sides(LONGEST_SIDE, size) {
        return None;
    }
    let sides = rounded(frame, size);
    if sides.along <= frame.column_width && sides.across <= frame.across_side() {
        Some(sides)
    } else {
        None
    }
}

/// The width of a column in pixels: an equal share of the side along the shelves, rounded down to its
/// alignment.
pub fn column_width(size: Size, options: &AllocatorOptions) -> u32
    requires along { 0 < (alignments_of options.now).along }
    requires columns { 0 < side options.now.num_columns }
    ensures { result ≡ column_width_of size options.now }
{
    let frame = Frame::without_columns(size, options.alignment, options.vertical_shelves);
    let alignment = frame.alignment_along();
    frame.along_side() / side(options.num_columns) / alignment * alignment
}

/// Whether both sides of a size are at least 1, and no longer than `longest`.
pub(crate) fn are_sides(longest: u16, size: Size) -> bool
    ensures { result ≡ spec.are_sides longest size }
{
    is_side(longest, size.width) && is_side(longest, size.height)
}

/// Whether a side of a size is below 1.
pub(crate) fn is_not_positive(size: Size) -> bool
    ensures { result ≡ spec.is_not_positive size }
{
    side(size.width) == 0 || side(size.height) == 0
}

/// Whether a side of a size is longer than that of any atlas.
pub(crate) fn is_too_long(size: Size) -> bool
    ensures { result ≡ spec.is_too_long size }
{
    let longest = u32::from(LONGEST_SIDE);
    longest < side(size.width) || longest < side(size.height)
}

/// Whether an atlas may have a side of this length, where none may be longer than `longest`.
fn is_side(longest: u16, length: i32) -> bool
    ensures { result ≡ spec.is_side longest length }
{
    0 < side(length) && side(length) <= u32::from(longest)
}

/// Whether the area of a size is above the largest.
pub(crate) fn is_too_large(size: Size) -> bool
    ensures { result ≡ spec.is_too_large size }
{
    u64::from(side(size.width)) * u64::from(side(size.height)) > LARGEST_AREA
}
