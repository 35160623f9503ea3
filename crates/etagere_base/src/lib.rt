//! What both shelf allocators share: geometry, options, faults, and the arithmetic of sides.
//!
//! Its definitions and lemmas on lists, merging and rectangles are for every allocator above it. A
//! clause or definition that changes here is checked again in all of them.
#![tactic(auto)]

mod drawing;
mod faults;
mod frame_ranges;
mod frames;
mod geometry;
mod growing;
mod ids;
mod options;
mod places;
mod plain_laws;
mod refusing;
mod sides;

pub use drawing::{Colour, Drawn};
pub use faults::{OptionsFault, ResizeFault, RestoreFault, SizeRefusal, UnknownId};
pub use frame_ranges::is_frame;
pub use frames::{Frame, LONGEST_SIDE, asked, atlas_frame, column_width, options_fault, rounded};
pub use geometry::{Point, Rectangle, Size, point2, size2};
pub use growing::{grown_frame, resize_fault};
pub use ids::{AllocId, Allocation, INDEX_MODULUS};
pub use options::{AllocatorOptions, DEFAULT_OPTIONS};
pub use places::{rectangle_at, size_at};
pub use refusing::size_refusal;
pub use sides::{Sides, side, step, swapped_axes, up};
