//! Why a bucketed atlas refuses a size, and by which number that is told.
//!
//! Definitions: `Refusal`. Numbers are public and don't change.

ghost use Rattle.std.specs.Prelude.{◌≡◌, ◌<◌, ◌≤◌, ◌^◌};
ghost use Rattle.bucketed_model.specs.Adding as adding;
ghost use Rattle.bucketed_model.specs.Refusal as spec;

use crate::adding::{Remaining, has_later_column};
use etagere_base::{Frame, Size, SizeRefusal};
use thiserror::Error;

/// Why a bucketed atlas refuses a size. The first is returned, in this order. `along` and `across` are meant
/// of the shelves, and of a size whose sides are rounded up to the alignment.
#[derive(Clone, Copy, Debug, PartialEq, Eq, Error)]
pub enum BucketedRefusal {
    /// A side of the size is below 1.
    #[error("NotPositive")]
    NotPositive,
    /// A side of the size is above 65535.
    #[error("TooLong")]
    TooLong,
    /// The size is wider along than a column.
    #[error("WiderThanColumn")]
    WiderThanColumn,
    /// The size is taller across than the atlas.
    #[error("TallerThanAtlas")]
    TallerThanAtlas,
    /// No shelf that is tall enough has a bucket with the width left, and there is no space for a new shelf, nor for
    /// one made of idle ones. What is given back, or a grow, makes room.
    #[error("NoRoom")]
    NoRoom {
        /// The greatest width, along, that a bucket of a shelf that is tall enough can give; 0 where none can give
        /// any. An item as tall and no wider fits.
        widest: u32,
    },
    /// There is space for a new shelf, but of the 4095 buckets too few are left for it, and for one that has to fill
    /// the column before it. Buckets are left again when the last shelves hold nothing live.
    #[error("NoBuckets")]
    NoBuckets,
    /// A bucket of a shelf that is tall enough has the width left, but has given 4095 items. It gives others when all
    /// that it holds was given back.
    #[error("ItemsUsedUp")]
    ItemsUsedUp,
}

impl BucketedRefusal {
    /// The reason's number, from 1 to 7.
    pub fn number(self) -> u32
        ensures { result ≡ spec.refusal_number self }
    {
        match self {
            BucketedRefusal::NotPositive => 1,
            BucketedRefusal::TooLong => 2,
            BucketedRefusal::WiderThanColumn => 3,
            BucketedRefusal::TallerThanAtlas => 4,
            BucketedRefusal::NoRoom { .. } => 5,
            BucketedRefusal::NoBuckets => 6,
            BucketedRefusal::ItemsUsedUp => 7,
        }
    }
}

/// The first reason why no shelf of a frame could take a size, however empty. The alignments are at least 1 and below
/// 2^31.
pub fn size_refusal(frame: &Frame, size: Size) -> Option<BucketedRefusal>
    requires alignment_width { (1 ≤ frame.now.alignment_width) ×
        (frame.now.alignment_width < 2 ^ 31) }
    requires alignment_height { (1 ≤ frame.now.alignment_height) ×
        (frame.now.alignment_height < 2 ^ 31) }
    ensures { result ≡ spec.size_refusal frame.now size }
{
    match etagere_base::size_refusal(frame, size)? {
        SizeRefusal::NotPositive => Some(BucketedRefusal::NotPositive),
        SizeRefusal::TooLong => Some(BucketedRefusal::TooLong),
        SizeRefusal::WiderThanColumn => Some(BucketedRefusal::WiderThanColumn),
        SizeRefusal::TallerThanAtlas => Some(BucketedRefusal::TallerThanAtlas),
    }
}

/// Whether there is space for a new shelf so tall: in the current column, or in one after it.
pub fn has_space(frame: &Frame, left: &Remaining, height: u32) -> bool
    requires { left.now.column < 2 ^ 31 }
    ensures { result ≡ spec.has_space frame.now left.now height }
{
    height <= left.height || has_later_column(frame, left)
}
