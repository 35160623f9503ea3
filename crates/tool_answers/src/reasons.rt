//! Why a size was refused, in words.

use crate::pieces::Piece::{Count, Number, Words};
use crate::pieces::push_pieces;
use etagere::{BucketedRefusal, Refusal, Size};
use std::alloc::AllocError;

/// Why a size is refused.
#[derive(Clone, Copy)]
pub enum Why {
    /// For this reason.
    Told(&'static str),
    /// Since no shelf that is tall enough has room, and this is the widest that one has.
    NoRoom(u32),
}

/// Adds what is said of a size that no page has a place for, behind its line: what an empty page says of it, if it has
/// none either.
pub fn push_unplaced(
    text: &mut String,
    reason: Option<Refusal>,
    asked: Size,
) -> Result<(), AllocError> {
    let why = match reason {
        Some(reason) => shelf_why(reason),
        None => Why::Told("no page has room, and no more may be opened"),
    };
    push_why(text, why, asked, false)
}

/// Adds why a size is refused, and what would have fitted: the widest that a shelf has, as tall as what was asked for.
pub fn push_why(
    text: &mut String,
    why: Why,
    asked: Size,
    is_vertical: bool,
) -> Result<(), AllocError> {
    let Size { width, height } = asked;
    push_pieces(
        text,
        &[
            Number(width),
            Words("x"),
            Number(height),
            Words(" refused: "),
        ],
    )?;
    let pieces = match why {
        Why::Told(words) => return text.push_str(words),
        Why::NoRoom(0) => return text.push_str("no shelf that is tall enough has anything free"),
        Why::NoRoom(widest) if is_vertical => [
            Number(width),
            Words("x"),
            Count(u128::from(widest)),
        ],
        Why::NoRoom(widest) => [Count(u128::from(widest)), Words("x"), Number(height)],
    };
    text.push_str("no shelf that is tall enough has it free; ")?;
    push_pieces(text, &pieces)?;
    text.push_str(" would fit")
}

/// Adds what the largest free item is.
pub fn push_largest(text: &mut String, largest: Size) -> Result<(), AllocError> {
    let Size { width, height } = largest;
    if width == 0 || height == 0 {
        return text.push_str("; no item is free");
    }
    push_pieces(
        text,
        &[
            Words("; the largest free item is "),
            Number(width),
            Words("x"),
            Number(height),
        ],
    )
}

/// Why a shelf atlas refuses a size.
pub fn shelf_why(reason: Refusal) -> Why {
    Why::Told(match reason {
        Refusal::NotPositive => "a side is below 1",
        Refusal::TooLong => "a side is above 65535",
        Refusal::WiderThanColumn => "it is longer along the shelves than a column is wide",
        Refusal::TallerThanAtlas => "it is taller across the shelves than the atlas",
        Refusal::NoRoom { widest } => return Why::NoRoom(widest),
        Refusal::NoRecords => "a shelf has room, but there would be more than 65535 items",
    })
}

/// Why a bucketed atlas refuses a size.
pub fn bucket_why(reason: BucketedRefusal) -> Why {
    Why::Told(match reason {
        BucketedRefusal::NotPositive => "a side is below 1",
        BucketedRefusal::TooLong => "a side is above 65535",
        BucketedRefusal::WiderThanColumn => "it is longer along the shelves than a column is wide",
        BucketedRefusal::TallerThanAtlas => "it is taller across the shelves than the atlas",
        BucketedRefusal::NoRoom { widest } => return Why::NoRoom(widest),
        BucketedRefusal::NoBuckets => {
            "there is space for a shelf, but too few of the 4095 buckets are left"
        }
        BucketedRefusal::ItemsUsedUp => {
            "a bucket has room, but has given 4095 items, and gives more once it is empty"
        }
    })
}

/// Why an atlas doesn't grow to a size, which is the fault of this number.
pub fn grow_why(number: u32) -> Why {
    Why::Told(match number {
        1 => "a side is out of range",
        2 => "a side is below the present one",
        3 => "the area is too large",
        _ => "there would be more than 65535 items",
    })
}
