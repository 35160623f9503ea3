//! Which shelves are added for what is asked: their columns, heights and buckets.
//!
//! Definitions: `Adding`. Whether a shelf can be added is asked first, by `can_add`.

ghost use Rattle.std.specs.Prelude.{◌≡◌, true, ◌<◌, ◌^◌, length};
ghost use Rattle.bucketed_model.specs.Adding as spec;
ghost use Rattle.bucketed_model.specs.Frames.{IsBucketedFrame};

use etagere_base::{Frame, Sides, step};
use std::marker::Model;

/// A shelf to be made: its column, its height in pixels and how many buckets it gets.
#[derive(Clone, Copy)]
pub struct NewShelf {
    pub column: u32,
    pub height: u32,
    pub count: u32,
}

impl Model for NewShelf {
    ghost use Rattle.bucketed_model.specs.Adding as adding;

    ghost Value = { adding.NewShelf };

    ghost view = { λ new. record { column = new.column; height = new.height; count = new.count } };

    ghost inverse = { λ new. record {
      column = new.column;
      height = new.height;
      count = new.count;
    } };
}

/// What the shelves leave: the column in which shelves are added, the height that is available there, and how many
/// buckets can still be made.
#[derive(Clone, Copy)]
pub struct Remaining {
    pub column: u32,
    pub height: u32,
    pub buckets: u32,
}

impl Model for Remaining {
    ghost use Rattle.bucketed_model.specs.Adding as adding;

    ghost Value = { adding.Remaining };

    ghost view = { λ left. record {
      column = left.column;
      height = left.height;
      buckets = left.buckets;
    } };

    ghost inverse = { λ left. record {
      column = left.column;
      height = left.height;
      buckets = left.buckets;
    } };
}

/// The shelf asked for, and the filler before it where one is needed.
#[derive(Clone, Copy)]
pub struct NewShelves {
    pub filler: Option<NewShelf>,
    pub asked: NewShelf,
}

impl Model for NewShelves {
    ghost use Rattle.bucketed_model.specs.Adding as adding;

    ghost Value = { adding.NewShelves };

    ghost view = { λ news. record { filler = news.filler; asked = news.asked } };

    ghost inverse = { λ news. record { filler = news.filler; asked = news.asked } };
}

impl NewShelves {
    /// How many they are.
    pub fn shelf_count(&self) -> usize
        ensures { result ≡ length (spec.news_of self.now) }
    {
        match &self.filler {
            Some(_) => 2,
            None => 1,
        }
    }

    /// How many buckets the new shelves get together.
    pub fn total_count(&self) -> u32
        requires { spec.total_count (spec.news_of self.now) < 2 ^ 32 }
        ensures { result ≡ spec.total_count (spec.news_of self.now) }
    {
        match &self.filler {
            Some(filler) => filler.count + self.asked.count,
            None => self.asked.count,
        }
    }
}

/// Into how many buckets a shelf is divided that is so many of its items long.
pub(crate) fn bucket_count(items: u32) -> u32
    ensures { result ≡ spec.bucket_count items }
{
    match items {
        0..=4 => 1,
        5..=16 => 2,
        17..=32 => 4,
        _ => least_power_of_two(items / 16 - 1),
    }
}

/// The least power of two, up to 4096, that is not below a number.
fn least_power_of_two(number: u32) -> u32
    requires { number < 2 ^ 31 }
    ensures { result ≡ spec.least_power_of_two number }
{
    let mut power = 1;
    for _ in 0..12_u32 {
        if power >= number {
            break;
        }
        power += power;
    }
    power
}

/// The width of a bucket: an equal share of the column, rounded down to the alignment.
pub fn width_of_share(frame: &Frame, count: u32) -> u32
    requires frame { IsBucketedFrame frame.now }
    requires some { 0 < count }
    ensures { result ≡ spec.width_of_share frame.now count }
{
    let alignment = frame.alignment_along();
    frame.column_width / count / alignment * alignment
}

/// How many buckets a new shelf gets for items this wide, where so many are left.
fn new_count(frame: &Frame, width: u32, height: u32, left: u32) -> u32
    requires { 0 < height }
    ensures { result ≡ spec.new_count frame.now width height left }
{
    bucket_count(frame.column_width / width.max(height)).min(left)
}

/// Whether there is a column after the current one.
pub(crate) fn has_later_column(frame: &Frame, left: &Remaining) -> bool
    requires { left.now.column < 2 ^ 31 }
    ensures { result ≡ spec.has_later_column frame.now left.now }
{
    left.column + 1 < frame.columns
}

fn needs_filler(frame: &Frame, left: &Remaining, height: u32) -> bool
    requires { left.now.column < 2 ^ 31 }
    ensures { result ≡ spec.needs_filler frame.now left.now height }
{
    0 < left.height && left.height < height && has_later_column(frame, left)
}

/// Whether a shelf this tall can be added.
pub fn can_add(frame: &Frame, left: &Remaining, height: u32) -> bool
    requires { left.now.column < 2 ^ 31 }
    ensures { result ≡ spec.can_add frame.now left.now height }
{
    if height <= left.height {
        return 1 <= left.buckets;
    }
    let needed = if left.height == 0 { 1 } else { 2 };
    has_later_column(frame, left) && needed <= left.buckets
}

fn asked_shelf(frame: &Frame, left: &Remaining, sides: &Sides) -> NewShelf
    requires across { (0 < sides.now.across) × (sides.now.across < 2 ^ 31) }
    requires height { 0 < left.now.height }
    ensures { result
        ≡ spec.asked_shelf frame.now left.now.column left.now.height left.now.buckets sides.now }
{
    let height = step(sides.across).min(left.height);
    NewShelf {
        column: left.column,
        height,
        count: new_count(frame, sides.along, height, left.buckets),
    }
}

/// The shelves to be added for these sides, where some can be.
pub fn new_shelves(frame: &Frame, left: &Remaining, sides: &Sides) -> NewShelves
    requires frame { IsBucketedFrame frame.now }
    requires across { (0 < sides.now.across) × (sides.now.across < 2 ^ 31) }
    requires column { left.now.column < 2 ^ 31 }
    requires adds { spec.can_add frame.now left.now sides.now.across ≡ true }
    ensures { spec.news_of result ≡ spec.new_shelves frame.now left.now sides.now }
{
    let next = Remaining {
        column: left.column + 1,
        height: frame.across_side(),
        buckets: left.buckets,
    };
    if needs_filler(frame, left, sides.across) {
        let filler = NewShelf {
            column: left.column,
            height: left.height,
            count: new_count(frame, 0, left.height, left.buckets - 1),
        };
        let rest = Remaining {
            column: next.column,
            height: next.height,
            buckets: left.buckets - filler.count,
        };
        return NewShelves {
            filler: Some(filler),
            asked: asked_shelf(frame, &rest, sides),
        };
    }
    let remaining = if left.height == 0 { next } else { *left };
    NewShelves {
        filler: None,
        asked: asked_shelf(frame, &remaining, sides),
    }
}
