//! The text of a reply: one line, made in a small buffer. Nothing here takes memory.
//!
//! Definition: `ReplyText`. A new reply needs its words there and here, and room in the buffer.

ghost use Rattle.std.specs.Prelude.{◌≡◌, ◌≤◌, ◌+◌, ◌++◌, ◌∷◌, length, take};
ghost use Rattle.std.specs.Fmt.{signed_decimal};
ghost use Rattle.run_scripts.specs.Lines.{space};
ghost use Rattle.run_scripts.specs.ReplyText as spec;
ghost use Rattle.run_scripts.specs.ReplyText.{HasPlaces, IsPlace, TellsPlaces, corners_text, longest_line};

use crate::commands::Reply;
use crate::short_text::{
    CAPACITY, ShortText, put_below_10000, put_byte, put_five, put_number, put_word,
};
use etagere_base::{Allocation, Rectangle};

/// Writes a place, with a minus sign where it is negative. Always inlined: a line with a rectangle has four places.
#[inline(always)]
fn put_place(bytes: &mut [u8; CAPACITY], at: usize, place: i32) -> usize
    requires { at + 11 ≤ 66 }
    ensures text { take result bytes.new ≡ take at bytes.old ++ signed_decimal place }
    ensures end { result ≤ at + 11 }
    ensures short { IsPlace place → result ≤ at + 5 }
{
    if place >= 0 && place < 10_000 {
        put_below_10000(bytes, at, place as u32)
    } else if place >= 0 && place < 100_000 {
        put_five(bytes, at, place as u32)
    } else {
        put_long_place(bytes, at, place)
    }
}

/// Writes a place of whatever length. It stands apart, since none in an atlas is negative or has six digits.
#[cold]
#[inline(never)]
fn put_long_place(bytes: &mut [u8; CAPACITY], at: usize, place: i32) -> usize
    requires { at + 11 ≤ 66 }
    ensures text { take result bytes.new ≡ take at bytes.old ++ signed_decimal place }
    ensures end { result ≤ at + 11 }
{
    let mut digits = itoa::Buffer::new();
    put_word(bytes, at, digits.format(place))
}

/// Writes a space and a place. Always inlined, as `put_place` is.
#[inline(always)]
fn put_next_place(bytes: &mut [u8; CAPACITY], at: usize, place: i32) -> usize
    requires { at + 12 ≤ 66 }
    ensures text { take result bytes.new ≡ take at bytes.old ++ space ∷ signed_decimal place }
    ensures end { result ≤ at + 12 }
    ensures short { IsPlace place → result ≤ at + 6 }
{
    let behind = put_byte(bytes, at, b' ');
    put_place(bytes, behind, place)
}

/// Writes the corners of a rectangle. Always inlined: each line with a rectangle has them.
#[inline(always)]
pub fn put_corners(bytes: &mut [u8; CAPACITY], at: usize, rectangle: &Rectangle) -> usize
    requires { at + 47 ≤ 66 }
    ensures text { take result bytes.new ≡ take at bytes.old ++ corners_text rectangle.now }
    ensures end { result ≤ at + 47 }
    ensures short { HasPlaces rectangle.now → result ≤ at + 23 }
{
    let at = put_place(bytes, at, rectangle.min.x);
    let at = put_next_place(bytes, at, rectangle.min.y);
    let at = put_next_place(bytes, at, rectangle.max.x);
    put_next_place(bytes, at, rectangle.max.y)
}

/// The line of a reply. It is made in `line`, where it isn't always the same. Always inlined, so that a reply is read
/// where it was made.
#[inline(always)]
pub fn line_of<'a>(reply: &Reply, line: &'a mut ShortText) -> &'a [u8]
    ensures text { result.now ≡ spec.line_of reply.now }
    ensures short { TellsPlaces reply.now → length result.now ≤ longest_line }
{
    match reply {
        Reply::Placed(allocation) => {
            let end = put_placed(&mut line.bytes, allocation);
            &line.bytes[..end]
        }
        Reply::Refused => b"refused\n",
        Reply::Returned => b"returned\n",
        Reply::At(rectangle, index) => {
            let end = put_at(&mut line.bytes, *rectangle, *index);
            &line.bytes[..end]
        }
        Reply::NotLive => b"not live\n",
        Reply::Cleared => b"cleared\n",
        Reply::Grown => b"grown\n",
        Reply::GrowRefused(number) => {
            let end = put_grow_refused(&mut line.bytes, *number);
            &line.bytes[..end]
        }
        Reply::NoMemory => b"no memory\n",
    }
}

/// Writes the line of a size that was placed. Always inlined: most lines are of that kind.
#[inline(always)]
fn put_placed(bytes: &mut [u8; CAPACITY], allocation: &Allocation) -> usize
    ensures text { take result bytes.new ≡ spec.line_of (Reply.Placed allocation.now) }
    ensures end { result ≤ 66 }
    ensures short { HasPlaces allocation.now.rectangle → result ≤ longest_line }
{
    let at = put_word(bytes, 0, "placed ");
    let at = put_number(bytes, at, allocation.id.serialize());
    let at = put_byte(bytes, at, b' ');
    let at = put_corners(bytes, at, &allocation.rectangle);
    put_byte(bytes, at, b'\n')
}

/// Writes the line of what was looked up. It stands apart, and is handed a copy, so that a reply needn't be in memory.
#[inline(never)]
fn put_at(bytes: &mut [u8; CAPACITY], rectangle: Rectangle, index: u32) -> usize
    ensures text { take result bytes.new ≡ spec.line_of (Reply.At rectangle index) }
    ensures end { result ≤ 66 }
    ensures short { HasPlaces rectangle → result ≤ longest_line }
{
    let at = put_word(bytes, 0, "at ");
    let at = put_corners(bytes, at, &rectangle);
    let at = put_byte(bytes, at, b' ');
    let at = put_number(bytes, at, index);
    put_byte(bytes, at, b'\n')
}

/// Writes the line of a size to which an atlas didn't grow.
#[inline(never)]
fn put_grow_refused(bytes: &mut [u8; CAPACITY], number: u32) -> usize
    ensures text { take result bytes.new ≡ spec.line_of (Reply.GrowRefused number) }
    ensures end { result ≤ 66 }
    ensures short { result ≤ longest_line }
{
    let at = put_word(bytes, 0, "grow refused ");
    let at = put_number(bytes, at, number);
    put_byte(bytes, at, b'\n')
}
