//! Words of lines as values, and answers as lines.

use etagere_base::{AllocId, Allocation, AllocatorOptions, Rectangle, Size, point2, size2};
use std::alloc::AllocError;
use std::io;
use std::num::NonZeroUsize;

/// The first word, and what comes behind it.
pub fn parted(line: &str) -> (&str, &str) {
    line.split_once(' ').unwrap_or((line, ""))
}

/// The numbers of some words, and 0 for each that is none.
pub fn numbers(words: &str) -> [i32; 6] {
    let mut numbers = [0; 6];
    for (number, word) in numbers.iter_mut().zip(words.split(' ')) {
        *number = word.parse().unwrap_or(0);
    }
    numbers
}

pub fn size_of(words: &str) -> Size {
    let [width, height, ..] = numbers(words);
    size2(width, height)
}

/// A rectangle by the corner where it begins and the one past its last.
pub fn rectangle_of(words: &str) -> Rectangle {
    let [x0, y0, x1, y1, ..] = numbers(words);
    Rectangle {
        min: point2(x0, y0),
        max: point2(x1, y1),
    }
}

pub fn key_of(word: &str) -> u64 {
    word.parse().unwrap_or(0)
}

/// A key, whose number stands before its sides.
pub fn key_and_size_of(words: &str) -> (u64, Size) {
    let (key, sides) = parted(words);
    (key_of(key), size_of(sides))
}

/// So many keys at most, which can't be none.
pub fn capacity_of(number: i32) -> Option<NonZeroUsize> {
    NonZeroUsize::new(usize::try_from(number).unwrap_or(0))
}

pub fn id_of(word: &str) -> AllocId {
    AllocId::deserialize(word.parse().unwrap_or(0))
}

/// The sides of an atlas, and its options where they are said: the alignments of x and y, how many columns, and whether
/// shelves are vertical.
pub fn asked(words: &str) -> (Size, Option<AllocatorOptions>) {
    let [width, height, x, y, num_columns, vertical] = numbers(words);
    let options = AllocatorOptions {
        alignment: size2(x, y),
        vertical_shelves: vertical == 1,
        num_columns,
    };
    let is_plain = words.split(' ').count() == 2;
    (size2(width, height), (!is_plain).then_some(options))
}

/// Writes a line of these words.
pub fn say(rt: &impl Print, words: &str) -> io::Result<()> {
    rt.println(words)
}

pub fn say_number(rt: &impl Print, number: u64) -> io::Result<()> {
    rt.println(number)
}

pub fn say_fault(rt: &impl Print, number: u32) -> io::Result<()> {
    println!(rt; "fault {number}")
}

pub fn say_if(rt: &impl Print, holds: bool, yes: &str, no: &str) -> io::Result<()> {
    say(rt, if holds { yes } else { no })
}

/// Writes numbers within a line, each behind the words before it.
pub fn say_each(rt: &impl Print, numbers: &[(&str, u32)]) -> io::Result<()> {
    for (words, number) in numbers {
        print!(rt; "{words}{number} ")?;
    }
    Ok(())
}

pub fn say_size(rt: &impl Print, size: Size) -> io::Result<()> {
    println!(rt; "{} {}", size.width, size.height)
}

/// Writes the corner of a rectangle and the one past its last, if there is one.
pub fn say_rectangle(rt: &impl Print, rectangle: Option<Rectangle>) -> io::Result<()> {
    match rectangle {
        Some(rectangle) => {
            say_bracketed(rt, &rectangle)?;
            say(rt, "")
        }
        None => say(rt, "none"),
    }
}

/// Writes in brackets a corner of a rectangle and the one past its last, within a line.
pub fn say_bracketed(rt: &impl Print, rectangle: &Rectangle) -> io::Result<()> {
    let Rectangle { min, max } = rectangle;
    print!(rt; "({},{})-({},{})", min.x, min.y, max.x, max.y)
}

/// Writes what an allocation answers.
pub fn say_placed(
    rt: &impl Print,
    answer: &Result<Option<Allocation>, AllocError>,
) -> io::Result<()> {
    match answer {
        Ok(Some(given)) => say_given(rt, "placed", given),
        Ok(None) => say(rt, "refused"),
        Err(_) => say(rt, "no memory"),
    }
}

/// Writes the corners and the id of an allocation.
pub fn say_given(rt: &impl Print, word: &str, given: &Allocation) -> io::Result<()> {
    print!(rt; "{word} ")?;
    say_bracketed(rt, &given.rectangle)?;
    println!(rt; " id {}", given.id.serialize())
}

/// Ends a line with the keys that were evicted.
pub fn say_evicted(rt: &impl Print, evicted: &[u64]) -> io::Result<()> {
    rt.print(" evicts")?;
    for key in evicted {
        print!(rt; " {key}")?;
    }
    say(rt, "")
}
