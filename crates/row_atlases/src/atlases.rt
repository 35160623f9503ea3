//! The calls that atlases of both kinds have, by their lines.

use crate::kinds::{Atlas, NotGrown};
use etagere::{RestoreFault, Size};
use row_calls::lines::{
    asked, id_of, rectangle_of, say, say_fault, say_if, say_placed, say_size, size_of,
};
use row_calls::slots::{NotMade, of_options};
use std::alloc::Global;
use std::io;

/// An atlas of these words.
pub fn made<A: Atlas>(alloc: Global, words: &str) -> Result<A, NotMade> {
    let (size, options) = asked(words);
    let made = match options {
        None => A::made(alloc, size),
        Some(options) => A::made_with(alloc, size, &options),
    };
    made.map_err(of_options)
}

fn of_rule(fault: RestoreFault) -> NotMade {
    match fault {
        RestoreFault::Memory => NotMade::NoMemory,
        fault => NotMade::Fault(fault.number()),
    }
}

pub fn copied<A: Atlas>(atlas: &A) -> Result<A, NotMade> {
    atlas.copied().map_err(|_| NotMade::NoMemory)
}

/// What a saved one restores.
pub fn restored<A: Atlas>(alloc: Global, saved: Option<A::Snapshot>) -> Result<A, NotMade> {
    match saved {
        Some(saved) => A::restored(alloc, saved).map_err(of_rule),
        None => Err(NotMade::Unread),
    }
}

/// Makes a call, and writes its answer.
pub fn answer<A: Atlas>(atlas: &mut A, rt: &impl Print, call: &str, words: &str) -> io::Result<()> {
    match call {
        "allocate" => say_placed(rt, &atlas.ask(size_of(words))),
        "deallocate" => give_back(atlas, rt, words),
        "grow" => grow(atlas, rt, size_of(words)),
        "clear" => clear(atlas, rt),
        "picture" => draw(atlas, rt),
        "part" => draw_part(atlas, rt, words),
        "counts" => say_counts(rt, atlas),
        "largest_free" => say_size(rt, atlas.largest()),
        _ => say(rt, "no such call"),
    }
}

fn give_back<A: Atlas>(atlas: &mut A, rt: &impl Print, word: &str) -> io::Result<()> {
    let is_known = atlas.give_back(id_of(word)).is_ok();
    say_if(rt, is_known, "returned", "unknown")
}

fn grow<A: Atlas>(atlas: &mut A, rt: &impl Print, size: Size) -> io::Result<()> {
    match atlas.enlarge(size) {
        Ok(()) => say(rt, "grown"),
        Err(NotGrown::Refused(number)) => say_fault(rt, number),
        Err(NotGrown::Memory) => say(rt, "no memory"),
    }
}

fn clear<A: Atlas>(atlas: &mut A, rt: &impl Print) -> io::Result<()> {
    atlas.empty();
    say(rt, "cleared")
}

/// Writes the picture, and a line that ends it.
fn draw<A: Atlas>(atlas: &A, rt: &impl Print) -> io::Result<()> {
    atlas.draw(&mut io::writer(rt))?;
    say(rt, "end")
}

/// Writes what a document has of the picture in the rectangle of these corners, or, without words, all of it, and a line
/// that ends it.
fn draw_part<A: Atlas>(atlas: &A, rt: &impl Print, words: &str) -> io::Result<()> {
    let rectangle = (!words.is_empty()).then_some(rectangle_of(words));
    atlas.draw_into(rectangle.as_ref(), &mut io::writer(rt))?;
    say(rt, "end")
}

/// Writes the sides, whether nothing is allocated, what is allocated and what is free.
fn say_counts<A: Atlas>(rt: &impl Print, atlas: &A) -> io::Result<()> {
    let (Size { width, height }, is_empty, allocated, free) = atlas.counts();
    println!(rt; "{width} {height} {is_empty} {allocated} {free}")
}
