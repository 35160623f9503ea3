//! Calls of a shelf atlas.

use etagere::laws::Walk;
use etagere::{
    AllocId, AtlasAllocator, AtlasSnapshot, OptionsFault, Rectangle, Refusal, RestoreFault, Size,
    Usage, laws,
};
use moves::atlases::{Move, Rearranged, rearranged};
use row_atlases::atlases;
use row_atlases::kinds::Atlas;
use row_calls::lines::{
    id_of, say, say_each, say_fault, say_given, say_number, say_rectangle, say_size, size_of,
};
use row_calls::slots::{Called, NotMade};
use std::alloc::{AllocError, Global};
use std::io;

/// A shelf atlas that is called by lines.
#[derive(Drop)]
pub struct CalledAtlas(AtlasAllocator);

impl Called for CalledAtlas {
    fn made(alloc: Global, words: &str) -> Result<CalledAtlas, NotMade> {
        Ok(CalledAtlas(atlases::made(alloc, words)?))
    }

    fn copied(&self, _alloc: Global) -> Result<CalledAtlas, NotMade> {
        Ok(CalledAtlas(atlases::copied(&self.0)?))
    }

    fn saved(&self, alloc: Global) -> Option<String> {
        written(alloc, &self.0.saved().ok()?)
    }

    fn restored(alloc: Global, text: &str) -> Result<CalledAtlas, NotMade> {
        Ok(CalledAtlas(atlases::restored(alloc, read(alloc, text))?))
    }

    fn steps(alloc: Global, text: &str) -> Result<u64, NotMade> {
        steps_of(alloc, read(alloc, text).ok_or(NotMade::Unread)?)
    }

    fn answer(
        &mut self,
        rt: &(impl Print + AllocGlobal),
        call: &str,
        words: &str,
    ) -> io::Result<()> {
        let atlas = &mut self.0;
        match call {
            "get" => say_rectangle(rt, rectangle_of(atlas, id_of(words))),
            "index" => say_index(rt, index_of(atlas, id_of(words))),
            "iter" => list(rt, atlas),
            "refusal" => say_refusal(rt, refusal_of(atlas, size_of(words))),
            "usage" => say_usage(rt, &usage_of(atlas)),
            "walk" => walk(rt, words),
            "moved" => rearrange(rt, atlas, words, true),
            "moves" => rearrange(rt, atlas, words, false),
            _ => atlases::answer(atlas, rt, call, words),
        }
    }
}

// What these calls promise ends in functions that promise nothing, so that it isn't gone through in what uses them.

fn written(alloc: Global, saved: &AtlasSnapshot) -> Option<String> {
    serde_json::to_string(alloc, saved).ok()
}

fn read(alloc: Global, text: &str) -> Option<AtlasSnapshot> {
    serde_json::from_str(alloc, text).ok()
}

fn steps_of(alloc: Global, saved: AtlasSnapshot) -> Result<u64, NotMade> {
    // Whatever it was, it becomes their number.
    let mut steps = u64::MAX;
    match laws::restore_atlas(alloc, saved, &mut steps) {
        Err(RestoreFault::Memory) => Err(NotMade::NoMemory),
        _ => Ok(steps),
    }
}

fn rectangle_of(atlas: &AtlasAllocator, id: AllocId) -> Option<Rectangle> {
    atlas.get(id)
}

fn index_of(atlas: &AtlasAllocator, id: AllocId) -> Option<u32> {
    atlas.get_index(id)
}

fn refusal_of(atlas: &AtlasAllocator, size: Size) -> Option<Refusal> {
    atlas.refusal(size)
}

fn usage_of(atlas: &AtlasAllocator) -> Usage {
    atlas.usage()
}

fn say_index(rt: &impl Print, index: Option<u32>) -> io::Result<()> {
    match index {
        Some(index) => say_number(rt, u64::from(index)),
        None => say(rt, "none"),
    }
}

/// Writes a line for each allocation, in the order in which they are given, and one that ends them, if none follows.
fn list(rt: &impl Print, atlas: &AtlasAllocator) -> io::Result<()> {
    let mut allocations = atlas.iter();
    for allocation in &mut allocations {
        say_given(rt, "at", &allocation)?;
    }
    if allocations.next().is_some() {
        say(rt, "more")?;
    }
    say(rt, "end")
}

/// Writes why a size has no place, by its number.
fn say_refusal(rt: &impl Print, refusal: Option<Refusal>) -> io::Result<()> {
    match refusal {
        None => say(rt, "none"),
        Some(Refusal::NoRoom { widest }) => println!(rt; "reason 5 widest {widest}"),
        Some(reason) => println!(rt; "reason {}", reason.number()),
    }
}

/// Writes how full an atlas is.
fn say_usage(rt: &impl Print, usage: &Usage) -> io::Result<()> {
    let numbers = [
        ("shelves ", usage.shelves),
        ("empty ", usage.empty_shelves),
        ("items ", usage.items),
        ("free ", usage.free_items),
        ("unused ", usage.unused_records),
    ];
    say_each(rt, &numbers)?;
    rt.print("largest ")?;
    say_size(rt, usage.largest_free)
}

/// Makes a walk, and writes what it met, its end and its steps.
fn walk(rt: &(impl Print + AllocGlobal), words: &str) -> io::Result<()> {
    match walked(rt.alloc(), words) {
        Ok(walk) => say_walk(rt, &walk),
        Err(AllocError) => say(rt, "no memory"),
    }
}

fn say_walk(rt: &impl Print, walk: &Walk) -> io::Result<()> {
    rt.print("met ")?;
    for number in &walk.met {
        print!(rt; "{number} ")?;
    }
    println!(rt; "end {} steps {}", walk.end, walk.steps)
}

/// Moves what is live into a new atlas of these sides, and writes that: with `is_whole` a line for each rectangle, else how
/// many they are, and the last.
fn rearrange(
    rt: &(impl Print + AllocGlobal),
    atlas: &AtlasAllocator,
    words: &str,
    is_whole: bool,
) -> io::Result<()> {
    let moved = moved(rt.alloc(), atlas, size_of(words));
    say_moved(rt, &moved, is_whole)
}

fn say_moved(
    rt: &impl Print,
    moved: &Result<Rearranged, OptionsFault>,
    is_whole: bool,
) -> io::Result<()> {
    match moved {
        Ok(done) if is_whole => say_moves(rt, done),
        Ok(done) => say_last_move(rt, done),
        Err(OptionsFault::Memory) => say(rt, "no memory"),
        Err(fault) => say_fault(rt, fault.number()),
    }
}

/// Writes a line for each rectangle that moves, with its old id, one for each that finds no place, and one that ends them.
fn say_moves(rt: &impl Print, done: &Rearranged) -> io::Result<()> {
    for one in &done.moves {
        say_move(rt, one)?;
    }
    for left in &done.unplaced {
        say_given(rt, "left", left)?;
    }
    say(rt, "end")
}

fn say_move(rt: &impl Print, one: &Move) -> io::Result<()> {
    let Move { before, after } = one;
    print!(rt; "{} ", before.id.serialize())?;
    say_given(rt, "to", after)
}

/// Writes how many rectangles move, how many find no place, and what the last one that moves gets.
fn say_last_move(rt: &impl Print, done: &Rearranged) -> io::Result<()> {
    print!(rt; "moved {} left {} ", done.moves.len(), done.unplaced.len())?;
    match done.moves.last() {
        Some(last) => say_given(rt, "last", &last.after),
        None => say(rt, "none"),
    }
}

fn links_of(words: &str) -> [u16; 9] {
    let mut links = [0; 9];
    for (link, word) in links.iter_mut().zip(words.split(' ')) {
        *link = word.parse().unwrap_or(0);
    }
    links
}

/// The walk from the first number, where the others are the link of each record.
fn walked(alloc: Global, words: &str) -> Result<Walk, AllocError> {
    let links = links_of(words);
    laws::walk(alloc, &links[1..], links[0])
}

fn moved(alloc: Global, atlas: &AtlasAllocator, size: Size) -> Result<Rearranged, OptionsFault> {
    rearranged(alloc, atlas, size)
}
