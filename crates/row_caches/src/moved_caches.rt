//! Moves of a cache of glyphs into a new atlas.

use etagere::{OptionsFault, Rectangle, Size};
use glyph_shelf::GlyphCache;
use moves::caches::{KeyMove, RearrangedCache, UnplacedKey, rearranged_cache};
use row_calls::lines::{say, say_bracketed, say_fault, say_rectangle, size_of};
use std::alloc::Global;
use std::io;

/// Writes a line for each key that moves into a new atlas, with its rectangles before and after, one for each that finds
/// no place, and one that ends them.
pub fn say_moved(
    cache: &GlyphCache,
    rt: &(impl Print + AllocGlobal),
    words: &str,
) -> io::Result<()> {
    say_answer(rt, &moved(rt.alloc(), cache, size_of(words)))
}

fn say_answer(rt: &impl Print, answer: &Result<RearrangedCache, OptionsFault>) -> io::Result<()> {
    match answer {
        Ok(done) => say_keys(rt, done),
        Err(fault) => say_refused(rt, *fault),
    }
}

/// Puts the new cache in place of the old one, and writes how many keys are in it and how many found no place.
pub fn rearrange(
    cache: &mut GlyphCache,
    rt: &(impl Print + AllocGlobal),
    words: &str,
) -> io::Result<()> {
    match moved(rt.alloc(), cache, size_of(words)) {
        Ok(done) => {
            let (moves, unplaced) = (done.moves.len(), done.unplaced.len());
            put(cache, done);
            println!(rt; "moved {moves} left {unplaced}")
        }
        Err(fault) => say_refused(rt, fault),
    }
}

fn put(cache: &mut GlyphCache, done: RearrangedCache) {
    *cache = done.cache;
}

fn say_keys(rt: &impl Print, done: &RearrangedCache) -> io::Result<()> {
    say_moves(rt, done.moves.as_slice())?;
    say_left(rt, done.unplaced.as_slice())?;
    say(rt, "end")
}

fn say_moves(rt: &impl Print, moves: &[KeyMove]) -> io::Result<()> {
    for key_move in moves {
        say_move(rt, key_move)?;
    }
    Ok(())
}

fn say_left(rt: &impl Print, unplaced: &[UnplacedKey]) -> io::Result<()> {
    for key in unplaced {
        say_unplaced(rt, key)?;
    }
    Ok(())
}

fn say_move(rt: &impl Print, key_move: &KeyMove) -> io::Result<()> {
    print!(rt; "{} from ", key_move.key)?;
    say_bracketed(rt, &key_move.before)?;
    rt.print(" to ")?;
    say_rectangle(rt, Some(key_move.after))
}

fn say_unplaced(rt: &impl Print, unplaced: &UnplacedKey) -> io::Result<()> {
    print!(rt; "left {} ", unplaced.key)?;
    say_rectangle(rt, Some(unplaced.rectangle))
}

fn say_refused(rt: &impl Print, fault: OptionsFault) -> io::Result<()> {
    match fault {
        OptionsFault::Memory => say(rt, "no memory"),
        _ => say_fault(rt, fault.number()),
    }
}

// What this call promises ends in a function that promises nothing, so that it isn't gone through in what uses it.

fn moved(alloc: Global, cache: &GlyphCache, size: Size) -> Result<RearrangedCache, OptionsFault> {
    rearranged_cache(alloc, cache, size)
}
