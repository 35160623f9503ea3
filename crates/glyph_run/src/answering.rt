//! One command, one call of the cache, one reply.
//!
//! Definition: `Runs`. A new command needs its pairs in `GlyphStep`.

ghost use Rattle.glyph_run.specs.Runs.{GlyphStep};
ghost use Rattle.glyph_shelf.specs.Promises.{KeepsCachePromises};

use crate::commands::{GlyphCommand, GlyphReply};
use etagere::Size;
use glyph_shelf::{GlyphCache, GlyphFault};

/// Answers a command.
pub fn answer(cache: &mut GlyphCache, command: GlyphCommand) -> GlyphReply
    ensures step { GlyphStep cache.old command result cache.new }
    ensures promises { KeepsCachePromises cache.new }
{
    match command {
        GlyphCommand::Place(key, size) => place(cache, key, size),
        GlyphCommand::Get(key) => get(cache, key),
        GlyphCommand::Remove(key) => remove(cache, key),
        GlyphCommand::Clear => clear(cache),
        GlyphCommand::BeginFrame => begin_frame(cache),
    }
}

fn place(cache: &mut GlyphCache, key: u64, size: Size) -> GlyphReply
    ensures step { GlyphStep cache.old (GlyphCommand.Place key size) result cache.new }
    ensures promises { KeepsCachePromises cache.new }
{
    match cache.place(key, size) {
        Ok(placed) => GlyphReply::Placed(placed),
        Err(GlyphFault::TooLarge) => GlyphReply::TooLarge,
        Err(GlyphFault::Memory(evicted)) => GlyphReply::NoMemory(evicted),
        Err(GlyphFault::FrameFull) => GlyphReply::FrameFull,
    }
}

fn get(cache: &mut GlyphCache, key: u64) -> GlyphReply
    ensures step { GlyphStep cache.old (GlyphCommand.Get key) result cache.new }
    ensures promises { KeepsCachePromises cache.new }
{
    match cache.get(key) {
        Some(rectangle) => GlyphReply::At(rectangle),
        None => GlyphReply::NotThere,
    }
}

fn remove(cache: &mut GlyphCache, key: u64) -> GlyphReply
    ensures step { GlyphStep cache.old (GlyphCommand.Remove key) result cache.new }
    ensures promises { KeepsCachePromises cache.new }
{
    match cache.remove(key) {
        Some(rectangle) => GlyphReply::Removed(rectangle),
        None => GlyphReply::NotThere,
    }
}

fn clear(cache: &mut GlyphCache) -> GlyphReply
    ensures step { GlyphStep cache.old GlyphCommand.Clear result cache.new }
    ensures promises { KeepsCachePromises cache.new }
{
    cache.clear();
    GlyphReply::Cleared
}

fn begin_frame(cache: &mut GlyphCache) -> GlyphReply
    ensures step { GlyphStep cache.old GlyphCommand.BeginFrame result cache.new }
    ensures promises { KeepsCachePromises cache.new }
{
    cache.begin_frame();
    GlyphReply::Begun
}
