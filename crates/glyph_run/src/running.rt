//! Runs of commands on a cache: one command, one call, one reply.
//!
//! Definition: `Runs`, over those of `glyph_shelf`.

ghost use Rattle.std.specs.Prelude.{◌≡◌, ◌≤◌, [], length, vec_capacity, IfOk, IfErr, OnOk};
ghost use Rattle.std.specs.NonZero.{non_zero_usize_get};
ghost use Rattle.etagere_base.specs.Frames.{IsAccepted, atlas_frame, longest_side};
ghost use Rattle.etagere_run.specs.Answers.Runs.{RefusesRun};
ghost use Rattle.glyph_shelf.specs.Cache.{empty_cache};
ghost use Rattle.glyph_shelf.specs.Promises.{KeepsCachePromises};
ghost use Rattle.glyph_run.specs.Runs.{RunKeepsPromisesThroughout, RunsTo};

use crate::answering::answer;
use crate::commands::{GlyphCommand, GlyphReply};
use etagere::{AllocatorOptions, Size};
use glyph_shelf::GlyphCache;
use run_scripts::faults::RunFault;
use std::alloc::Global;
use std::num::NonZeroUsize;

/// Runs the commands in order on a new cache of at most `capacity` keys, over an atlas of this size in pixels, and gives
/// a reply to each.
///
/// `Options` tells the first fault of the size and options, and that memory ran out for the cache only where they have
/// none; `Memory` comes where there is no room for the replies, which is taken first. After an error nothing was run.
/// Takes memory for a reply to each command, beside what the cache takes. Each command costs what its call of the cache
/// does.
pub fn run_cache(
    alloc: Global,
    size: Size,
    options: &AllocatorOptions,
    capacity: NonZeroUsize,
    commands: &[GlyphCommand],
) -> Result<Vec<GlyphReply>, RunFault>
    ensures run { IfOk result (λ replies. RunsTo (atlas_frame size options.now)
        (non_zero_usize_get capacity) commands.now replies.items) }
    ensures promises { IfOk result (λ replies. RunKeepsPromisesThroughout (atlas_frame size options.now)
        (non_zero_usize_get capacity) commands.now replies.items) }
    ensures accepted { OnOk result (IsAccepted longest_side size options.now) }
    ensures err { IfErr result (RefusesRun longest_side size options.now) }
{
    let Ok(replies) = Vec::with_capacity(alloc, commands.len()) else {
        return Err(RunFault::Memory);
    };
    let mut cache = GlyphCache::new(alloc, size, options, capacity).map_err(RunFault::Options)?;
    Ok(answer_all(&mut cache, replies, commands))
}

/// The replies of a new cache to the commands, one after another.
fn answer_all(
    cache: &mut GlyphCache,
    replies: Vec<GlyphReply>,
    commands: &[GlyphCommand],
) -> Vec<GlyphReply>
    requires new { cache.old ≡ empty_cache cache.old.atlas.frame cache.old.capacity }
    requires promises { KeepsCachePromises cache.old }
    requires none { replies.items ≡ [] }
    requires room { length commands.now ≤ vec_capacity replies }
    ensures run { RunsTo cache.old.atlas.frame cache.old.capacity commands.now result.items }
    ensures promises { RunKeepsPromisesThroughout cache.old.atlas.frame cache.old.capacity
        commands.now result.items }
{
    let mut replies = replies;
    for position in 0..commands.len() {
        let reply = answer(cache, commands[position]);
        replies.push(reply).unwrap();
    }
    replies
}
