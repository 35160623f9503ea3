//! Runs whose replies go out one by one: each reply's line is written before the next command runs. Nothing is gathered
//! here: for fewer writes hand in a writer that gathers, and flush it. No list of replies and no text is kept.
//!
//! Definition: `Streaming`, over `Runs` and `ReplyText`.

ghost use Rattle.std.specs.Prelude.{◌≡◌, ◌≢◌, Err, IfErr, OnErr, OnOk};
ghost use Rattle.std.specs.NonZero.{non_zero_usize_get};
ghost use Rattle.etagere_base.specs.Frames.{IsAccepted, atlas_frame, longest_side};
ghost use Rattle.run_scripts.specs.Faults.{RefusesStream};
ghost use Rattle.glyph_shelf.specs.Cache.{empty_cache};
ghost use Rattle.glyph_shelf.specs.Promises.{KeepsCachePromises};
ghost use Rattle.glyph_run.specs.Streaming.{StopsAt, Streams, StreamsRun};

use crate::answering::answer;
use crate::commands::GlyphCommand;
use crate::reply_text::send_line;
use etagere::{AllocatorOptions, Size};
use glyph_shelf::GlyphCache;
use run_scripts::faults::StreamFault;
use run_scripts::short_text::ShortText;
use std::alloc::Global;
use std::io::{self, Write};
use std::num::NonZeroUsize;

/// Runs the commands in order on a new cache of at most `capacity` keys, over an atlas of this size in pixels, and writes
/// a line for each reply.
///
/// Each command is answered, and its line written, before the next one runs: by a call of `write` for its words, one for
/// each key that was evicted, and one for the line feed, or by more where the writer takes less. The writer isn't
/// flushed. `Options` tells the first fault of the size and options, and that memory ran out for the cache only where
/// they have none; then nothing was written. `Memory` never comes. After `Write`, which comes where the writer failed or
/// accepted no byte, the lines before the one at which it failed were written, and a beginning of this one, not all of
/// it; no further command runs. Takes the memory that the cache takes.
pub fn stream_cache<W: Write>(
    alloc: Global,
    size: Size,
    options: &AllocatorOptions,
    capacity: NonZeroUsize,
    commands: &[GlyphCommand],
    writer: &mut W,
) -> Result<(), StreamFault>
    ensures written { Streams (atlas_frame size options.now) (non_zero_usize_get capacity) commands.now
        (W.contents writer.old) (W.contents writer.new) result }
    ensures accepted { OnOk result (IsAccepted longest_side size options.now) }
    ensures err { IfErr result (RefusesStream longest_side size options.now) }
    ensures never { result ≢ Err StreamFault.Memory }
{
    let mut cache = GlyphCache::new(alloc, size, options, capacity).map_err(StreamFault::Options)?;
    stream_all(&mut cache, commands, writer).map_err(|_| StreamFault::Write)
}

/// Writes the lines of the replies of a new cache to the commands, one after another. Where the writer fails, the cache
/// is as the command left it whose line was being written.
fn stream_all<W: Write>(
    cache: &mut GlyphCache,
    commands: &[GlyphCommand],
    writer: &mut W,
) -> io::Result<()>
    requires new { cache.old ≡ empty_cache cache.old.atlas.frame cache.old.capacity }
    requires promises { KeepsCachePromises cache.old }
    ensures whole { OnOk result (StreamsRun cache.old.atlas.frame cache.old.capacity commands.now cache.new
        (W.contents writer.old) (W.contents writer.new)) }
    ensures stopped { OnErr result (StopsAt cache.old.atlas.frame cache.old.capacity commands.now cache.new
        (W.contents writer.old) (W.contents writer.new)) }
{
    let mut line = ShortText::new();
    for position in 0..commands.len() {
        let reply = answer(cache, commands[position]);
        send_line(&reply, &mut line, writer)?;
    }
    Ok(())
}
