//! Runs whose replies go out one by one: each reply's line is made and written before the next command runs, by one
//! call of `write` where the writer takes all of it. Nothing is gathered here: for fewer writes hand in a writer that
//! gathers, and flush it. No list of replies and no text is kept.
//!
//! Definition: `Streaming`, over `Runs` and `ReplyText`. A kind of run that is to be streamed gets a call like these
//! two.

ghost use Rattle.std.specs.Prelude.{◌≡◌, ℕ, List, Err, length, IfErr, OnErr, OnOk};
ghost use Rattle.std.specs.Io.KnownBytes.{Appends};
ghost use Rattle.etagere_base.specs.Frames.{IsAccepted, atlas_frame, longest_side};
ghost use Rattle.bucketed_model.specs.Frames.{bucketed_frame, longest_bucketed_side};
ghost use Rattle.etagere_run.specs.Answers.AtlasRuns.{shelf_atlas};
ghost use Rattle.etagere_run.specs.Answers.BucketedRuns.{bucketed_atlas};
ghost use Rattle.etagere_run.specs.Streaming.{IsTextOfRun, Stops, StopsAt, Streams, StreamsBeginning};
ghost use Rattle.run_scripts.specs.Faults.{RefusesStream};
ghost use Rattle.etagere_run.specs.Answers.Private.Rooms.{IsEmptyLedger};
ghost use Rattle.etagere_run.specs.Answers.Private.Tied.{IsNew, SuitsRuns};

use crate::answers::ledger::Ledger;
use crate::answers::running::{Answering, Beginning, answer_next};
use etagere::{AllocatorOptions, AtlasAllocator, Size};
use etagere_bucketed::BucketedAtlasAllocator;
use run_scripts::commands::{AtlasCommand, BucketedCommand};
use run_scripts::faults::StreamFault;
use run_scripts::reply_text::line_of;
use run_scripts::sending::send_line;
use run_scripts::short_text::ShortText;
use std::alloc::Global;
use std::io::{ErrorKind, Write};

/// Runs the commands in order on a new atlas of this size in pixels, and writes a line for each reply.
///
/// Each command is answered, and its line written, before the next one runs: by one call of `write`, or by more where
/// the writer takes less. The writer isn't flushed. `Options` has the first fault of the size and options, or
/// `OptionsFault::Memory` where these have none and there was no memory for the atlas. `Memory` comes where there is
/// none for the ledger; room for that is taken first. After both nothing was written. After `Write`, which comes where
/// the writer failed or accepted no byte, the lines before the one at which it failed were written, and a beginning of
/// this one, not all of it; no further command runs. Takes memory for a slot in the ledger for each command, beside
/// what the atlas takes.
pub fn stream_atlas<W: Write>(
    alloc: Global,
    size: Size,
    options: &AllocatorOptions,
    commands: &[AtlasCommand],
    writer: &mut W,
) -> Result<(), StreamFault>
    ensures written { Streams shelf_atlas (atlas_frame size options.now) commands.now
        (W.contents writer.old) (W.contents writer.new) result }
    ensures stopped { result ≡ Err StreamFault.Write → Stops shelf_atlas (atlas_frame size options.now)
        commands.now (W.contents writer.old) (W.contents writer.new) }
    ensures accepted { OnOk result (IsAccepted longest_side size options.now) }
    ensures err { IfErr result (RefusesStream longest_side size options.now) }
{
    stream_on_new::<AtlasAllocator, W>(alloc, size, options, commands, writer)
}

/// Runs the commands in order on a new bucketed atlas of this size in pixels, and writes a line for each reply.
///
/// As `stream_atlas` does. A position that was returned is answered by `NotLive`, without a call of the atlas.
pub fn stream_bucketed<W: Write>(
    alloc: Global,
    size: Size,
    options: &AllocatorOptions,
    commands: &[BucketedCommand],
    writer: &mut W,
) -> Result<(), StreamFault>
    ensures written { Streams bucketed_atlas (bucketed_frame size options.now) commands.now
        (W.contents writer.old) (W.contents writer.new) result }
    ensures stopped { result ≡ Err StreamFault.Write → Stops bucketed_atlas (bucketed_frame size options.now)
        commands.now (W.contents writer.old) (W.contents writer.new) }
    ensures accepted { OnOk result (IsAccepted longest_bucketed_side size options.now) }
    ensures err { IfErr result (RefusesStream longest_bucketed_side size options.now) }
{
    stream_on_new::<BucketedAtlasAllocator, W>(alloc, size, options, commands, writer)
}

/// Writes the lines of the replies of a new atlas to the commands. `stream_atlas` says which faults come, what was
/// written then, and what memory is taken.
fn stream_on_new<A: Beginning, W: Write>(
    alloc: Global,
    size: Size,
    options: &AllocatorOptions,
    commands: &[A::Command],
    writer: &mut W,
) -> Result<(), StreamFault>
    ensures written { Streams A.kind (A.framed size options.now) commands.now
        (W.contents writer.old) (W.contents writer.new) result }
    ensures stopped { result ≡ Err StreamFault.Write → Stops A.kind (A.framed size options.now)
        commands.now (W.contents writer.old) (W.contents writer.new) }
    ensures accepted { OnOk result (IsAccepted A.longest size options.now) }
    ensures err { IfErr result (RefusesStream A.longest size options.now) }
{
    let ledger = Ledger::with_capacity(alloc, commands.len()).map_err(|_| StreamFault::Memory)?;
    let mut atlas = A::begin(alloc, size, options).map_err(StreamFault::Options)?;
    stream_all(&mut atlas, ledger, commands, writer).map_err(|_| StreamFault::Write)
}

/// Writes the lines of the replies of an atlas to the commands, one after another. Where the writer fails, the atlas is
/// as the command left it whose line was being written. Always inlined: where the atlas is the caller's own, no command goes
/// through a reference to it then.
#[inline(always)]
pub fn stream_all<A: Answering, W: Write>(
    atlas: &mut A,
    ledger: Ledger,
    commands: &[A::Command],
    writer: &mut W,
) -> Result<(), ErrorKind>
    requires suits { SuitsRuns A.kind A.Tied }
    requires new { IsNew A.kind A.Tied atlas.old }
    requires room { IsEmptyLedger (length commands.now) ledger }
    ensures whole { OnOk result ((text : List ℕ)
        × IsTextOfRun A.kind (A.kind.frame atlas.old) commands.now atlas.new text
        × Appends (W.contents writer.old) (W.contents writer.new) text) }
    ensures beginning { OnErr result (StreamsBeginning A.kind (A.kind.frame atlas.old)
        commands.now (W.contents writer.old) (W.contents writer.new)) }
    ensures stopped { OnErr result (StopsAt A.kind (A.kind.frame atlas.old)
        commands.now atlas.new (W.contents writer.old) (W.contents writer.new)) }
{
    let mut ledger = ledger;
    let mut line = ShortText::new();
    for position in 0..commands.len() {
        let reply = answer_next(atlas, &mut ledger, commands[position]);
        send_line(line_of(&reply, &mut line), writer)?;
    }
    Ok(())
}
