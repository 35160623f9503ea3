//! Replays a script: reads all of it, and then runs it, writing each reply's line before the next command runs.
//!
//! Definition: `Replaying`, over `Script`, `Runs` and `ReplyText`. What is written, and where, is settled there.

ghost use Rattle.std.specs.Prelude.{◌≡◌, ◌++◌, ◌∷◌, [], ℕ, List, Some, Ok, Err, IfErr, IfOk, OnOk, string_bytes};
ghost use Rattle.std.specs.Io.KnownBytes.{IsAtEnd};
ghost use Rattle.etagere_base.specs.Frames.{IsAccepted, atlas_frame, longest_side};
ghost use Rattle.run_scripts.specs.Faults.{outcome_words};
ghost use Rattle.run_scripts.specs.Lines.{line_feed};
ghost use Rattle.run_scripts.specs.Faults.{RefusesStream};
ghost use Rattle.glyph_run.specs.Replaying.{Answers, Replays};
ghost use Rattle.glyph_run.specs.Script.{script_of};
ghost use Rattle.glyph_run.specs.Streaming.{Streams};

use crate::script::{Script, read_script};
use crate::streaming::stream_cache;
use etagere::OptionsFault;
use pictures::send;
use run_scripts::faults::{Outcome, ReplayFault, StreamFault};
use run_scripts::reading::read_all;
use run_scripts::script::ScriptFault;
use std::alloc::Global;
use std::io::{Read, Write};

/// Reads a whole script, runs it on a new cache and writes its replies, a line for each command.
///
/// Where a line isn't good, `line N: bad` is written and nothing runs, and where the options have a fault, `options N`.
/// After `Read` and `Memory` nothing was written, after `Write` a beginning of the text. The reader is at its end unless
/// it failed or memory ran out. Takes memory for the script, its commands, and what `stream_cache` takes.
pub fn replay_cache<R: Read, W: Write>(
    alloc: Global,
    reader: &mut R,
    writer: &mut W,
) -> Result<Outcome, ReplayFault>
    ensures written { Replays (R.remaining reader.old)
        (W.contents writer.old) (W.contents writer.new) result }
    ensures end { OnOk result (IsAtEnd (R.remaining reader.new)) }
    ensures end_at_write { result ≡ Err ReplayFault.Write → IsAtEnd (R.remaining reader.new) }
{
    let input = read_all(alloc, reader)?;
    answer(alloc, input.as_slice(), writer)
}

/// Reads the commands of a script, and writes what answers it.
fn answer<W: Write>(alloc: Global, bytes: &[u8], writer: &mut W) -> Result<Outcome, ReplayFault>
    ensures { Replays (Some bytes.now) (W.contents writer.old) (W.contents writer.new) result }
{
    match read_script(alloc, bytes) {
        Ok(script) => run_script(alloc, &script, writer),
        Err(ScriptFault::BadLine(number)) => write_outcome(alloc, Outcome::BadLine(number), writer),
        Err(ScriptFault::Memory) => Err(ReplayFault::Memory),
    }
}

fn run_script<W: Write>(
    alloc: Global,
    script: &Script,
    writer: &mut W,
) -> Result<Outcome, ReplayFault>
    ensures { (input : List ℕ) → script_of input ≡ Ok script.now
        → Replays (Some input) (W.contents writer.old) (W.contents writer.new) result }
{
    match stream_script(alloc, script, writer) {
        Ok(()) => Ok(Outcome::Done),
        Err(StreamFault::Options(OptionsFault::Memory) | StreamFault::Memory) => {
            Err(ReplayFault::Memory)
        }
        Err(StreamFault::Options(fault)) => {
            write_outcome(alloc, Outcome::Options(fault.number()), writer)
        }
        Err(StreamFault::Write) => Err(ReplayFault::Write),
    }
}

/// Writes the replies of a new cache to the commands of a script.
fn stream_script<W: Write>(
    alloc: Global,
    script: &Script,
    writer: &mut W,
) -> Result<(), StreamFault>
    ensures written { Streams (atlas_frame script.now.setup.size script.now.setup.options)
        script.now.setup.capacity script.now.commands (W.contents writer.old) (W.contents writer.new) result }
    ensures accepted { OnOk result
        (IsAccepted longest_side script.now.setup.size script.now.setup.options) }
    ensures err { IfErr result
        (RefusesStream longest_side script.now.setup.size script.now.setup.options) }
{
    let (header, commands) = (&script.header, script.commands.as_slice());
    stream_cache(
        alloc,
        header.size,
        &header.options,
        header.capacity,
        commands,
        writer,
    )
}

/// Writes the only line of an outcome.
fn write_outcome<W: Write>(
    alloc: Global,
    outcome: Outcome,
    writer: &mut W,
) -> Result<Outcome, ReplayFault>
    ensures { (input : List ℕ) → Answers input outcome (outcome_words outcome ++ line_feed ∷ [])
        → Replays (Some input) (W.contents writer.old) (W.contents writer.new) result }
{
    let text = text_of(alloc, outcome)?;
    match send(text.as_bytes(), writer) {
        Ok(()) => Ok(outcome),
        Err(_) => Err(ReplayFault::Write),
    }
}

fn text_of(alloc: Global, outcome: Outcome) -> Result<String, ReplayFault>
    ensures text { IfOk result (λ text. string_bytes text ≡ outcome_words outcome ++ line_feed ∷ []) }
    ensures fault { IfErr result (λ fault. fault ≡ ReplayFault.Memory) }
{
    let text = format!(in alloc; "{outcome}\n").map_err(|_| ReplayFault::Memory)?;
    Ok(text)
}
