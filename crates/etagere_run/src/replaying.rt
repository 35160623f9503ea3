//! Replays a script: reads all of it, and then runs it, writing each reply's line before the next command runs.
//!
//! Definition: `Replaying`, over `Script`, `AtlasRuns`, `BucketedRuns` and `ReplyText`. What is written is decided
//! there.

ghost use Rattle.std.specs.Prelude.{◌≡◌, ℕ, List, Some, Ok, Err, IfErr, IfOk, OnOk, string_bytes};
ghost use Rattle.std.specs.Io.KnownBytes.{IsAtEnd};
ghost use Rattle.etagere_base.specs.Frames.{IsAccepted};
ghost use Rattle.etagere_run.specs.Replaying.{Answers, HasFault, Replays, longest_asked};
ghost use Rattle.run_scripts.specs.ReplyText.{bad_line_text, options_text};
ghost use Rattle.run_scripts.specs.Script.{script_of};
ghost use Rattle.run_scripts.specs.Faults.{RefusesStream};
ghost use Rattle.etagere_run.specs.Private.ScriptStreaming.{StreamsScript};

use crate::streaming::{stream_atlas, stream_bucketed};
use etagere::OptionsFault;
use pictures::send;
use run_scripts::faults::{Outcome, ReplayFault, StreamFault};
use run_scripts::reading::read_all;
use run_scripts::script::{Commands, Script, ScriptFault, read_script};
use std::alloc::Global;
use std::io::{Read, Write};

/// Reads a whole script, runs it and writes its replies, a line for each command.
///
/// Where a line isn't good, `line N: bad` is written and nothing runs, and where the options have a
/// fault, `options N`. After `Read` and `Memory` nothing was written, after `Write` a beginning of
/// the text. The reader is at its end unless it failed or memory ran out. Takes memory for the
/// script and its commands, and once the script is given back what `stream_atlas` or `stream_bucketed`
/// takes.
pub fn replay<R: Read, W: Write>(
    alloc: Global,
    reader: &mut R,
    writer: &mut W,
) -> Result<Outcome, ReplayFault>
    ensures written { Replays (R.remaining reader.old)
        (W.contents writer.old) (W.contents writer.new) result }
    ensures end { OnOk result (IsAtEnd (R.remaining reader.new)) }
    ensures end_at_write { result ≡ Err ReplayFault.Write → IsAtEnd (R.remaining reader.new) }
{
    let input = read_all(alloc, reader)?;
    answer(alloc, input, writer)
}

/// Reads the commands of a script, and writes what answers it. The text is given back before a command runs.
fn answer<W: Write>(alloc: Global, input: Vec<u8>, writer: &mut W) -> Result<Outcome, ReplayFault>
    ensures { Replays (Some input.items) (W.contents writer.old) (W.contents writer.new) result }
{
    let read = read_script(alloc, input.as_slice());
    drop(input);
    match read {
        Ok(script) => run_script(alloc, &script, writer),
        Err(ScriptFault::BadLine(number)) => bad_line(alloc, number, writer),
        Err(ScriptFault::Memory) => Err(ReplayFault::Memory),
    }
}

fn run_script<W: Write>(
    alloc: Global,
    script: &Script,
    writer: &mut W,
) -> Result<Outcome, ReplayFault>
    ensures { (input : List ℕ) → script_of input ≡ Ok script.now
        → Replays (Some input) (W.contents writer.old) (W.contents writer.new) result }
{
    match stream_script(alloc, script, writer) {
        Ok(()) => Ok(Outcome::Done),
        Err(StreamFault::Options(OptionsFault::Memory) | StreamFault::Memory) => {
            Err(ReplayFault::Memory)
        }
        Err(StreamFault::Options(fault)) => bad_options(alloc, fault.number(), writer),
        Err(StreamFault::Write) => Err(ReplayFault::Write),
    }
}

/// Writes the replies of a new atlas to the commands of a script.
fn stream_script<W: Write>(
    alloc: Global,
    script: &Script,
    writer: &mut W,
) -> Result<(), StreamFault>
    ensures written { StreamsScript script.now.size script.now.options script.now.commands
        (W.contents writer.old) (W.contents writer.new) result }
    ensures accepted { OnOk result
        (IsAccepted (longest_asked script.now.commands) script.now.size script.now.options) }
    ensures err { IfErr result
        (RefusesStream (longest_asked script.now.commands) script.now.size script.now.options) }
{
    let (size, options) = (script.size, &script.options);
    match &script.commands {
        Commands::OfShelves(commands) => {
            stream_atlas(alloc, size, options, commands.as_slice(), writer)
        }
        Commands::OfBuckets(commands) => {
            stream_bucketed(alloc, size, options, commands.as_slice(), writer)
        }
    }
}

fn bad_line<W: Write>(alloc: Global, number: u64, writer: &mut W) -> Result<Outcome, ReplayFault>
    ensures { (input : List ℕ) → script_of input ≡ Err number
        → Replays (Some input) (W.contents writer.old) (W.contents writer.new) result }
{
    let text = text_of_bad_line(alloc, number)?;
    write_line(Outcome::BadLine(number), text.as_str(), writer)
}

fn text_of_bad_line(alloc: Global, number: u64) -> Result<String, ReplayFault>
    ensures text { IfOk result (λ text. string_bytes text ≡ bad_line_text number) }
    ensures fault { IfErr result (λ fault. fault ≡ ReplayFault.Memory) }
{
    let outcome = Outcome::BadLine(number);
    let text = format!(in alloc; "{outcome}\n").map_err(|_| ReplayFault::Memory)?;
    Ok(text)
}

fn bad_options<W: Write>(alloc: Global, number: u32, writer: &mut W) -> Result<Outcome, ReplayFault>
    ensures { (input : List ℕ) → HasFault input number (options_text number)
        → Replays (Some input) (W.contents writer.old) (W.contents writer.new) result }
{
    let outcome = Outcome::Options(number);
    let text = format!(in alloc; "{outcome}\n").map_err(|_| ReplayFault::Memory)?;
    write_line(outcome, text.as_str(), writer)
}

/// Writes the only line of an outcome.
fn write_line<W: Write>(
    outcome: Outcome,
    line: &str,
    writer: &mut W,
) -> Result<Outcome, ReplayFault>
    ensures { (input : List ℕ) → Answers input outcome line.now
        → Replays (Some input) (W.contents writer.old) (W.contents writer.new) result }
{
    match send(line.as_bytes(), writer) {
        Ok(()) => Ok(outcome),
        Err(_) => Err(ReplayFault::Write),
    }
}
