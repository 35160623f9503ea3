//! Draws a script or a snapshot; the first byte tells which. Reads all of it, judges it, runs or restores it, and only
//! then writes the picture of what is there.
//!
//! Definition: `Drawing`, over `Script`, `Runs` and `Saved`. What a picture shows is decided by each atlas.

ghost use Rattle.std.specs.Prelude.{◌≡◌, ℕ, List, Ok, Err, OnErr, OnOk};
ghost use Rattle.std.specs.Io.KnownBytes.{IsAtEnd};
ghost use Rattle.etagere_run.specs.Drawing.{Draws, is_snapshot};
ghost use Rattle.etagere_run.specs.Private.Drawn.{DrawsEnd, DrawsInput, DrawsSaved, DrawsScript, DrawsSnapshot};
ghost use Rattle.run_scripts.specs.Script.{script_of};

use crate::answers::leading::atlas_after;
use crate::saved::refusal;
use etagere::{AtlasAllocator, OptionsFault};
use etagere_bucketed::BucketedAtlasAllocator;
use run_scripts::faults::{Checked, Drawing, Outcome, ReplayFault, RunFault};
use run_scripts::reading::read_all;
use run_scripts::script::{Commands, Script, ScriptFault, read_script};
use saved_json::{ReadFault, Saved, read_saved};
use std::alloc::Global;
use std::io::{self, Read, Write};

/// Reads a whole script, runs it, and writes the SVG text of the atlas that it leaves, as `dump_svg`
/// does. An input that begins with `{` is read as a snapshot, as by `check`, and the atlas for which
/// it stands is drawn.
///
/// Where a line isn't good, the options have a fault, or the snapshot is unreadable or breaks a rule, the result says
/// so, and nothing is run or written. `Memory` comes where there was no memory, even for one command; only a snapshot
/// that finds none while its text is read is `Unreadable`. After `Read` and `Memory` nothing was written, after `Write`
/// a beginning of the text. The reader is at its end unless it failed or memory ran out. Takes memory for the input and
/// its commands or snapshot, and what `run_atlas`, `run_bucketed` or `restore` takes, and none for the text.
pub fn draw<R: Read, W: Write>(
    alloc: Global,
    reader: &mut R,
    writer: &mut W,
) -> Result<Drawing, ReplayFault>
    ensures drawn { Draws (R.remaining reader.old)
        (W.contents writer.old) (W.contents writer.new) result }
    ensures end { OnOk result (IsAtEnd (R.remaining reader.new)) }
    ensures end_at_write { result ≡ Err ReplayFault.Write → IsAtEnd (R.remaining reader.new) }
{
    let input = read_all(alloc, reader)?;
    draw_bytes(alloc, input.as_slice(), writer)
}

fn draw_bytes<W: Write>(alloc: Global, bytes: &[u8], writer: &mut W) -> Result<Drawing, ReplayFault>
    ensures { DrawsInput bytes.now (W.contents writer.old) (W.contents writer.new) result }
{
    if is_snapshot(bytes) {
        draw_snapshot(alloc, bytes, writer).map(Drawing::OfSnapshot)
    } else {
        draw_text(alloc, bytes, writer).map(Drawing::OfScript)
    }
}

/// Whether an input is read as a snapshot.
fn is_snapshot(bytes: &[u8]) -> bool
    ensures { result ≡ is_snapshot bytes.now }
{
    matches!(bytes, [b'{', ..])
}

fn draw_snapshot<W: Write>(
    alloc: Global,
    bytes: &[u8],
    writer: &mut W,
) -> Result<Checked, ReplayFault>
    ensures { DrawsSnapshot bytes.now (W.contents writer.old) (W.contents writer.new) result }
{
    match read_saved(alloc, bytes) {
        Ok(saved) => draw_saved(alloc, saved, writer),
        Err(ReadFault::Unreadable) => Ok(Checked::Unreadable),
        Err(ReadFault::Memory) => Err(ReplayFault::Memory),
    }
}

/// Restores an atlas of either kind, and draws it.
fn draw_saved<W: Write>(alloc: Global, saved: Saved, writer: &mut W) -> Result<Checked, ReplayFault>
    ensures { DrawsSaved saved (W.contents writer.old) (W.contents writer.new) result }
{
    match saved {
        Saved::Atlas(snapshot) => match AtlasAllocator::restore(alloc, snapshot) {
            Ok(atlas) => fine_if_sent(atlas.dump_svg(writer)),
            Err(fault) => refusal(fault),
        },
        Saved::Bucketed(snapshot) => match BucketedAtlasAllocator::restore(alloc, snapshot) {
            Ok(atlas) => fine_if_sent(atlas.dump_svg(writer)),
            Err(fault) => refusal(fault),
        },
    }
}

fn fine_if_sent(sent: io::Result<()>) -> Result<Checked, ReplayFault>
    ensures ok { OnOk sent (result ≡ Ok Checked.Fine) }
    ensures err { OnErr sent (result ≡ Err ReplayFault.Write) }
{
    match sent {
        Ok(()) => Ok(Checked::Fine),
        Err(_) => Err(ReplayFault::Write),
    }
}

fn draw_text<W: Write>(alloc: Global, bytes: &[u8], writer: &mut W) -> Result<Outcome, ReplayFault>
    ensures { DrawsScript bytes.now (W.contents writer.old) (W.contents writer.new) result }
{
    match read_script(alloc, bytes) {
        Ok(script) => draw_script(alloc, &script, writer),
        Err(ScriptFault::BadLine(number)) => Ok(Outcome::BadLine(number)),
        Err(ScriptFault::Memory) => Err(ReplayFault::Memory),
    }
}

fn draw_script<W: Write>(
    alloc: Global,
    script: &Script,
    writer: &mut W,
) -> Result<Outcome, ReplayFault>
    ensures { (input : List ℕ) → script_of input ≡ Ok script.now
        → DrawsScript input (W.contents writer.old) (W.contents writer.new) result }
{
    match draw_end(alloc, script, writer) {
        Ok(()) => Ok(Outcome::Done),
        Err(DrawFault::Write) => Err(ReplayFault::Write),
        Err(DrawFault::Run(RunFault::Options(OptionsFault::Memory) | RunFault::Memory)) => {
            Err(ReplayFault::Memory)
        }
        Err(DrawFault::Run(RunFault::Options(fault))) => Ok(Outcome::Options(fault.number())),
    }
}

/// Why the end of a run wasn't drawn.
#[derive(Clone, Copy, Debug)]
enum DrawFault {
    /// The run didn't start. Nothing was written.
    Run(RunFault),
    /// The writer failed. A beginning of the picture was written.
    Write,
}

impl From<RunFault> for DrawFault {
    ghost use Rattle.std.specs.Prelude.{◌≡◌};
    ghost use Rattle.etagere_run.specs.declared.drawing.DrawFault.TheVariants.{Run};

    ghost from_gives = { λ why fault. fault ≡ Run why };

    fn from(why: RunFault) -> DrawFault {
        DrawFault::Run(why)
    }
}

impl From<io::Error> for DrawFault {
    ghost use Rattle.std.specs.Prelude.{◌≡◌};
    ghost use Rattle.etagere_run.specs.declared.drawing.DrawFault.TheVariants.{Write};

    ghost from_gives = { λ _ fault. fault ≡ Write };

    fn from(_why: io::Error) -> DrawFault {
        DrawFault::Write
    }
}

/// Draws what a script leaves.
fn draw_end<W: Write>(alloc: Global, script: &Script, writer: &mut W) -> Result<(), DrawFault>
    ensures { DrawsEnd script.now (W.contents writer.old) (W.contents writer.new) result }
{
    let (size, options) = (script.size, &script.options);
    match &script.commands {
        Commands::OfShelves(commands) => {
            let atlas = atlas_after::<AtlasAllocator>(alloc, size, options, commands.as_slice())?;
            Ok(atlas.dump_svg(writer)?)
        }
        Commands::OfBuckets(commands) => {
            let atlas = atlas_after::<BucketedAtlasAllocator>(
                alloc,
                size,
                options,
                commands.as_slice(),
            )?;
            Ok(atlas.dump_svg(writer)?)
        }
    }
}
