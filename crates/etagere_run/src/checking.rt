//! Checks a saved atlas: reads all of the input, restores what it says, and only then writes a line.
//!
//! Definitions: `Checking` for what is written, `Saved` for what an answer says.

ghost use Rattle.std.specs.Prelude.{◌≡◌, IfErr, IfOk, OnOk};
ghost use Rattle.std.specs.Io.KnownBytes.{IsAtEnd};
ghost use Rattle.etagere_run.specs.Checking.{Checks};
ghost use Rattle.etagere_run.specs.Saved.{IsRightOf, MayAnswer};

use crate::saved::refusal;
use etagere::{AtlasAllocator, BucketedAtlasAllocator};
use pictures::send;
use run_scripts::faults::{Checked, ReplayFault};
use run_scripts::reading::read_all;
use saved_json::{ReadFault, Saved, read_saved};
use std::alloc::Global;
use std::io::{Read, Write};

/// Reads the JSON text of one snapshot, restores it, and writes one line: `ok`, `broken N` with the
/// number of a rule that is broken, from 1 to 10, or `unreadable`.
///
/// The text is an object with one key, `atlas` or `bucketed`, whose value is the `AtlasSnapshot` or `BucketedSnapshot`
/// that is checked. `Unreadable` is an input that is no such text, one that isn't UTF-8, and one for whose snapshot
/// there was no memory; elsewhere refused memory is `Memory`. After `Read` and `Memory` nothing was written, after
/// `Write` a beginning of the line. The reader is at its end unless it failed or memory ran out. Takes memory for the
/// input, its snapshot, what `restore` takes, and the line, and time linear in the bytes and records.
pub fn check<R: Read, W: Write>(
    alloc: Global,
    reader: &mut R,
    writer: &mut W,
) -> Result<Checked, ReplayFault>
    ensures checked { Checks (R.remaining reader.old)
        (W.contents writer.old) (W.contents writer.new) result }
    ensures end { OnOk result (IsAtEnd (R.remaining reader.new)) }
    ensures end_at_write { result ≡ Err ReplayFault.Write → IsAtEnd (R.remaining reader.new) }
{
    let input = read_all(alloc, reader)?;
    let checked = judge(alloc, input.as_slice())?;
    let line = format!(in alloc; "{checked}\n").map_err(|_| ReplayFault::Memory)?;
    send(line.as_bytes(), writer).map_err(|_| ReplayFault::Write)?;
    Ok(checked)
}

fn judge(alloc: Global, bytes: &[u8]) -> Result<Checked, ReplayFault>
    ensures answer { IfOk result (λ checked. MayAnswer checked bytes.now) }
    ensures fault { IfErr result (λ fault. fault ≡ ReplayFault.Memory) }
{
    match read_saved(alloc, bytes) {
        Ok(saved) => judge_saved(alloc, saved),
        Err(ReadFault::Unreadable) => Ok(Checked::Unreadable),
        Err(ReadFault::Memory) => Err(ReplayFault::Memory),
    }
}

/// Restores an atlas of either kind, and lets it go.
fn judge_saved(alloc: Global, saved: Saved) -> Result<Checked, ReplayFault>
    ensures answer { IfOk result (λ checked. IsRightOf checked saved) }
    ensures fault { IfErr result (λ fault. fault ≡ ReplayFault.Memory) }
{
    match saved {
        Saved::Atlas(snapshot) => match AtlasAllocator::restore(alloc, snapshot) {
            Ok(_) => Ok(Checked::Fine),
            Err(fault) => refusal(fault),
        },
        Saved::Bucketed(snapshot) => match BucketedAtlasAllocator::restore(alloc, snapshot) {
            Ok(_) => Ok(Checked::Fine),
            Err(fault) => refusal(fault),
        },
    }
}
