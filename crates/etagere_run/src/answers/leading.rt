//! The atlas to which commands lead, if memory was there for each.
//!
//! Definition: `Leading`, over `Runs`.

ghost use Rattle.std.specs.Prelude.{◌↔◌, All, IfErr, IfOk, IsTrue, OnOk};
ghost use Rattle.etagere_base.specs.Frames.{IsAccepted};
ghost use Rattle.etagere_run.specs.Answers.Leading.{HasMemory, LeadsTo};
ghost use Rattle.etagere_run.specs.Answers.Runs.{RefusesRun};

use crate::answers::running::{Beginning, run_new};
use etagere::{AllocatorOptions, Size};
use run_scripts::commands::Reply;
use run_scripts::faults::RunFault;
use std::alloc::Global;

/// A new atlas of this size in pixels that has answered the commands, one after another, if memory was there for each.
///
/// `Options` and `Memory` come as from `run_atlas`, and `Memory` too where there was none for a command.
pub fn atlas_after<A: Beginning>(
    alloc: Global,
    size: Size,
    options: &AllocatorOptions,
    commands: &[A::Command],
) -> Result<A, RunFault>
    ensures led { IfOk result (λ atlas.
        LeadsTo A.kind (A.framed size options.now) commands.now atlas) }
    ensures accepted { OnOk result (IsAccepted A.longest size options.now) }
    ensures err { IfErr result (RefusesRun A.longest size options.now) }
{
    let answered = run_new::<A>(alloc, size, options, commands)?;
    if !had_memory(answered.replies.as_slice()) {
        return Err(RunFault::Memory);
    }
    Ok(answered.atlas)
}

/// Whether memory was there for every command that has these replies.
pub fn had_memory(replies: &[Reply]) -> bool
    ensures same { IsTrue result ↔ All HasMemory replies.now }
    ensures all { IsTrue result → All HasMemory replies.now }
{
    replies.iter().all(|reply| has_memory(reply))
}

/// Whether memory was there for the command that has this reply.
fn has_memory(reply: &Reply) -> bool
    ensures { IsTrue result ↔ HasMemory reply.now }
{
    !matches!(reply, Reply::NoMemory)
}
