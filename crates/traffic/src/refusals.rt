//! Why commands of a script were refused.
//!
//! Definition: `Refusals`, over the reasons of each atlas.

ghost use Rattle.std.specs.Prelude.{IfErr, IfOk, OnOk};
ghost use Rattle.etagere_base.specs.Frames.{IsAccepted, atlas_frame, longest_side};
ghost use Rattle.bucketed_model.specs.Frames.{bucketed_frame, longest_bucketed_side};
ghost use Rattle.etagere_run.specs.Answers.AtlasRuns.{shelf_atlas};
ghost use Rattle.etagere_run.specs.Answers.BucketedRuns.{bucketed_atlas};
ghost use Rattle.etagere_run.specs.Answers.Runs.{RefusesRun};
ghost use Rattle.traffic.specs.Refusals.{IsExplainedBy, atlas_told, bucketed_told};

use crate::going_on::{Explaining, Finding, Reason, Refused, go_on_new};
use etagere::{AllocatorOptions, AtlasAllocator, BucketedAtlasAllocator, Size};
use etagere_run::answers::leading::had_memory;
use run_scripts::commands::{AtlasCommand, BucketedCommand, Reply};
use run_scripts::faults::RunFault;
use std::alloc::Global;

impl Explaining for AtlasAllocator {
    ghost told = { atlas_told };

    fn explain(&self, command: AtlasCommand, reply: &Reply) -> Option<Refused> {
        let (asked, reason) = match (command, reply) {
            (AtlasCommand::Allocate(size), Reply::Refused) => {
                (size, Reason::OfShelves(self.refusal(size)?))
            }
            (AtlasCommand::Grow(size), Reply::GrowRefused(number)) => {
                (size, Reason::OfGrow(*number))
            }
            _ => return None,
        };
        Some(Refused {
            asked,
            reason,
            largest_free: self.largest_free(),
        })
    }
}

impl Explaining for BucketedAtlasAllocator {
    ghost told = { bucketed_told };

    fn explain(&self, command: BucketedCommand, reply: &Reply) -> Option<Refused> {
        let (asked, reason) = match (command, reply) {
            (BucketedCommand::Allocate(size), Reply::Refused) => {
                (size, Reason::OfBuckets(self.refusal(size)?))
            }
            (BucketedCommand::Grow(size), Reply::GrowRefused(number)) => {
                (size, Reason::OfGrow(*number))
            }
            _ => return None,
        };
        Some(Refused {
            asked,
            reason,
            largest_free: self.largest_free(),
        })
    }
}

/// What is told of the commands that a new atlas of this size in pixels refuses, in order.
///
/// `Options` has the first fault of the size and options, or `OptionsFault::Memory` where these have none and there was
/// no memory for the atlas. `Memory` comes where there is none for the ledger, the replies, the findings, or for one of
/// the commands: what is told is of an atlas that answered every command. Takes memory for a slot in the ledger and a
/// reply for each command, beside what the atlas takes, and for the findings.
pub fn explain_atlas(
    alloc: Global,
    size: Size,
    options: &AllocatorOptions,
    commands: &[AtlasCommand],
) -> Result<Vec<Finding>, RunFault>
    ensures told { IfOk result (λ findings. IsExplainedBy shelf_atlas atlas_told
        (atlas_frame size options.now) commands.now findings.items) }
    ensures accepted { OnOk result (IsAccepted longest_side size options.now) }
    ensures err { IfErr result (RefusesRun longest_side size options.now) }
{
    explain::<AtlasAllocator>(alloc, size, options, commands)
}

/// What is told of the commands that a new bucketed atlas of this size in pixels refuses, in order. As `explain_atlas`.
pub fn explain_buckets(
    alloc: Global,
    size: Size,
    options: &AllocatorOptions,
    commands: &[BucketedCommand],
) -> Result<Vec<Finding>, RunFault>
    ensures told { IfOk result (λ findings. IsExplainedBy bucketed_atlas bucketed_told
        (bucketed_frame size options.now) commands.now findings.items) }
    ensures accepted { OnOk result (IsAccepted longest_bucketed_side size options.now) }
    ensures err { IfErr result (RefusesRun longest_bucketed_side size options.now) }
{
    explain::<BucketedAtlasAllocator>(alloc, size, options, commands)
}

/// What is told of the commands that a new atlas of either kind refuses, in order. As `explain_atlas`.
fn explain<A: Explaining>(
    alloc: Global,
    size: Size,
    options: &AllocatorOptions,
    commands: &[A::Command],
) -> Result<Vec<Finding>, RunFault>
    ensures told { IfOk result (λ findings. IsExplainedBy A.kind A.told (A.framed size options.now)
        commands.now findings.items) }
    ensures accepted { OnOk result (IsAccepted A.longest size options.now) }
    ensures err { IfErr result (RefusesRun A.longest size options.now) }
{
    let gone = go_on_new::<A>(alloc, size, options, commands)?;
    let answers = gone.answers;
    if !had_memory(answers.replies.as_slice()) {
        return Err(RunFault::Memory);
    }
    Ok(answers.findings)
}
