//! The snapshot of the atlas that a script leaves.
//!
//! Definition: `Saving`, over `Leading` and the rules of snapshots.

ghost use Rattle.std.specs.Prelude.{IfErr, IfOk, OnOk};
ghost use Rattle.etagere_base.specs.Frames.{IsAccepted, atlas_frame, longest_side};
ghost use Rattle.bucketed_model.specs.Frames.{bucketed_frame, longest_bucketed_side};
ghost use Rattle.etagere_run.specs.Answers.Runs.{RefusesRun};
ghost use Rattle.traffic.specs.Saving.{SavesAtlas, SavesBuckets};

use etagere::{
    AllocatorOptions, AtlasAllocator, AtlasSnapshot, BucketedAtlasAllocator, BucketedSnapshot, Size,
};
use etagere_run::answers::leading::atlas_after;
use run_scripts::commands::{AtlasCommand, BucketedCommand};
use run_scripts::faults::RunFault;
use std::alloc::Global;

/// The snapshot of the atlas that the commands leave, run in order on a new one of this size in pixels.
///
/// `Options` has the first fault of the size and options, or `OptionsFault::Memory` where these have none and there was
/// no memory for the atlas. `Memory` comes where there is none for the run, for one of its commands, or for the
/// snapshot: what is saved is an atlas that answered every command.
pub fn save_atlas(
    alloc: Global,
    size: Size,
    options: &AllocatorOptions,
    commands: &[AtlasCommand],
) -> Result<AtlasSnapshot, RunFault>
    ensures saved { IfOk result (SavesAtlas (atlas_frame size options.now) commands.now) }
    ensures accepted { OnOk result (IsAccepted longest_side size options.now) }
    ensures err { IfErr result (RefusesRun longest_side size options.now) }
{
    let atlas = atlas_after::<AtlasAllocator>(alloc, size, options, commands)?;
    let Ok(snapshot) = atlas.snapshot() else {
        return Err(RunFault::Memory);
    };
    Ok(snapshot)
}

/// The snapshot of the bucketed atlas that the commands leave. As `save_atlas`.
pub fn save_buckets(
    alloc: Global,
    size: Size,
    options: &AllocatorOptions,
    commands: &[BucketedCommand],
) -> Result<BucketedSnapshot, RunFault>
    ensures saved { IfOk result (SavesBuckets (bucketed_frame size options.now) commands.now) }
    ensures accepted { OnOk result (IsAccepted longest_bucketed_side size options.now) }
    ensures err { IfErr result (RefusesRun longest_bucketed_side size options.now) }
{
    let atlas = atlas_after::<BucketedAtlasAllocator>(alloc, size, options, commands)?;
    let Ok(snapshot) = atlas.snapshot() else {
        return Err(RunFault::Memory);
    };
    Ok(snapshot)
}
