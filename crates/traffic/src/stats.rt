//! How much a script asks of an atlas, and how full it leaves it.
//!
//! Definition: `Stats`, over `Tallies` and how full each atlas says that it is.

ghost use Rattle.std.specs.Prelude.{IfErr, IfOk, OnOk};
ghost use Rattle.etagere_base.specs.Frames.{IsAccepted, atlas_frame, longest_side};
ghost use Rattle.bucketed_model.specs.Frames.{bucketed_frame, longest_bucketed_side};
ghost use Rattle.etagere_run.specs.Answers.Runs.{RefusesRun};
ghost use Rattle.traffic.specs.Stats.{AreAtlasStats, AreBucketedStats};

use crate::going_on::go_on_new;
use crate::tallies::{Tally, asked_space, tally_of};
use etagere::{
    AllocatorOptions, AtlasAllocator, BucketedAtlasAllocator, BucketedUsage, Size, Usage,
};
use run_scripts::commands::{AtlasCommand, BucketedCommand};
use run_scripts::faults::RunFault;
use std::alloc::Global;

/// What a run on a shelf atlas was asked, and how full it left the atlas.
#[derive(Clone, Copy, Debug, PartialEq, Eq)]
pub struct AtlasStats {
    pub tally: Tally,
    /// The areas that were asked for by what is live, in square pixels.
    pub asked: u128,
    /// The areas of the items that hold it, in square pixels.
    pub allocated: i32,
    /// The area that is left, in square pixels.
    pub free: i32,
    pub usage: Usage,
}

/// What a run on a bucketed atlas was asked, and how full it left the atlas.
#[derive(Clone, Copy, Debug, PartialEq, Eq)]
pub struct BucketedStats {
    pub tally: Tally,
    /// The areas that were asked for by what is live, in square pixels.
    pub asked: u128,
    /// The areas that buckets have used, in square pixels: what was given back too, until the bucket is empty.
    pub allocated: i32,
    /// The area that is left, in square pixels.
    pub free: i32,
    pub usage: BucketedUsage,
}

/// What the commands ask of a new atlas of this size in pixels, and how full they leave it.
///
/// `Options` has the first fault of the size and options, or `OptionsFault::Memory` where these have none and there was
/// no memory for the atlas. `Memory` comes where there is none for the ledger, the replies or what is told of refused
/// commands. Takes memory for these, beside what the atlas takes.
pub fn atlas_stats(
    alloc: Global,
    size: Size,
    options: &AllocatorOptions,
    commands: &[AtlasCommand],
) -> Result<AtlasStats, RunFault>
    ensures stats { IfOk result (AreAtlasStats (atlas_frame size options.now) commands.now) }
    ensures accepted { OnOk result (IsAccepted longest_side size options.now) }
    ensures err { IfErr result (RefusesRun longest_side size options.now) }
{
    let gone = go_on_new::<AtlasAllocator>(alloc, size, options, commands)?;
    Ok(AtlasStats {
        tally: tally_of(commands, gone.answers.replies.as_slice()),
        asked: asked_space(&gone.ledger, commands),
        allocated: gone.atlas.allocated_space(),
        free: gone.atlas.free_space(),
        usage: gone.atlas.usage(),
    })
}

/// What the commands ask of a new bucketed atlas of this size in pixels, and how full they leave it. As `atlas_stats`.
pub fn bucketed_stats(
    alloc: Global,
    size: Size,
    options: &AllocatorOptions,
    commands: &[BucketedCommand],
) -> Result<BucketedStats, RunFault>
    ensures stats { IfOk result (AreBucketedStats (bucketed_frame size options.now) commands.now) }
    ensures accepted { OnOk result (IsAccepted longest_bucketed_side size options.now) }
    ensures err { IfErr result (RefusesRun longest_bucketed_side size options.now) }
{
    let gone = go_on_new::<BucketedAtlasAllocator>(alloc, size, options, commands)?;
    Ok(BucketedStats {
        tally: tally_of(commands, gone.answers.replies.as_slice()),
        asked: asked_space(&gone.ledger, commands),
        allocated: gone.atlas.allocated_space(),
        free: gone.atlas.free_space(),
        usage: gone.atlas.usage(),
    })
}
