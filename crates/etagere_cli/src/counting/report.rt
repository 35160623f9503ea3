//! What is told of an atlas of either kind, after a script or of a snapshot.

use crate::counting::heights::{SameHeight, heights_of};
use crate::counting::snapshot::saved_of;
use etagere::{
    AtlasAllocator, AtlasSnapshot, BucketedAtlasAllocator, BucketedSnapshot, BucketedUsage,
    RestoreFault, Size, Usage,
};
use run_scripts::commands::{AtlasCommand, BucketedCommand};
use run_scripts::faults::RunFault;
use run_scripts::script::{Commands, Script};
use saved_json::Saved;
use std::alloc::Global;
use tool_answers::ending::Failure;
use traffic::stats::{atlas_stats, bucketed_stats};
use traffic::tallies::Tally;

/// What a run was asked, where one was made.
#[derive(Clone, Copy)]
pub struct Asked {
    pub tally: Tally,
    /// The areas that were asked for by what is live, in square pixels.
    pub space: u128,
}

/// Everything that is told.
#[derive(Drop)]
pub struct Report {
    pub asked: Option<Asked>,
    pub fullness: Fullness,
    pub heights: Vec<SameHeight>,
}

/// How full an atlas is.
#[derive(Clone, Copy)]
pub struct Fullness {
    /// Areas, in square pixels.
    pub allocated: i32,
    pub free: i32,
    pub items: u32,
    pub shelves: u32,
    pub idle_shelves: u32,
    /// Free items, or buckets with nothing live.
    pub idle_parts: u32,
    pub largest_free: Size,
    pub is_bucketed: bool,
}

/// What a script asks, and how full it leaves the atlas.
pub fn report_of_script(alloc: Global, script: &Script) -> Result<Report, Failure> {
    let heights = heights_of(alloc, &saved_of(alloc, script)?)?;
    let (asked, fullness) = match &script.commands {
        Commands::OfShelves(commands) => of_shelves(alloc, script, commands.as_slice())?,
        Commands::OfBuckets(commands) => of_buckets(alloc, script, commands.as_slice())?,
    };
    Ok(Report {
        asked: Some(asked),
        fullness,
        heights,
    })
}

/// How full the atlas is for which a snapshot stands.
pub fn report_of_saved(alloc: Global, saved: Saved) -> Result<Report, Failure> {
    let heights = heights_of(alloc, &saved)?;
    let fullness = match saved {
        Saved::Atlas(snapshot) => of_atlas(alloc, snapshot)?,
        Saved::Bucketed(snapshot) => of_bucketed_atlas(alloc, snapshot)?,
    };
    Ok(Report {
        asked: None,
        fullness,
        heights,
    })
}

// What these calls promise ends in functions that promise nothing, so that it isn't gone through in what uses them.

fn of_shelves(
    alloc: Global,
    script: &Script,
    commands: &[AtlasCommand],
) -> Result<(Asked, Fullness), RunFault> {
    let stats = atlas_stats(alloc, script.size, &script.options, commands)?;
    let asked = Asked {
        tally: stats.tally,
        space: stats.asked,
    };
    Ok((asked, of_usage(stats.allocated, stats.free, &stats.usage)))
}

fn of_buckets(
    alloc: Global,
    script: &Script,
    commands: &[BucketedCommand],
) -> Result<(Asked, Fullness), RunFault> {
    let stats = bucketed_stats(alloc, script.size, &script.options, commands)?;
    let asked = Asked {
        tally: stats.tally,
        space: stats.asked,
    };
    Ok((
        asked,
        of_bucketed_usage(stats.allocated, stats.free, &stats.usage),
    ))
}

fn of_atlas(alloc: Global, snapshot: AtlasSnapshot) -> Result<Fullness, RestoreFault> {
    let atlas = AtlasAllocator::restore(alloc, snapshot)?;
    Ok(of_usage(atlas.allocated_space(), atlas.free_space(), &atlas.usage()))
}

fn of_bucketed_atlas(alloc: Global, snapshot: BucketedSnapshot) -> Result<Fullness, RestoreFault> {
    let atlas = BucketedAtlasAllocator::restore(alloc, snapshot)?;
    Ok(of_bucketed_usage(atlas.allocated_space(), atlas.free_space(), &atlas.usage()))
}

fn of_usage(allocated: i32, free: i32, usage: &Usage) -> Fullness {
    Fullness {
        allocated,
        free,
        items: usage.items,
        shelves: usage.shelves,
        idle_shelves: usage.empty_shelves,
        idle_parts: usage.free_items,
        largest_free: usage.largest_free,
        is_bucketed: false,
    }
}

fn of_bucketed_usage(allocated: i32, free: i32, usage: &BucketedUsage) -> Fullness {
    Fullness {
        allocated,
        free,
        items: usage.items,
        shelves: usage.shelves,
        idle_shelves: usage.idle_shelves,
        idle_parts: usage.idle_buckets,
        largest_free: usage.largest_free,
        is_bucketed: true,
    }
}
