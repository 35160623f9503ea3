//! Laws of runs, each the contract of a function that does nothing: what the calls promise of the run that they make
//! holds of every run that the model allows. Public, but not meant for users.
//!
//! Definitions: `Laws`, over `Runs`, `AtlasRuns` and `BucketedRuns`.

ghost use Rattle.etagere_base.specs.Frames.{IsAccepted, atlas_frame, longest_side};
ghost use Rattle.bucketed_model.specs.Frames.{bucketed_frame, longest_bucketed_side};
ghost use Rattle.bucketed_model.specs.Svg as buckets;
ghost use Rattle.shelf_model.specs.Svg as shelves;
ghost use Rattle.etagere_run.specs.Answers.AtlasRuns.{shelf_atlas};
ghost use Rattle.etagere_run.specs.Answers.BucketedRuns.{bucketed_atlas};
ghost use Rattle.etagere_run.specs.Answers.Laws.{DifferInIds, EveryEndKeepsPromises, EveryRunKeepsPromises};

use etagere::{AllocatorOptions, Size};

/// From a size and options without a fault every run of a new shelf atlas keeps its promises, whatever the commands,
/// and whichever of the replies that the model allows are given.
pub fn every_atlas_run_keeps_promises(size: Size, options: AllocatorOptions)
    requires { IsAccepted longest_side size options }
    ensures end { EveryEndKeepsPromises shelf_atlas (atlas_frame size options) }
    ensures throughout { EveryRunKeepsPromises shelf_atlas (atlas_frame size options) }
{}

/// From a size and options without a fault every run of a new bucketed atlas keeps its promises.
pub fn every_bucketed_run_keeps_promises(size: Size, options: AllocatorOptions)
    requires { IsAccepted longest_bucketed_side size options }
    ensures end { EveryEndKeepsPromises bucketed_atlas (bucketed_frame size options) }
    ensures throughout { EveryRunKeepsPromises bucketed_atlas (bucketed_frame size options) }
{}

/// From a size and options without a fault two runs of the same commands on a new shelf atlas, neither of which is
/// refused memory, have the same replies but for the numbers of ids, and end with the same picture.
pub fn two_atlas_runs_differ_in_ids(size: Size, options: AllocatorOptions)
    requires accepted { IsAccepted longest_side size options }
    ensures { DifferInIds shelf_atlas shelves.svg (atlas_frame size options) }
{}

/// From a size and options without a fault two runs of the same commands on a new bucketed atlas, neither of which is
/// refused memory, have the same replies but for the numbers of ids, and end with the same picture.
pub fn two_bucketed_runs_differ_in_ids(size: Size, options: AllocatorOptions)
    requires accepted { IsAccepted longest_bucketed_side size options }
    ensures { DifferInIds bucketed_atlas buckets.svg (bucketed_frame size options) }
{}
