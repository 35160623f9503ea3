//! A law of runs, the contract of a function that does nothing: a run may be cut anywhere, and goes on from where its
//! first part leads. Public, but not meant for users.
//!
//! Definition: `Continuing`.

ghost use Rattle.etagere_run.specs.Answers.AtlasRuns.{shelf_atlas};
ghost use Rattle.etagere_run.specs.Answers.BucketedRuns.{bucketed_atlas};
ghost use Rattle.traffic.specs.Continuing.{IsCutAnywhere};

/// A run of some commands and then others is a run of the first, and then one of the others from the state to which it
/// leads, with the ledger and the positions that it leaves.
pub fn a_run_is_cut_anywhere()
    ensures shelves { IsCutAnywhere shelf_atlas }
    ensures buckets { IsCutAnywhere bucketed_atlas }
{}
