//! Runs of commands on an atlas of either kind: each command gets its reply, by a ledger of what is live. No text is
//! read or written here.
//!
//! Definitions: `Runs` for any kind, `AtlasRuns` and `BucketedRuns` for each, `Live` for the ledger, `Leading` for where
//! runs end. `laws` has what holds of every run.

pub mod atlas_running;
pub mod bucketed_running;
pub mod laws;
pub mod leading;
pub mod ledger;
pub mod running;
pub mod table;
