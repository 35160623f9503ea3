//! The records of a bucketed atlas: their fields, what they spell, and what they are saved as.
//!
//! Definitions: `BucketRecords` for what records spell, `StandsFor` for the rules that they keep, `Restoring` for what
//! is saved.
#![tactic(auto)]

pub mod record_laws;
pub mod records;
pub mod saving;
pub mod snapshots;
