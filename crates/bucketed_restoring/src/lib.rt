//! Judging a snapshot of a bucketed atlas: its lists are followed, and each rule is tested over what was met.
//!
//! Definitions: `Restoring` of `bucketed_records` for the rules by their faults, `RestoringSteps` for how many links
//! are read.
#![tactic(auto)]

pub mod judging;
pub mod restoring;
pub mod walking;
