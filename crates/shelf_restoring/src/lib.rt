//! Restoring the records of a shelf atlas from a snapshot: its links are followed, and then its rules are judged over
//! what was met.
//!
//! Definitions: `Restoring` of `shelf_records` for what walks have met, `RestoringSteps` for how many links are followed.
#![tactic(auto)]

pub mod chains;
pub mod free_lists;
pub mod judging;
mod link_bits;
pub mod loaded_atlas;
pub mod loading;
pub mod rules;
pub mod shelf_lists;
pub mod walked_lists;
pub mod walking;
