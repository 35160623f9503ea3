//! The model of a shelf atlas and its laws: shelves in order, each with its items in order. Nothing here is linked.
//!
//! Definitions: `State` first; `Choice`, `Taking`, `Returning`, `Growing` for what calls mean, `Refusal` and `Usage`
//! for what is asked of a state. Here are the laws, the faults, how full an atlas is, and what was found out of a place.
#![tactic(auto)]

pub mod faults;
pub mod model_laws;
pub mod placements;
pub mod usage;
