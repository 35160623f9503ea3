//! The model of a bucketed atlas and its laws: shelves in order, each with its buckets. Nothing here is linked.
//!
//! Definitions: `State` first; `Picking`, `Adding`, `Merging` and `Placing` for where a size goes, `Taking`,
//! `Returning` and `Growing` for what calls mean, `Refusal` and `Usage` for what an atlas tells of itself. Here are the
//! laws, the faults of a grow, why a size is refused, the frame, and the shelves that are added.
#![tactic(auto)]

pub mod adding;
pub mod bucketed_frames;
pub mod faults;
pub mod model_laws;
pub mod refusals;
pub mod usage;
