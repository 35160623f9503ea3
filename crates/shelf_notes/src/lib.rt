//! What is noted beside the list of the shelves by height, so that the list need not follow each change at once. What holds
//! of both stands in `shelf_store`, where the list follows.
//!
//! Definitions: `Pending` and `SecondWidths`.
#![tactic(auto)]

pub mod pending;
pub mod second_widths;
