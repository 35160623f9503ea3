//! What calls change in the records of a shelf atlas: taking, returning, settling, growing and starting, each over the
//! frame, the linked records, the shelves by height and what is noted beside these.
//!
//! Definitions: `Kept` of `shelf_records` for the premise that all of them have.
#![tactic(auto)]

pub mod growing;
pub mod returning;
pub mod settling;
pub mod starting;
pub mod taking;
