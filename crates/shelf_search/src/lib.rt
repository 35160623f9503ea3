//! What calls find out from the records of a shelf atlas: which place a size gets (`choosing`), why it gets none (`asking`),
//! what is allocated under an id (`looking`), how full the atlas is (`tallying`), and its picture (`drawing`). No record
//! changes; a search may lower bounds of the shelves by height.
//!
//! Definitions: `Kept` of `shelf_records` for the premise that all of them have.
#![tactic(auto)]

pub mod asking;
pub mod by_place;
pub mod choosing;
pub mod drawing;
mod free_items;
pub mod looking;
pub mod tallying;
