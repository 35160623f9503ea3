//! Saved atlases as JSON text, and what is needed to hold a snapshot of another kind against its JSON value.
#![tactic(auto)]

mod holding;
mod json_fields;
mod reading;
mod records;
mod saved;
mod snapshots;
mod writing;

pub use json_fields::{field, holds_number, holds_whole};
pub use reading::read_saved;
pub use records::Spelled;
pub use saved::{ReadFault, Saved};
pub use snapshots::{has_sides, holds_records};
pub use writing::write_saved;
