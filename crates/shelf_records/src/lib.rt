//! The linked records of a shelf atlas: what they spell, the steps that change them, and what they are saved as. A step
//! of `store` may change several lists, and fields too.
//!
//! `chained` says which links of a record belong to which list, and `lists` edits a list, of any records: it changes
//! this list as a list, and nothing else. `records` has the records, `field_edits` edits a field by number, and `uses`
//! puts records to use; `store` has all records, and the steps that are made of these. `model_laws` has the laws of
//! their definitions. `fields` has what an atlas has beside them, `saving` and `snapshots` what is saved.
//!
//! Definitions: `Families` and `Chains` for lists, `AtlasRecords` for what records spell, `StandsFor` for the rules
//! that they keep, `Snapshots` for what is saved.
#![tactic(auto)]

mod chained;
mod field_edits;
pub mod fields;
mod lists;
mod model_laws;
mod records;
pub mod saving;
pub mod snapshots;
mod store;
mod uses;

pub use chained::{Chain, FreeList, Linked};
pub use lists::{next_of, previous_of};
pub use records::{LinkedItem, LinkedShelf};
pub use store::Records;
pub use uses::Rests;
