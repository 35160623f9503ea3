//! What calls do to the records of a bucketed atlas: placing, making, taking, merging, returning, dropping, growing
//! and drawing, each over the records in one store.
//!
//! `store` has the records and the steps of which calls are made. For an allocation `placing` decides where it goes: by
//! `searching` of `bucket_index` in a bucket, on a new shelf, or by `merging` on idle ones. `returning` and `dropping`
//! are the steps of a return, `growing` those of a grow, `making` makes buckets for shelves that are added and for
//! grows, and `drawing` has the picture. `refusing` finds why a size does not fit, and `usage` how full an atlas is.
//!
//! Definitions: `Store` of `bucketed_records` for what is stored, `StoreEdits` for what steps do to it.
#![tactic(auto)]

pub mod drawing;
pub mod dropping;
pub mod growing;
pub mod making;
pub mod merging;
pub mod placing;
pub mod refusing;
pub mod returning;
pub mod store;
pub mod usage;
