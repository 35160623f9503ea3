//! The bucketed atlas: shelves of buckets that are filled from the front and emptied as a whole.
//!
//! The calls stand in `atlas`, and those that the laws of restoring are stated of in `laws`; `restored` makes an atlas
//! from a snapshot. The layers below are crates of their own, not meant for users: `bucketed_model` has the model and
//! its laws, `bucketed_records` what records spell and are saved as, `bucketed_store` what calls do to records, and
//! `bucketed_restoring` how a snapshot is judged.
#![tactic(auto)]

mod atlas;
pub mod laws;
mod restored;

pub use atlas::BucketedAtlasAllocator;
pub use bucketed_model::faults::GrowFault;
pub use bucketed_model::refusals::BucketedRefusal;
pub use bucketed_model::usage::BucketedUsage;
pub use snapshot_records::buckets::{BucketRecord, BucketShelfRecord, BucketedSnapshot};
