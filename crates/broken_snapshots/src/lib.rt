//! Which rule a snapshot breaks, in words, and the first record at which it does. What is found is for people: whether a
//! rule is broken is for restoring to say.
//!
//! `broken_records` has the public call for shelf atlases, `broken_buckets` that for bucketed ones.
#![tactic(auto)]

mod broken_buckets;
mod broken_records;
mod record_walks;
mod rules;
mod snapshots;

pub use broken_buckets::breach_of_buckets;
pub use broken_records::{Breach, breach_of};
pub use rules::{bucket_rule, shelf_rule};
pub use snapshots::Record;
