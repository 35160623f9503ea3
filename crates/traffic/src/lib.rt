//! What an engineer asks of traffic that was recorded as a script: why commands were refused, how much was asked and
//! how full the atlas is, the snapshot that it leaves, and how it goes on from one.
//!
//! `refusals`, `stats`, `saving` and `resuming` have the public calls. All but `saving` go over the one loop of
//! `going_on`; `tallies` counts, `ledgers` begins a ledger, and `laws` says that a run may be cut anywhere.
#![tactic(auto)]

pub mod going_on;
pub mod laws;
pub mod ledgers;
pub mod refusals;
pub mod resuming;
pub mod saving;
pub mod stats;
pub mod tallies;
