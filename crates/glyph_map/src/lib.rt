//! A cache of glyphs whose keys are of the caller's type, with a value of the caller's beside each key, which comes back
//! when the key goes.
//!
//! `map` has the public calls, over a `GlyphCache` that knows each key by a ticket: a number that no other key has.
//! `tickets` gives these out, `ticketed` has what is kept under a key and how it comes out, `saving` how keys and values
//! come under numbers again, `refusing` which keys a test refuses, and `listing` the iterator. `laws` states what
//! snapshots stand for, and `runs` what holds of one call after another.
#![tactic(auto)]

mod faults;
pub mod laws;
mod listing;
mod map;
mod refusing;
pub mod runs;
mod saving;
mod ticketed;
mod tickets;

pub use faults::{MapFault, MapRestoreFault, NotRestored, Refused};
pub use listing::Iter;
pub use map::{GlyphMap, Placed};
// A crate can name a map in a contract only if the types of its fields are exported.
#[doc(hidden)]
pub use ticketed::Ticketed;
