//! Keys with what is allocated for them, in the order of use; and how many of them were used in the present frame.
//!
//! `keys` has the calls, and `stamps` what they do to the map below: each entry is stamped with the frame in which it
//! was last used.

mod keys;
mod stamps;

pub use keys::UsedKeys;
pub use stamps::Entry;
