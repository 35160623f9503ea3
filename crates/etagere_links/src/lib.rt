//! Records linked by number: links of 16 bits, and walks that follow links.
//!
//! `links` has the link. `walking` and `marking` follow the links of any records, as a snapshot may have them, and
//! `multiples` has a test of its lengths.
#![tactic(auto)]

mod links;
mod marking;
mod multiples;
mod walking;

pub use links::Link;
pub use marking::{WalkFault, all_marked, mark_onto, restore_fault, room_and_marks};
pub use multiples::is_multiple;
pub use walking::walks::Walk;
pub use walking::{WalkRoom, walk};
