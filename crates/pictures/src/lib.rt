//! Pictures as SVG text, and text that goes out to a writer.
//!
//! `drawing` has the text of a picture, which `gathering` gathers in a buffer of fixed size and `sending` sends.
//! No memory is taken.
#![tactic(auto)]

mod drawing;
mod gathering;
mod sending;

pub use drawing::{Pictured, drawn_at, push_drawn, send_document, send_into};
pub use gathering::GatheredText;
pub use sending::send;
