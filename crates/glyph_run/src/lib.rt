//! Runs of commands on a cache of glyph places, streams of their replies, and scripts that spell such runs. `running`,
//! `streaming` and `replaying` have the public calls; the others serve them.
#![tactic(auto)]

mod answering;
mod commands;
mod keys;
pub mod laws;
mod replaying;
mod reply_text;
mod running;
mod script;
mod streaming;
mod words;

pub use commands::{GlyphCommand, GlyphReply};
pub use replaying::replay_cache;
pub use running::run_cache;
pub use streaming::stream_cache;
