//! Streams of the replies of runs, scripts that are replayed, drawings of what runs leave, and checks of saved atlases.
//! `streaming`, `replaying`, `drawing` and `checking` have the public calls. Runs themselves are those of `answers`,
//! re-exported here with their commands, replies and faults; the text of scripts is read by `run_scripts`.
#![tactic(auto)]

pub mod answers;
mod checking;
mod drawing;
pub mod replay_laws;
mod replaying;
mod saved;
mod streaming;

pub use crate::answers::atlas_running::run_atlas;
pub use crate::answers::bucketed_running::run_bucketed;
pub use crate::answers::laws;
pub use checking::check;
pub use drawing::draw;
pub use replaying::replay;
pub use run_scripts::commands::{AtlasCommand, BucketedCommand, Reply};
pub use run_scripts::faults::{Checked, Drawing, Outcome, ReplayFault, RunFault, StreamFault};
pub use streaming::{stream_atlas, stream_bucketed};
