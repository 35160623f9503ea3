//! What is told of the atlas that a script leaves, or that was saved: how much was asked, how full it is and how tall its
//! shelves are, as text for people and as JSON for programs; and the snapshot that a script leaves.

mod heights;
mod report;
mod snapshot;
mod stats_json;
mod stats_text;

pub use report::{Report, report_of_saved, report_of_script};
pub use snapshot::saved_of;
pub use stats_json::json_text;
pub use stats_text::plain_text;
