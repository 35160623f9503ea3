//! Runs of commands on pages: one command, one call, one reply. `running` has the public call, `commands` what is asked
//! and answered, `answering` the answer to one command, `packing` a list of sizes at once, `run_faults` why nothing was run.

mod answering;
mod commands;
mod packing;
mod run_faults;
mod running;

pub use answering::answer_on_pages;
pub use commands::{PageCommand, PageReply};
pub use packing::pack;
pub use run_faults::PageRunFault;
pub use running::run_pages;
