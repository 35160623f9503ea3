//! The snapshot of the atlas that a script leaves.

use run_scripts::faults::RunFault;
use run_scripts::script::{Commands, Script};
use saved_json::Saved;
use std::alloc::Global;
use traffic::saving::{save_atlas, save_buckets};

/// The snapshot that a script leaves. The error comes where its options have a fault, or there is no memory.
pub fn saved_of(alloc: Global, script: &Script) -> Result<Saved, RunFault> {
    let (size, options) = (script.size, &script.options);
    match &script.commands {
        Commands::OfShelves(commands) => {
            save_atlas(alloc, size, options, commands.as_slice()).map(Saved::Atlas)
        }
        Commands::OfBuckets(commands) => {
            save_buckets(alloc, size, options, commands.as_slice()).map(Saved::Bucketed)
        }
    }
}
