//! Commands that go on from a saved shelf atlas.
//!
//! What is live in the atlas has the first positions, by rising index; the commands have those behind them.
//! Definition: `Resuming`, over `Runs` and the rules of snapshots.

ghost use Rattle.std.specs.Prelude.{◌≡◌, IfErr, IfOk};
ghost use Rattle.shelf_model.specs.Atlas.{KeepsPromises};
ghost use Rattle.shelf_model.specs.Callers.{AreTied};
ghost use Rattle.shelf_model.specs.Listing.{listed};
ghost use Rattle.shelf_model.specs.Places.{allocations};
ghost use Rattle.shelf_records.specs.Snapshots.{IsBroken, snapshot_records};
ghost use Rattle.traffic.specs.Resuming.{IsRestOfRun, Resumes};

use crate::going_on::go_on;
use crate::ledgers::ledger_of;
use etagere::{Allocation, AtlasAllocator, AtlasSnapshot, RestoreFault};
use run_scripts::commands::{AtlasCommand, Reply};
use std::alloc::{AllocError, Global};

/// What a saved atlas had live, and its replies to more commands.
#[derive(Drop)]
pub struct Resumed {
    /// What was live in the snapshot, by rising index: the position of each is where it stands here, counted from 0.
    pub live: Vec<Allocation>,
    /// The replies to the commands, whose positions begin behind those.
    pub replies: Vec<Reply>,
}

/// Restores a snapshot, and runs the commands on the atlas for which it stands.
///
/// The replies are those that one run gives: of the commands that led to the snapshot, whichever these were, and then
/// of these, each with its positions counted there.
///
/// The fault is a rule that the snapshot breaks, or `RestoreFault::Memory` where there was no memory. Takes memory for
/// what `restore` takes, the list of what is live, the ledger and the replies.
pub fn resume_atlas(
    alloc: Global,
    snapshot: AtlasSnapshot,
    commands: &[AtlasCommand],
) -> Result<Resumed, RestoreFault>
    ensures resumed { IfOk result (λ resumed.
        Resumes snapshot commands.now resumed.live.items resumed.replies.items) }
    ensures rest { IfOk result (λ resumed.
        IsRestOfRun snapshot commands.now resumed.live.items resumed.replies.items) }
    ensures err { IfErr result (IsBroken (snapshot_records snapshot)) }
{
    let mut atlas = AtlasAllocator::restore(alloc, snapshot)?;
    let Ok(live) = live_in(alloc, &atlas) else {
        return Err(RestoreFault::Memory);
    };
    let Ok(mut ledger) = ledger_of(alloc, live.as_slice(), commands.len()) else {
        return Err(RestoreFault::Memory);
    };
    match go_on(alloc, &mut atlas, &mut ledger, commands) {
        Ok(answers) => Ok(Resumed {
            live,
            replies: answers.replies,
        }),
        Err(_) => Err(RestoreFault::Memory),
    }
}

/// Everything that is allocated in an atlas, by rising index.
fn live_in(alloc: Global, atlas: &AtlasAllocator) -> Result<Vec<Allocation>, AllocError>
    ensures listed { IfOk result (λ live. live.items ≡ listed atlas.now) }
    ensures tied { IfOk result (λ live. AreTied live.items (allocations atlas.now)) }
    ensures promises { KeepsPromises atlas.now }
{
    let live: Vec<Allocation> = atlas.iter().collect(alloc)?;
    Ok(live)
}
