//! Runs on a shelf atlas.
//!
//! Definition: `AtlasRuns`, an instance of `Runs`. A new command needs its pairs in `AtlasStep`.

ghost use Rattle.std.specs.Prelude.{ℕ, List, IfOk, IfErr, OnOk};
ghost use Rattle.etagere_base.specs.Frames.{IsAccepted, atlas_frame, longest_side};
ghost use Rattle.etagere_run.specs.Answers.AtlasRuns.{shelf_atlas};
ghost use Rattle.etagere_run.specs.Answers.Runs.{RefusesRun, RunKeepsPromisesThroughout, RunsTo};
ghost use Rattle.etagere_run.specs.Answers.Live.{Entry};
ghost use Rattle.etagere_run.specs.Answers.Private.Given.{with_given};
ghost use Rattle.etagere_run.specs.Answers.Private.Tables.{HasSlotsOf, entries_of};
ghost use Rattle.etagere_run.specs.Answers.Private.Tied.{IsAnswer, IsTied};

use crate::answers::ledger::Ledger;
use crate::answers::running::{Answering, Beginning, run};
use etagere::{AllocatorOptions, AtlasAllocator, AtlasGrowFault, OptionsFault, Size};
use etagere_base::INDEX_MODULUS;
use run_scripts::commands::{AtlasCommand, Reply};
use run_scripts::faults::RunFault;
use std::alloc::Global;

/// Runs the commands in order on a new atlas of this size in pixels, and gives a reply to each.
///
/// `Options` has the first fault of the size and options, or `OptionsFault::Memory` where these have none and there was
/// no memory for the atlas. `Memory` comes where there is none for the replies or for the ledger of what is live; room
/// for both is taken first. After an error nothing was run. Takes memory for a reply and a slot in the ledger for each
/// command, beside what the atlas takes. Each command takes the time of its call of the atlas, and constant time to
/// find a position.
pub fn run_atlas(
    alloc: Global,
    size: Size,
    options: &AllocatorOptions,
    commands: &[AtlasCommand],
) -> Result<Vec<Reply>, RunFault>
    ensures run { IfOk result (λ replies.
        RunsTo shelf_atlas (atlas_frame size options.now) commands.now replies.items) }
    ensures promises { IfOk result (λ replies.
        RunKeepsPromisesThroughout shelf_atlas (atlas_frame size options.now)
        commands.now replies.items) }
    ensures accepted { OnOk result (IsAccepted longest_side size options.now) }
    ensures err { IfErr result (RefusesRun longest_side size options.now) }
{
    run::<AtlasAllocator>(alloc, size, options, commands)
}

impl Beginning for AtlasAllocator {
    ghost longest = { longest_side };

    ghost framed = { atlas_frame };

    fn begin(
        alloc: Global,
        size: Size,
        options: &AllocatorOptions,
    ) -> Result<AtlasAllocator, OptionsFault> {
        AtlasAllocator::with_options(alloc, size, options)
    }
}

impl Answering for AtlasAllocator {
    type Command = AtlasCommand;

    ghost kind = { shelf_atlas };

    ghost Tied = { IsTied };

    fn answer(&mut self, ledger: &mut Ledger, command: AtlasCommand) -> Reply {
        match command {
            AtlasCommand::Allocate(size) => allocate(self, size),
            AtlasCommand::Return(other) => give_back(self, ledger, other),
            AtlasCommand::Look(other) => look(self, ledger, other),
            AtlasCommand::Grow(size) => grow(self, size),
            AtlasCommand::Clear => clear(self, ledger),
        }
    }
}

fn allocate(atlas: &mut AtlasAllocator, size: Size) -> Reply
    ensures { (position : ℕ) (entries : List Entry) → IsTied entries atlas.old
        → IsAnswer position (AtlasCommand.Allocate size) result
        entries (with_given position result entries) atlas.old atlas.new }
{
    let Ok(found) = atlas.allocate(size) else {
        return Reply::NoMemory;
    };
    let Some(allocation) = found else {
        return Reply::Refused;
    };
    Reply::Placed(allocation)
}

fn give_back(atlas: &mut AtlasAllocator, ledger: &mut Ledger, other: usize) -> Reply
    requires { IsTied (entries_of ledger.old) atlas.old }
    ensures answer { (position : ℕ) → IsAnswer position (AtlasCommand.Return other) result
        (entries_of ledger.old) (with_given position result (entries_of ledger.new))
        atlas.old atlas.new }
    ensures slots { HasSlotsOf ledger.old ledger.new }
{
    let Some(id) = ledger.take(other) else {
        return Reply::NotLive;
    };
    match atlas.deallocate(id) {
        Ok(()) => Reply::Returned,
        Err(_) => unreachable!(),
    }
}

fn look(atlas: &AtlasAllocator, ledger: &Ledger, other: usize) -> Reply
    requires { IsTied (entries_of ledger.now) atlas.now }
    ensures { (position : ℕ) → IsAnswer position (AtlasCommand.Look other) result
        (entries_of ledger.now) (with_given position result (entries_of ledger.now))
        atlas.now atlas.now }
{
    let Some(id) = ledger.id_at(other) else {
        return Reply::NotLive;
    };
    match atlas.get(id) {
        Some(rectangle) => Reply::At(rectangle, id.serialize() % INDEX_MODULUS),
        None => unreachable!(),
    }
}

fn grow(atlas: &mut AtlasAllocator, size: Size) -> Reply
    ensures { (position : ℕ) (entries : List Entry) → IsTied entries atlas.old
        → IsAnswer position (AtlasCommand.Grow size) result
        entries (with_given position result entries) atlas.old atlas.new }
{
    match atlas.grow(size) {
        Ok(()) => Reply::Grown,
        Err(AtlasGrowFault::Memory) => Reply::NoMemory,
        Err(fault) => Reply::GrowRefused(fault.number()),
    }
}

fn clear(atlas: &mut AtlasAllocator, ledger: &mut Ledger) -> Reply
    ensures answer { (position : ℕ) → IsAnswer position AtlasCommand.Clear result
        (entries_of ledger.old) (with_given position result (entries_of ledger.new))
        atlas.old atlas.new }
    ensures slots { HasSlotsOf ledger.old ledger.new }
{
    atlas.clear();
    ledger.clear();
    Reply::Cleared
}
