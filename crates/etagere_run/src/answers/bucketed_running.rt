//! Runs on a bucketed atlas.
//!
//! Definition: `BucketedRuns`, an instance of `Runs`. A new command needs its pairs in `BucketedStep`.

ghost use Rattle.std.specs.Prelude.{ℕ, List, IfOk, IfErr, OnOk};
ghost use Rattle.etagere_base.specs.Frames.{IsAccepted};
ghost use Rattle.bucketed_model.specs.Frames.{bucketed_frame, longest_bucketed_side};
ghost use Rattle.etagere_run.specs.Answers.BucketedRuns.{bucketed_atlas};
ghost use Rattle.etagere_run.specs.Answers.Runs.{RefusesRun, RunKeepsPromisesThroughout, RunsTo};
ghost use Rattle.etagere_run.specs.Answers.Live.{Entry};
ghost use Rattle.etagere_run.specs.Answers.Private.Given.{with_given};
ghost use Rattle.etagere_run.specs.Answers.Private.Tables.{HasSlotsOf, entries_of};
ghost use Rattle.etagere_run.specs.Answers.Private.Tied.{IsBucketedAnswer, IsInBuckets};

use crate::answers::ledger::Ledger;
use crate::answers::running::{Answering, Beginning, run};
use etagere::{AllocatorOptions, OptionsFault, Size};
use etagere_bucketed::{BucketedAtlasAllocator, GrowFault};
use run_scripts::commands::{BucketedCommand, Reply};
use run_scripts::faults::RunFault;
use std::alloc::Global;

/// Runs the commands in order on a new bucketed atlas of this size in pixels, and gives a reply to each.
///
/// `Options` has the first fault of the size and options; `Memory` comes where there is none for the replies or for the
/// ledger of what is live; room for both is taken first. After an error nothing was run. Takes memory for a reply and a
/// place in the ledger for each command, beside what the atlas takes. Each command takes the time of its call of the
/// atlas, and constant time to find a position. A position that was returned is answered by `NotLive`, without a call
/// of the atlas.
pub fn run_bucketed(
    alloc: Global,
    size: Size,
    options: &AllocatorOptions,
    commands: &[BucketedCommand],
) -> Result<Vec<Reply>, RunFault>
    ensures run { IfOk result (λ replies.
        RunsTo bucketed_atlas (bucketed_frame size options.now) commands.now replies.items) }
    ensures promises { IfOk result (λ replies.
        RunKeepsPromisesThroughout bucketed_atlas (bucketed_frame size options.now)
        commands.now replies.items) }
    ensures accepted { OnOk result (IsAccepted longest_bucketed_side size options.now) }
    ensures err { IfErr result (RefusesRun longest_bucketed_side size options.now) }
{
    run::<BucketedAtlasAllocator>(alloc, size, options, commands)
}

impl Beginning for BucketedAtlasAllocator {
    ghost longest = { longest_bucketed_side };

    ghost framed = { bucketed_frame };

    fn begin(
        alloc: Global,
        size: Size,
        options: &AllocatorOptions,
    ) -> Result<BucketedAtlasAllocator, OptionsFault> {
        BucketedAtlasAllocator::with_options(alloc, size, options)
    }
}

impl Answering for BucketedAtlasAllocator {
    type Command = BucketedCommand;

    ghost kind = { bucketed_atlas };

    ghost Tied = { IsInBuckets };

    fn answer(&mut self, ledger: &mut Ledger, command: BucketedCommand) -> Reply {
        match command {
            BucketedCommand::Allocate(size) => allocate(self, size),
            BucketedCommand::Return(other) => give_back(self, ledger, other),
            BucketedCommand::Grow(size) => grow(self, size),
            BucketedCommand::Clear => clear(self, ledger),
        }
    }
}

fn allocate(atlas: &mut BucketedAtlasAllocator, size: Size) -> Reply
    ensures { (position : ℕ) (entries : List Entry) → IsInBuckets entries atlas.old
        → IsBucketedAnswer position (BucketedCommand.Allocate size) result
        entries (with_given position result entries) atlas.old atlas.new }
{
    let Ok(found) = atlas.allocate(size) else {
        return Reply::NoMemory;
    };
    let Some(allocation) = found else {
        return Reply::Refused;
    };
    Reply::Placed(allocation)
}

fn give_back(atlas: &mut BucketedAtlasAllocator, ledger: &mut Ledger, other: usize) -> Reply
    requires { IsInBuckets (entries_of ledger.old) atlas.old }
    ensures answer { (position : ℕ)
        → IsBucketedAnswer position (BucketedCommand.Return other) result
        (entries_of ledger.old) (with_given position result (entries_of ledger.new))
        atlas.old atlas.new }
    ensures slots { HasSlotsOf ledger.old ledger.new }
{
    let Some(id) = ledger.take(other) else {
        return Reply::NotLive;
    };
    match atlas.deallocate(id) {
        Ok(()) => Reply::Returned,
        Err(_) => unreachable!(),
    }
}

fn grow(atlas: &mut BucketedAtlasAllocator, size: Size) -> Reply
    ensures { (position : ℕ) (entries : List Entry) → IsInBuckets entries atlas.old
        → IsBucketedAnswer position (BucketedCommand.Grow size) result
        entries (with_given position result entries) atlas.old atlas.new }
{
    match atlas.grow(size) {
        Ok(()) => Reply::Grown,
        Err(GrowFault::Memory) => Reply::NoMemory,
        Err(fault) => Reply::GrowRefused(fault.number()),
    }
}

fn clear(atlas: &mut BucketedAtlasAllocator, ledger: &mut Ledger) -> Reply
    requires { IsInBuckets (entries_of ledger.old) atlas.old }
    ensures answer { (position : ℕ) → IsBucketedAnswer position BucketedCommand.Clear result
        (entries_of ledger.old) (with_given position result (entries_of ledger.new))
        atlas.old atlas.new }
    ensures slots { HasSlotsOf ledger.old ledger.new }
{
    atlas.clear();
    ledger.clear();
    Reply::Cleared
}
