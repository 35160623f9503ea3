//! Runs of whatever kind: one command, one call, one reply, and a ledger of what is live.
//!
//! Definitions: `Runs` and `Live`; `Tied` is what private functions keep between ledger and atlas. An atlas that is to
//! have runs implements `Answering`, over a `Kind` of its own, and `Beginning`, which makes it. Streams answer by
//! `answer_next` too.

ghost use Rattle.std.specs.Prelude.{◌≡◌, ℕ, ◌<◌, ◌≤◌, ◌+◌, List, [], length, vec_capacity, vec_len, IfErr, IfOk, OnOk};
ghost use Rattle.etagere_base.specs.declared.frames.Frame.{Frame};
ghost use Rattle.etagere_base.specs.Frames.{IsAccepted};
ghost use Rattle.etagere_run.specs.Answers.Live.{Entry};
ghost use Rattle.etagere_run.specs.Answers.Runs.{Kind, RefusesRun, Runs, RunKeepsPromisesThroughout, RunsTo};
ghost use Rattle.run_scripts.specs.declared.faults.RunFault.TheVariants.{Options};
ghost use Rattle.etagere_run.specs.Answers.Private.Given as spec;
ghost use Rattle.etagere_run.specs.Answers.Private.Given.{with_given};
ghost use Rattle.etagere_run.specs.Answers.Private.Rooms.{IsEmptyRoom};
ghost use Rattle.etagere_run.specs.Answers.Private.Tables.{HasSlotsOf, entries_of};
ghost use Rattle.etagere_run.specs.Answers.Private.Tied.{IsAnswerOf, IsNew, SuitsRuns};

use crate::answers::ledger::Ledger;
use etagere::{Allocation, AllocatorOptions, OptionsFault, Size};
use run_scripts::commands::Reply;
use run_scripts::faults::RunFault;
use std::alloc::{AllocError, Global};

/// An atlas that answers the commands of its kind of run.
pub trait Answering {
    /// What it is asked.
    type Command: Copy;

    ghost kind: { Kind Self Self.Command };

    ghost Tied: { List Entry → Self → Type 0 };

    /// Answers a command, and takes out of the ledger what the command gives back. What it is given isn't added yet.
    fn answer(&mut self, ledger: &mut Ledger, command: Self::Command) -> Reply
        requires { Tied (entries_of ledger.old) self.old }
        ensures answer { (position : ℕ) → IsAnswerOf kind Tied position command result
            (entries_of ledger.old) (with_given position result (entries_of ledger.new))
            self.old self.new }
        ensures slots { HasSlotsOf ledger.old ledger.new };
}

/// An atlas on which runs begin.
pub trait Beginning: Answering + Drop {
    ghost use Rattle.etagere_base.specs.declared.geometry.Size.{Size};
    ghost use Rattle.etagere_base.specs.declared.options.AllocatorOptions.{AllocatorOptions};

    ghost longest: { ℕ };

    ghost framed: { Size → AllocatorOptions → Frame };

    /// A new atlas of this size in pixels.
    ///
    /// Returns the first fault of the size and options, or `Memory` where these have none and there was no memory.
    fn begin(alloc: Global, size: Size, options: &AllocatorOptions) -> Result<Self, OptionsFault>
        ensures suits { SuitsRuns Self.kind Self.Tied }
        ensures new { IfOk result (IsNew Self.kind Self.Tied) }
        ensures frame { IfOk result (λ atlas. Self.kind.frame atlas ≡ framed size options.now) }
        ensures accepted { OnOk result (IsAccepted longest size options.now) }
        ensures err { IfErr result (λ fault. RefusesRun longest size options.now (Options fault)) };
}

/// Room for a run: for its replies, and for the ledger of what is live.
#[derive(Drop)]
struct Room {
    replies: Vec<Reply>,
    ledger: Ledger,
}

impl Room {
    /// Room for so many commands.
    fn with_capacity(alloc: Global, count: usize) -> Result<Room, AllocError>
        ensures empty { IfOk result (λ room. IsEmptyRoom count room) }
    {
        let replies = Vec::with_capacity(alloc, count)?;
        let ledger = Ledger::with_capacity(alloc, count)?;
        Ok(Room { replies, ledger })
    }
}

/// A new atlas that has answered commands, and its replies.
#[derive(Drop)]
pub struct Answered<A: Drop> {
    pub atlas: A,
    pub replies: Vec<Reply>,
}

/// The replies of a new atlas to the commands, one after another. `run_atlas` says which faults come, and what memory is
/// taken.
pub fn run<A: Beginning>(
    alloc: Global,
    size: Size,
    options: &AllocatorOptions,
    commands: &[A::Command],
) -> Result<Vec<Reply>, RunFault>
    ensures run { IfOk result (λ replies.
        RunsTo A.kind (A.framed size options.now) commands.now replies.items) }
    ensures promises { IfOk result (λ replies.
        RunKeepsPromisesThroughout A.kind (A.framed size options.now) commands.now replies.items) }
    ensures accepted { OnOk result (IsAccepted A.longest size options.now) }
    ensures err { IfErr result (RefusesRun A.longest size options.now) }
{
    Ok(run_new::<A>(alloc, size, options, commands)?.replies)
}

/// A new atlas that has answered the commands, one after another. As `run`.
pub fn run_new<A: Beginning>(
    alloc: Global,
    size: Size,
    options: &AllocatorOptions,
    commands: &[A::Command],
) -> Result<Answered<A>, RunFault>
    ensures last { IfOk result (λ answered. Runs A.kind 0 [] (A.kind.fresh (A.framed size options.now))
        commands.now answered.replies.items answered.atlas) }
    ensures promises { IfOk result (λ answered.
        RunKeepsPromisesThroughout A.kind (A.framed size options.now)
        commands.now answered.replies.items) }
    ensures accepted { OnOk result (IsAccepted A.longest size options.now) }
    ensures err { IfErr result (RefusesRun A.longest size options.now) }
{
    let Ok(room) = Room::with_capacity(alloc, commands.len()) else {
        return Err(RunFault::Memory);
    };
    let mut atlas = A::begin(alloc, size, options).map_err(RunFault::Options)?;
    let replies = answer_all(&mut atlas, room, commands);
    Ok(Answered { atlas, replies })
}

/// The replies of an atlas to the commands, one after another.
fn answer_all<A: Answering>(atlas: &mut A, room: Room, commands: &[A::Command]) -> Vec<Reply>
    requires suits { SuitsRuns A.kind A.Tied }
    requires new { IsNew A.kind A.Tied atlas.old }
    requires room { IsEmptyRoom (length commands.now) room }
    ensures last { Runs A.kind 0 [] (A.kind.fresh (A.kind.frame atlas.old))
        commands.now result.items atlas.new }
    ensures promises { RunKeepsPromisesThroughout A.kind (A.kind.frame atlas.old)
        commands.now result.items }
{
    let Room {
        mut replies,
        mut ledger,
    } = room;
    for position in 0..commands.len() {
        let reply = answer_next(atlas, &mut ledger, commands[position]);
        replies.push(reply).unwrap();
    }
    replies
}

/// The reply of an atlas to the next command, which the ledger keeps.
pub fn answer_next<A: Answering>(atlas: &mut A, ledger: &mut Ledger, command: A::Command) -> Reply
    requires tied { A.Tied (entries_of ledger.old) atlas.old }
    requires space { vec_len ledger.old.slots < vec_capacity ledger.old.slots }
    ensures answer { IsAnswerOf A.kind A.Tied (vec_len ledger.old.slots) command result
        (entries_of ledger.old) (entries_of ledger.new) atlas.old atlas.new }
    ensures length { vec_len ledger.new.slots ≡ vec_len ledger.old.slots + 1 }
    ensures room { vec_capacity ledger.old.slots ≤ vec_capacity ledger.new.slots }
{
    let reply = atlas.answer(ledger, command);
    ledger.add(given_by(&reply));
    reply
}

/// What a command was given that has this reply.
fn given_by(reply: &Reply) -> Option<Allocation>
    ensures { result ≡ spec.given_by reply.now }
{
    match reply {
        Reply::Placed(allocation) => Some(*allocation),
        _ => None,
    }
}
