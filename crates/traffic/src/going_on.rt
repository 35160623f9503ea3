//! A run that goes on, from whatever state and ledger: its replies, and what is told of its commands.
//!
//! Definition: `GoingOn`, over `Runs`. What is told of a command is said by `Explaining`.

ghost use Rattle.std.specs.Prelude.{◌≡◌, ◌≤◌, ◌+◌, ◌++◌, [], IfErr, IfOk, OnOk, length, vec_capacity, vec_len};
ghost use Rattle.etagere_base.specs.Frames.{IsAccepted};
ghost use Rattle.etagere_run.specs.Answers.Live.{live_from};
ghost use Rattle.etagere_run.specs.Answers.Runs.{RefusesRun, effects, live_in};
ghost use Rattle.etagere_run.specs.Answers.Private.Tables.{entries_of};
ghost use Rattle.traffic.specs.GoingOn.{GoesOn, with_finding};

use etagere::{AllocatorOptions, BucketedRefusal, Refusal, Size};
use etagere_run::answers::ledger::Ledger;
use etagere_run::answers::running::{Beginning, answer_next};
use run_scripts::commands::Reply;
use run_scripts::faults::RunFault;
use std::alloc::{AllocError, Global};

/// Why a command was refused.
#[derive(Clone, Copy, Debug, PartialEq, Eq)]
pub enum Reason {
    /// A shelf atlas has no place for the size.
    OfShelves(Refusal),
    /// A bucketed atlas has no place for the size.
    OfBuckets(BucketedRefusal),
    /// The atlas can't grow to the size, for the fault of this number, from 1 to 4.
    OfGrow(u32),
}

/// A command that was refused: what it asked for, why it isn't there, and what was free instead.
#[derive(Clone, Copy, Debug, PartialEq, Eq)]
pub struct Refused {
    /// The size that was asked for, in pixels.
    pub asked: Size,
    pub reason: Reason,
    /// The atlas's `largest_free` as the command was refused, in pixels.
    pub largest_free: Size,
}

/// What is told of the command at a position.
#[derive(Clone, Copy, Debug, PartialEq, Eq)]
pub struct Finding {
    /// The number of the command, from 0, among those that were run.
    pub position: usize,
    pub refused: Refused,
}

/// An atlas on which runs begin, and that tells why it refused a command.
pub trait Explaining: Beginning {
    ghost use Rattle.std.specs.Prelude.{Option};
    ghost use Rattle.run_scripts.specs.declared.commands.Reply.{Reply};
    ghost use Rattle.traffic.specs.declared.going_on.Refused.{Refused};

    ghost told: { Self → Self.Command → Reply → Option Refused };

    /// Why a command was refused that had this reply, if it was; the atlas is as the command left it.
    fn explain(&self, command: Self::Command, reply: &Reply) -> Option<Refused>
        ensures { result ≡ told self.now command reply.now };
}

/// The replies to commands, and what is told of those that were refused.
#[derive(Drop)]
pub struct Answers {
    pub replies: Vec<Reply>,
    pub findings: Vec<Finding>,
}

/// A new atlas that has answered commands, the ledger of what is live in it, and what it answered.
#[derive(Drop)]
pub struct Gone<A: Drop> {
    pub atlas: A,
    pub ledger: Ledger,
    pub answers: Answers,
}

/// Runs the commands in order on a new atlas of this size in pixels.
///
/// `Options` has the first fault of the size and options, or `OptionsFault::Memory` where these have none and there was
/// no memory for the atlas. `Memory` comes where there is none for the ledger, the replies or the findings. Takes memory
/// for a slot in the ledger for each command, beside what the atlas and `go_on` take.
pub fn go_on_new<A: Explaining>(
    alloc: Global,
    size: Size,
    options: &AllocatorOptions,
    commands: &[A::Command],
) -> Result<Gone<A>, RunFault>
    ensures answers { IfOk result (λ gone.
        GoesOn A.kind A.told 0 [] (A.kind.fresh (A.framed size options.now))
        commands.now gone.answers.replies.items gone.answers.findings.items gone.atlas) }
    ensures live { IfOk result (λ gone.
        entries_of gone.ledger ≡ live_in A.kind commands.now gone.answers.replies.items) }
    ensures accepted { OnOk result (IsAccepted A.longest size options.now) }
    ensures err { IfErr result (RefusesRun A.longest size options.now) }
{
    let Ok(mut ledger) = Ledger::with_capacity(alloc, commands.len()) else {
        return Err(RunFault::Memory);
    };
    let mut atlas = A::begin(alloc, size, options).map_err(RunFault::Options)?;
    let Ok(answers) = go_on(alloc, &mut atlas, &mut ledger, commands) else {
        return Err(RunFault::Memory);
    };
    Ok(Gone {
        atlas,
        ledger,
        answers,
    })
}

/// Runs the commands in order on an atlas that a ledger goes with, whatever was run before.
///
/// The error comes only where there was no memory for the replies or findings; some commands were run then. Takes
/// memory for these, beside what the atlas takes. Each command takes the time of its call of the atlas, and a refused
/// one that of `refusal` and `largest_free` too.
pub fn go_on<A: Explaining>(
    alloc: Global,
    atlas: &mut A,
    ledger: &mut Ledger,
    commands: &[A::Command],
) -> Result<Answers, AllocError>
    requires tied { A.Tied (entries_of ledger.old) atlas.old }
    requires room { vec_len ledger.old.slots + length commands.now ≤ vec_capacity ledger.old.slots }
    ensures answers { IfOk result (λ answers.
        GoesOn A.kind A.told (vec_len ledger.old.slots) (entries_of ledger.old) atlas.old
        commands.now answers.replies.items answers.findings.items atlas.new) }
    ensures live { IfOk result (λ answers.
        entries_of ledger.new ≡ live_from (vec_len ledger.old.slots) (entries_of ledger.old)
        (effects A.kind commands.now answers.replies.items)) }
{
    let mut replies = Vec::new(alloc);
    let mut findings = Vec::new(alloc);
    for position in 0..commands.len() {
        let command = commands[position];
        let reply = answer_next(atlas, ledger, command);
        note(&mut findings, position, atlas.explain(command, &reply))?;
        replies.push(reply)?;
    }
    Ok(Answers { replies, findings })
}

/// Adds what is told of the command at a position, if anything is.
fn note(
    findings: &mut Vec<Finding>,
    position: usize,
    told: Option<Refused>,
) -> Result<(), AllocError>
    ensures { OnOk result
        (findings.new.items ≡ findings.old.items ++ with_finding position told []) }
{
    if let Some(refused) = told {
        findings.push(Finding { position, refused })?;
    }
    Ok(())
}
