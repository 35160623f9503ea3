//! How much a run was asked, and what it answered.
//!
//! Definition: `Tallies`, on lists of commands and replies.

ghost use Rattle.std.specs.Prelude.{◌≡◌, ◌<◌, ◌≤◌, ◌+◌, ◌*◌, ◌^◌, length};
ghost use Rattle.std.specs.List.{count_by};
ghost use Rattle.etagere_run.specs.Answers.Private.Tables.{entries_of};
ghost use Rattle.traffic.specs.Tallies as spec;
ghost use Rattle.traffic.specs.Tallies.{IsTallyOf};

use etagere::Size;
use etagere_base::side;
use etagere_run::answers::ledger::Ledger;
use run_scripts::commands::{AtlasCommand, BucketedCommand, Reply};

/// What kind of command one is.
#[derive(Clone, Copy, Debug, PartialEq, Eq)]
pub enum CommandKind {
    Allocation,
    Return,
    Look,
    Grow,
    Clear,
}

/// What kind of reply one is.
#[derive(Clone, Copy, Debug, PartialEq, Eq)]
pub enum ReplyKind {
    Placed,
    Refused,
    Returned,
    Shown,
    NotLive,
    Cleared,
    Grown,
    GrowRefused,
    NoMemory,
}

/// How many allocations are live, and the most that were live at once, so far.
#[derive(Clone, Copy, Debug, PartialEq, Eq)]
pub struct LiveCounts {
    pub now: usize,
    pub most: usize,
}

/// How much a run was asked, and what it answered, each count that of its name.
#[derive(Clone, Copy, Debug, PartialEq, Eq)]
pub struct Tally {
    pub allocations: usize,
    pub returns: usize,
    pub looks: usize,
    pub grows: usize,
    pub clears: usize,
    /// Allocations that have no place.
    pub refused: usize,
    /// Grows that aren't possible.
    pub grows_refused: usize,
    /// Returns and looks whose position names nothing that is live.
    pub not_live: usize,
    /// Commands for which there was no memory.
    pub no_memory: usize,
    pub live: LiveCounts,
}

/// A command whose kind can be told.
pub trait Sorted: Copy {
    ghost use Rattle.std.specs.Prelude.{Bool, ℕ};
    ghost use Rattle.traffic.specs.declared.tallies.CommandKind.{CommandKind};

    ghost sorted: { CommandKind → Self → Bool };

    ghost asked: { Self → ℕ };

    /// The area that the command asks for, in square pixels; 0 where it asks for none.
    fn asked_area(self) -> u64
        ensures area { result ≡ asked self }
        ensures bounded { result < 2 ^ 62 };

    /// Whether the command is of a kind.
    fn is_of(self, kind: CommandKind) -> bool
        ensures { result ≡ sorted kind self };
}

impl Sorted for AtlasCommand {
    ghost sorted = { spec.is_atlas_command };

    ghost asked = { spec.atlas_asked };

    fn asked_area(self) -> u64 {
        match self {
            AtlasCommand::Allocate(size) => area_of(size),
            _ => 0,
        }
    }

    fn is_of(self, kind: CommandKind) -> bool {
        match kind {
            CommandKind::Allocation => matches!(self, AtlasCommand::Allocate(_)),
            CommandKind::Return => matches!(self, AtlasCommand::Return(_)),
            CommandKind::Look => matches!(self, AtlasCommand::Look(_)),
            CommandKind::Grow => matches!(self, AtlasCommand::Grow(_)),
            CommandKind::Clear => matches!(self, AtlasCommand::Clear),
        }
    }
}

impl Sorted for BucketedCommand {
    ghost sorted = { spec.is_bucketed_command };

    ghost asked = { spec.bucketed_asked };

    fn asked_area(self) -> u64 {
        match self {
            BucketedCommand::Allocate(size) => area_of(size),
            _ => 0,
        }
    }

    fn is_of(self, kind: CommandKind) -> bool {
        match kind {
            CommandKind::Allocation => matches!(self, BucketedCommand::Allocate(_)),
            CommandKind::Return => matches!(self, BucketedCommand::Return(_)),
            CommandKind::Look => false,
            CommandKind::Grow => matches!(self, BucketedCommand::Grow(_)),
            CommandKind::Clear => matches!(self, BucketedCommand::Clear),
        }
    }
}

/// The area of a size in square pixels; 0 where a side isn't positive.
fn area_of(size: Size) -> u64
    ensures area { result ≡ spec.area_of size }
    ensures bounded { result < 2 ^ 62 }
{
    u64::from(side(size.width)) * u64::from(side(size.height))
}

/// What was asked by the commands of a run, and what the replies were. Takes no memory, and time linear in both.
pub fn tally_of<C: Sorted>(commands: &[C], replies: &[Reply]) -> Tally
    ensures { IsTallyOf C.sorted commands.now replies.now result }
{
    Tally {
        allocations: count_commands(commands, CommandKind::Allocation),
        returns: count_commands(commands, CommandKind::Return),
        looks: count_commands(commands, CommandKind::Look),
        grows: count_commands(commands, CommandKind::Grow),
        clears: count_commands(commands, CommandKind::Clear),
        refused: count_replies(replies, ReplyKind::Refused),
        grows_refused: count_replies(replies, ReplyKind::GrowRefused),
        not_live: count_replies(replies, ReplyKind::NotLive),
        no_memory: count_replies(replies, ReplyKind::NoMemory),
        live: live_counts(replies),
    }
}

/// The areas that were asked for by those of the commands that are live in a ledger, added up, in square pixels. Takes
/// no memory, and time linear in the commands.
pub fn asked_space<C: Sorted>(ledger: &Ledger, commands: &[C]) -> u128
    ensures { result ≡ spec.asked_space C.asked (entries_of ledger.now) commands.now }
{
    let mut space = 0u128;
    for position in 0..commands.len() {
        space += u128::from(live_area(ledger, position, commands[position]));
    }
    space
}

/// The area that the command at a position asked for, if that is live in a ledger, else 0.
fn live_area<C: Sorted>(ledger: &Ledger, position: usize, command: C) -> u64
    ensures area { result ≡ spec.live_area C.asked (entries_of ledger.now) position command }
    ensures bounded { result < 2 ^ 62 }
{
    if ledger.id_at(position).is_some() {
        command.asked_area()
    } else {
        0
    }
}

/// How many commands are of a kind. Takes no memory, and time linear in the commands.
pub fn count_commands<C: Sorted>(commands: &[C], kind: CommandKind) -> usize
    ensures { result ≡ count_by (C.sorted kind) commands.now }
{
    let mut count = 0usize;
    for position in 0..commands.len() {
        if commands[position].is_of(kind) {
            count += 1;
        }
    }
    count
}

/// How many replies are of a kind. Takes no memory, and time linear in the replies.
pub fn count_replies(replies: &[Reply], kind: ReplyKind) -> usize
    ensures { result ≡ count_by (spec.is_reply kind) replies.now }
{
    let mut count = 0usize;
    for position in 0..replies.len() {
        if is_reply(&replies[position], kind) {
            count += 1;
        }
    }
    count
}

/// Whether a reply is of a kind.
fn is_reply(reply: &Reply, kind: ReplyKind) -> bool
    ensures { result ≡ spec.is_reply kind reply.now }
{
    match kind {
        ReplyKind::Placed => matches!(reply, Reply::Placed(_)),
        ReplyKind::Refused => matches!(reply, Reply::Refused),
        ReplyKind::Returned => matches!(reply, Reply::Returned),
        ReplyKind::Shown => matches!(reply, Reply::At(_, _)),
        ReplyKind::NotLive => matches!(reply, Reply::NotLive),
        ReplyKind::Cleared => matches!(reply, Reply::Cleared),
        ReplyKind::Grown => matches!(reply, Reply::Grown),
        ReplyKind::GrowRefused => matches!(reply, Reply::GrowRefused(_)),
        ReplyKind::NoMemory => matches!(reply, Reply::NoMemory),
    }
}

/// How many allocations are live after the replies of a run, and the most that were live at once. Takes no memory, and
/// time linear in the replies.
pub fn live_counts(replies: &[Reply]) -> LiveCounts
    ensures { result ≡ spec.live_counts replies.now }
{
    let mut counts = LiveCounts { now: 0, most: 0 };
    for position in 0..replies.len() {
        counts = counts_after(counts, &replies[position]);
    }
    counts
}

/// The counts after one more reply.
fn counts_after(counts: LiveCounts, reply: &Reply) -> LiveCounts
    requires { counts.now < 2 ^ 63 }
    ensures { result ≡ spec.counts_after counts reply.now }
{
    let now = match reply {
        Reply::Placed(_) => counts.now + 1,
        Reply::Returned => counts.now.saturating_sub(1),
        Reply::Cleared => 0,
        _ => counts.now,
    };
    LiveCounts {
        now,
        most: counts.most.max(now),
    }
}
