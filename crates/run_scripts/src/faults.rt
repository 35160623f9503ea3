//! How runs, streams, replays, drawings and checks end: faults with their numbers, outcomes, exit statuses
//! and words.
//!
//! Definition: `Faults`. A new fault or outcome is added both here and there; what goes to standard output is in
//! `replaying`, `drawing` and `checking`.

ghost use Rattle.std.specs.Prelude.{◌≡◌};
ghost use Rattle.run_scripts.specs.Faults.{checked_status, drawing_status, fault_status, fault_words, outcome_status, replay_fault_number, run_fault_number, stream_fault_number};

use etagere_base::OptionsFault;
use std::fmt::{self, Display, Formatter};
use thiserror::Error;

/// Why a run didn't start.
#[derive(Clone, Copy, Debug, PartialEq, Eq, Error)]
pub enum RunFault {
    /// The size and options have this fault, or the atlas got no memory (`OptionsFault::Memory`).
    #[error("Options")]
    Options(OptionsFault),
    /// There was no memory for the replies or the ledger.
    #[error("Memory")]
    Memory,
}

impl RunFault {
    /// The fault's number, 1 or 2.
    pub fn number(self) -> u32
        ensures { result ≡ run_fault_number self }
    {
        match self {
            RunFault::Options(_) => 1,
            RunFault::Memory => 2,
        }
    }
}

/// Why a stream of replies isn't whole.
#[derive(Clone, Copy, Debug, PartialEq, Eq, Error)]
pub enum StreamFault {
    /// The size and options have this fault, or the atlas got no memory (`OptionsFault::Memory`). Nothing was written.
    #[error("Options")]
    Options(OptionsFault),
    /// There was no memory for the ledger. Nothing was written.
    #[error("Memory")]
    Memory,
    /// The writer failed or accepted no byte. A beginning of the text was written.
    #[error("Write")]
    Write,
}

impl StreamFault {
    /// The fault's number, from 1 to 3.
    pub fn number(self) -> u32
        ensures { result ≡ stream_fault_number self }
    {
        match self {
            StreamFault::Options(_) => 1,
            StreamFault::Memory => 2,
            StreamFault::Write => 3,
        }
    }
}

/// How a replay or the drawing of a script ended, where it met no `ReplayFault`.
#[derive(Clone, Copy, Debug, PartialEq, Eq)]
pub enum Outcome {
    /// The script was run.
    Done,
    /// The line of this number, from 1, is the first that isn't good. Nothing was run.
    BadLine(u64),
    /// The options have the fault of this number, from 1 to 5. Nothing was run.
    Options(u32),
}

impl Outcome {
    /// A program's exit status: 0 after `Done`, 1 after `Options`, 2 after `BadLine`.
    pub fn status(self) -> u8
        ensures { result ≡ outcome_status self }
    {
        match self {
            Outcome::Done => 0,
            Outcome::Options(_) => 1,
            Outcome::BadLine(_) => 2,
        }
    }
}

impl Display for Outcome {
    ghost use Rattle.std.specs.Prelude.{Some};
    ghost use Rattle.run_scripts.specs.Faults.{outcome_words};

    ghost output = { λ outcome. Some (outcome_words outcome) };

    /// What the programs say of the outcome, without a line feed.
    fn fmt<W: fmt::Write>(&self, f: &mut Formatter<W>) -> fmt::Result {
        match self {
            Outcome::Done => f.write_str("done"),
            Outcome::Options(number) => write!(f, "options {number}"),
            Outcome::BadLine(number) => write!(f, "line {number}: bad"),
        }
    }
}

/// How a check or the drawing of a snapshot ended, where it met no `ReplayFault`.
#[derive(Clone, Copy, Debug, PartialEq, Eq)]
pub enum Checked {
    /// The snapshot stands for an atlas, which was restored.
    Fine,
    /// The rule of this number, from 1 to 10, is broken.
    Broken(u32),
    /// The input isn't the JSON text of a snapshot, or there was no memory to read it as one.
    Unreadable,
}

impl Checked {
    /// A program's exit status: 0 after `Fine`, 1 after `Broken`, 2 after `Unreadable`.
    pub fn status(self) -> u8
        ensures { result ≡ checked_status self }
    {
        match self {
            Checked::Fine => 0,
            Checked::Broken(_) => 1,
            Checked::Unreadable => 2,
        }
    }
}

impl Display for Checked {
    ghost use Rattle.std.specs.Prelude.{Some};
    ghost use Rattle.run_scripts.specs.Faults.{checked_words};

    ghost output = { λ checked. Some (checked_words checked) };

    /// What a check writes of the snapshot, without a line feed.
    fn fmt<W: fmt::Write>(&self, f: &mut Formatter<W>) -> fmt::Result {
        match self {
            Checked::Fine => f.write_str("ok"),
            Checked::Broken(number) => write!(f, "broken {number}"),
            Checked::Unreadable => f.write_str("unreadable"),
        }
    }
}

/// How a drawing ended: `OfScript(Done)` and `OfSnapshot(Fine)` come with a picture, no other does.
#[derive(Clone, Copy, Debug, PartialEq, Eq)]
pub enum Drawing {
    /// The input was read as a script.
    OfScript(Outcome),
    /// The input begins with `{`, and was read as a snapshot.
    OfSnapshot(Checked),
}

impl Drawing {
    /// A program's exit status: that of the outcome, or of the check.
    pub fn status(self) -> u8
        ensures { result ≡ drawing_status self }
    {
        match self {
            Drawing::OfScript(outcome) => outcome.status(),
            Drawing::OfSnapshot(checked) => checked.status(),
        }
    }
}

impl Display for Drawing {
    ghost use Rattle.std.specs.Prelude.{Some};
    ghost use Rattle.run_scripts.specs.Faults.{drawing_words};

    ghost output = { λ drawing. Some (drawing_words drawing) };

    /// What the program says of the drawing, without a line feed.
    fn fmt<W: fmt::Write>(&self, f: &mut Formatter<W>) -> fmt::Result {
        match self {
            Drawing::OfScript(outcome) => write!(f, "{outcome}"),
            Drawing::OfSnapshot(checked) => write!(f, "{checked}"),
        }
    }
}

/// Why a replay, a drawing or a check wrote nothing, or only a beginning of its text.
#[derive(Clone, Copy, Debug, PartialEq, Eq, Error)]
pub enum ReplayFault {
    /// The reader failed. Nothing was written.
    #[error("Read")]
    Read,
    /// The writer failed or accepted no byte. A beginning of the text was written.
    #[error("Write")]
    Write,
    /// There was no memory. Nothing was written.
    #[error("Memory")]
    Memory,
}

impl ReplayFault {
    /// The fault's number, from 1 to 3.
    pub fn number(self) -> u32
        ensures { result ≡ replay_fault_number self }
    {
        match self {
            ReplayFault::Read => 1,
            ReplayFault::Write => 2,
            ReplayFault::Memory => 3,
        }
    }

    /// A program's exit status, 3 after each of these faults.
    pub fn status(self) -> u8
        ensures { result ≡ fault_status self }
    {
        3
    }

    /// What a program says on standard error, without a line feed.
    pub fn words(self) -> &'static str
        ensures { result.now ≡ fault_words self }
    {
        match self {
            ReplayFault::Read => "read fault",
            ReplayFault::Write => "write fault",
            ReplayFault::Memory => "no memory",
        }
    }
}
