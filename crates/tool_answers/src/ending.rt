//! How the program ends: with bytes for standard output or a file, or a line for standard error, and a status.

use etagere_base::{OptionsFault, RestoreFault};
use run_scripts::faults::{Checked, Outcome, ReplayFault, RunFault};
use saved_json::ReadFault;
use std::alloc::{AllocError, AllocFailed};
use std::fmt::{self, Display, Formatter};
use std::io;

/// What is written to standard output, or to the file that is named for it, and the status behind it.
#[derive(Drop)]
pub struct Answer {
    pub bytes: Vec<u8>,
    pub status: u8,
}

impl Answer {
    /// A text, after which all is well.
    pub fn done(text: String) -> Answer {
        Answer::told(0, text)
    }

    /// A text, with this status.
    pub fn told(status: u8, text: String) -> Answer {
        Answer {
            bytes: text.into_bytes(),
            status,
        }
    }

    /// Bytes, after which all is well.
    pub fn made(bytes: Vec<u8>) -> Answer {
        Answer { bytes, status: 0 }
    }
}

/// Why there is no answer. Its text is said on standard error.
#[derive(Drop)]
pub enum Failure {
    /// A stream failed, or memory ran out.
    Fault(ReplayFault),
    /// The line of this number isn't good, where this was expected.
    BadLine { number: u64, expected: &'static str },
    /// The options have the fault of this number.
    Options(u32),
    /// The snapshot isn't good.
    Snapshot(Checked),
    /// The arguments don't go with each other, or with the input.
    Misused(&'static str),
    /// Some sizes have no place, which is said of each.
    Unplaced(String),
    /// A file can't be read or written, for the reason that is told.
    File(String),
}

impl Failure {
    pub fn status(&self) -> u8 {
        match self {
            Failure::Fault(fault) => fault.status(),
            Failure::BadLine { number, .. } => Outcome::BadLine(*number).status(),
            Failure::Options(number) => Outcome::Options(*number).status(),
            Failure::Snapshot(checked) => checked.status(),
            Failure::Misused(_) => 2,
            Failure::Unplaced(_) => 1,
            Failure::File(_) => 3,
        }
    }
}

impl Display for Failure {
    fn fmt<W: fmt::Write>(&self, f: &mut Formatter<W>) -> fmt::Result {
        match self {
            Failure::Fault(fault) => f.write_str(fault.words()),
            Failure::BadLine { number, expected } => write!(f, "line {number}: {expected}"),
            Failure::Options(number) => {
                let words = options_words(*number);
                write!(f, "options {number}: {words}")
            }
            Failure::Snapshot(checked) => write!(f, "{checked}"),
            Failure::Misused(words) => f.write_str(words),
            Failure::Unplaced(words) | Failure::File(words) => f.write_str(words.as_str()),
        }
    }
}

impl From<AllocError> for Failure {
    fn from(_why: AllocError) -> Failure {
        Failure::Fault(ReplayFault::Memory)
    }
}

impl<T: Drop> From<AllocFailed<T>> for Failure {
    fn from(_why: AllocFailed<T>) -> Failure {
        Failure::Fault(ReplayFault::Memory)
    }
}

impl From<io::Error> for Failure {
    fn from(_why: io::Error) -> Failure {
        Failure::Fault(ReplayFault::Read)
    }
}

impl From<ReplayFault> for Failure {
    fn from(why: ReplayFault) -> Failure {
        Failure::Fault(why)
    }
}

impl From<RunFault> for Failure {
    fn from(why: RunFault) -> Failure {
        match why {
            RunFault::Options(OptionsFault::Memory) | RunFault::Memory => {
                Failure::Fault(ReplayFault::Memory)
            }
            RunFault::Options(fault) => Failure::Options(fault.number()),
        }
    }
}

impl From<ReadFault> for Failure {
    fn from(why: ReadFault) -> Failure {
        match why {
            ReadFault::Unreadable => Failure::Snapshot(Checked::Unreadable),
            ReadFault::Memory => Failure::Fault(ReplayFault::Memory),
        }
    }
}

impl From<RestoreFault> for Failure {
    fn from(why: RestoreFault) -> Failure {
        match why {
            RestoreFault::Memory => Failure::Fault(ReplayFault::Memory),
            fault => Failure::Snapshot(Checked::Broken(fault.number())),
        }
    }
}

/// The fault of options that has this number, in words.
fn options_words(number: u32) -> &'static str {
    match number {
        1 => "a side of the size is out of range",
        2 => "the area is too large",
        3 => "an alignment is below 1",
        4 => "the number of columns is below 1",
        7 => "there may be no page",
        _ => "a column, rounded down to the alignment, would be 0 wide",
    }
}
