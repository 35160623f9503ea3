//! Replays the script of standard input to standard output, or checks the snapshot that it has.
//! Statuses and words are the library's: only what the arguments ask for is decided here.
#![tactic(auto)]

use etagere_run::{ReplayFault, check, replay};
use std::io::{BufWriter, Write};
use std::process::ExitCode;
use std::rt::Env;
use std::{env, io};

fn main(rt: HostRuntime) -> ExitCode {
    match asked(&rt) {
        Ok(Some(Task::Replay)) => ended(&rt, replay_input(&rt)),
        Ok(Some(Task::Check)) => ended(&rt, check_input(&rt)),
        Ok(None) => {
            let _ = rt.eprintln("usage: etagere_run [check]");
            ExitCode::from(2)
        }
        Err(_) => ended(&rt, Err(ReplayFault::Read)),
    }
}

/// What the program is to do.
#[derive(Clone, Copy, Debug)]
enum Task {
    Replay,
    Check,
}

/// What the arguments ask for, if anything.
fn asked(rt: &(impl Env + AllocGlobal)) -> io::Result<Option<Task>> {
    let mut arguments = env::args(rt)?.skip(1);
    let Some(word) = arguments.next() else {
        return Ok(Some(Task::Replay));
    };
    let is_check = word.as_str() == "check" && arguments.next().is_none();
    Ok(is_check.then_some(Task::Check))
}

/// The status of a replay that wrote its text. The library writes line by line, and here lines are gathered.
fn replay_input(rt: &(impl Input + Print + AllocGlobal)) -> Result<u8, ReplayFault> {
    let gathering = BufWriter::new(rt.alloc(), io::writer(rt));
    let mut writer = gathering.map_err(|_| ReplayFault::Memory)?;
    let ended = replay_to(rt, &mut writer);
    // Dropped as it is, it would try once more to write what a failed write left.
    let _ = writer.into_parts();
    ended
}

/// The status of a replay that wrote its text to this writer, which was then flushed.
fn replay_to(rt: &(impl Input + AllocGlobal), writer: &mut impl Write) -> Result<u8, ReplayFault> {
    let outcome = replay(rt.alloc(), &mut rt.reader(), writer)?;
    writer.flush().map_err(|_| ReplayFault::Write)?;
    Ok(outcome.status())
}

/// The status of a check that wrote its line.
fn check_input(rt: &(impl Input + Print + AllocGlobal)) -> Result<u8, ReplayFault> {
    let checked = check(rt.alloc(), &mut rt.reader(), &mut io::writer(rt))?;
    Ok(checked.status())
}

/// Says why nothing more was written, if so.
fn ended(rt: &impl Eprint, status: Result<u8, ReplayFault>) -> ExitCode {
    match status {
        Ok(status) => ExitCode::from(status),
        Err(why) => {
            let _ = rt.eprintln(why.words());
            ExitCode::from(why.status())
        }
    }
}
