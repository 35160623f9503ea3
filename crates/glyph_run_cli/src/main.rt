//! Replays the script of standard input on a cache of glyph places, to standard output. Statuses and words are the
//! library's.
#![tactic(auto)]

use glyph_run::replay_cache;
use run_scripts::faults::ReplayFault;
use std::io::{BufWriter, Write};
use std::process::ExitCode;
use std::rt::Env;
use std::{env, io};

fn main(rt: HostRuntime) -> ExitCode {
    match has_arguments(&rt) {
        Ok(false) => ended(&rt, replay_input(&rt)),
        Ok(true) => {
            let _ = rt.eprintln("usage: glyph_run");
            ExitCode::from(2)
        }
        Err(_) => ended(&rt, Err(ReplayFault::Read)),
    }
}

/// Whether there are arguments, of which the program knows none.
fn has_arguments(rt: &(impl Env + AllocGlobal)) -> io::Result<bool> {
    Ok(env::args(rt)?.skip(1).next().is_some())
}

/// The status of a replay that wrote its text. The library writes piece by piece, and here pieces are gathered.
fn replay_input(rt: &(impl Input + Print + AllocGlobal)) -> Result<u8, ReplayFault> {
    let gathering = BufWriter::new(rt.alloc(), io::writer(rt));
    let mut writer = gathering.map_err(|_| ReplayFault::Memory)?;
    let ended = replay_to(rt, &mut writer);
    // Dropped as it is, it would try once more to write what a failed write left.
    let _ = writer.into_parts();
    ended
}

/// The status of a replay that wrote its text to this writer, which was then flushed.
fn replay_to(rt: &(impl Input + AllocGlobal), writer: &mut impl Write) -> Result<u8, ReplayFault> {
    let outcome = replay_cache(rt.alloc(), &mut rt.reader(), writer)?;
    writer.flush().map_err(|_| ReplayFault::Write)?;
    Ok(outcome.status())
}

/// Says why nothing more was written, if so.
fn ended(rt: &impl Eprint, status: Result<u8, ReplayFault>) -> ExitCode {
    match status {
        Ok(status) => ExitCode::from(status),
        Err(why) => {
            let _ = rt.eprintln(why.words());
            ExitCode::from(why.status())
        }
    }
}
