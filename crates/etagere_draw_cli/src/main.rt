//! Draws the script or snapshot of standard input to standard output. What isn't a picture goes to standard error.
//! Statuses and words are the library's, so that nothing is decided here.
#![tactic(auto)]

use etagere_run::{Checked, Drawing, Outcome, ReplayFault, draw};
use std::fmt::Display;
use std::process::ExitCode;
use std::rt::Env;
use std::{env, io};

fn main(rt: HostRuntime) -> ExitCode {
    match has_arguments(&rt) {
        Ok(false) => draw_input(&rt),
        Ok(true) => say(&rt, "usage: etagere_draw", 2),
        Err(_) => fault(&rt, ReplayFault::Read),
    }
}

fn has_arguments(rt: &(impl Env + AllocGlobal)) -> io::Result<bool> {
    Ok(env::args(rt)?.len() > 1)
}

fn draw_input(rt: &(impl Input + Print + Eprint + AllocGlobal)) -> ExitCode {
    let mut reader = rt.reader();
    let mut writer = io::writer(rt);
    match draw(rt.alloc(), &mut reader, &mut writer) {
        Ok(Drawing::OfScript(Outcome::Done) | Drawing::OfSnapshot(Checked::Fine)) => {
            ExitCode::SUCCESS
        }
        Ok(drawing) => say(rt, drawing, drawing.status()),
        Err(why) => fault(rt, why),
    }
}

fn fault(rt: &impl Eprint, why: ReplayFault) -> ExitCode {
    say(rt, why.words(), why.status())
}

fn say(rt: &impl Eprint, words: impl Display + Drop, status: u8) -> ExitCode {
    let _ = rt.eprintln(words);
    ExitCode::from(status)
}
