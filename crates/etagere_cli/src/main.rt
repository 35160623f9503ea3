//! Looks into traffic that was recorded as a script, or at a saved atlas: explains what was refused, counts, saves, and
//! goes on from what was saved; and packs a list of sizes. What is told is the library's; only words and their layout are
//! decided here.
//!
//! All that is written is made first, and goes out at once: after a fault nothing was written.
#![tactic(auto)]

mod arguments;
mod counting;
mod explaining;
mod input;
mod output;
mod progress;
mod resuming;
mod saving;
mod stats;

use crate::arguments::program;
use crate::explaining::explain;
use crate::input::read_named;
use crate::output::{Target, write_to};
use crate::progress::Progress;
use crate::resuming::{resume, snapshot_of};
use crate::saving::save;
use atlas_pages::PageOptions;
use clap::error::ErrorKind;
use clap::{ArgMatches, Error};
use etagere::AtlasSnapshot;
use run_scripts::faults::ReplayFault;
use std::alloc::Global;
use std::env;
use std::io::IsTerminal;
use std::process::{self, ExitCode};
use std::rt::{Clock, Env, Files};
use tool_answers::ending::{Answer, Failure};
use tool_answers::{asked_pages, pack_list, watch};

fn main(rt: HostRuntime) -> ExitCode {
    let host = Host {
        process: process::id(rt.process()),
        is_terminal: rt.stderr().is_terminal(),
    };
    match run(&rt, host) {
        Ok(code) => code,
        Err(failure) => {
            let status = failure.status();
            let _ = rt.eprintln(failure);
            ExitCode::from(status)
        }
    }
}

/// What the program is run by.
#[derive(Clone, Copy)]
struct Host {
    /// The number of this process.
    process: u32,
    /// Whether standard error is a terminal.
    is_terminal: bool,
}

/// Runs what the arguments ask for.
fn run(
    rt: &(impl Env + Files + Clock + Input + Print + Eprint + AllocGlobal),
    host: Host,
) -> Result<ExitCode, Failure> {
    let alloc = rt.alloc();
    let words: Vec<String> = env::args(rt)?.collect(alloc)?;
    match program(alloc)?.try_get_matches_from(words.as_slice()) {
        Ok(matches) => run_matched(rt, host, &matches),
        Err(error) => unparsed(rt, &error),
    }
}

/// Runs the subcommand.
fn run_matched(
    rt: &(impl Files + Clock + Input + Eprint + Print + AllocGlobal),
    host: Host,
    matches: &ArgMatches<'_>,
) -> Result<ExitCode, Failure> {
    let Some((name, given)) = matches.subcommand() else {
        return Err(Failure::Misused("usage: etagere COMMAND (etagere --help lists them)"));
    };
    let answer = answered_in_progress(rt, host, name, given)?;
    let target = Target {
        path: given.get_str("output"),
        process: host.process,
    };
    write_to(rt, target, answer.bytes.as_slice())?;
    Ok(ExitCode::from(answer.status))
}

/// What the subcommand answers, while its progress is shown.
fn answered_in_progress(
    rt: &(impl Files + Clock + Input + Eprint + AllocGlobal),
    host: Host,
    name: &str,
    given: &ArgMatches<'_>,
) -> Result<Answer, Failure> {
    let mut progress = Progress::new(rt, host.is_terminal);
    let answer = answered(rt, name, given, &mut progress);
    progress.end();
    answer
}

/// Prints help, or what is wrong with the arguments.
fn unparsed(rt: &(impl Print + Eprint), error: &Error) -> Result<ExitCode, Failure> {
    if had_no_memory(error) {
        return Err(Failure::Fault(ReplayFault::Memory));
    }
    let is_printed = print(rt, error);
    if error.use_stderr() {
        Ok(ExitCode::from(2))
    } else if is_printed {
        Ok(ExitCode::SUCCESS)
    } else {
        Err(Failure::Fault(ReplayFault::Write))
    }
}

/// Whether there was no memory for reading the arguments.
fn had_no_memory(error: &Error) -> bool {
    matches!(error.kind(), ErrorKind::OutOfMemory)
}

/// Whether an error, or help, was printed.
fn print(rt: &(impl Print + Eprint), error: &Error) -> bool {
    error.print(rt).is_ok()
}

/// What the subcommand answers.
fn answered<R: Clock + Eprint>(
    rt: &(impl Files + Input + AllocGlobal),
    name: &str,
    given: &ArgMatches<'_>,
    progress: &mut Progress<'_, R>,
) -> Result<Answer, Failure> {
    match name {
        "resume" => resumed(rt, given, progress),
        "pack" => packed(rt, given, progress),
        _ => {
            let input = read_named(rt, given, "FILE", progress)?;
            told(rt.alloc(), name, given, input.as_slice())
        }
    }
}

fn resumed<R: Clock + Eprint>(
    rt: &(impl Files + Input + AllocGlobal),
    given: &ArgMatches<'_>,
    progress: &mut Progress<'_, R>,
) -> Result<Answer, Failure> {
    let snapshot = named_snapshot(rt, given, progress)?;
    let input = read_named(rt, given, "FILE", progress)?;
    resume(
        rt.alloc(),
        snapshot,
        input.as_slice(),
        given.get_flag("live"),
    )
}

fn named_snapshot<R: Clock + Eprint>(
    rt: &(impl Files + Input + AllocGlobal),
    given: &ArgMatches<'_>,
    progress: &mut Progress<'_, R>,
) -> Result<AtlasSnapshot, Failure> {
    let saved = read_named(rt, given, "SNAPSHOT", progress)?;
    snapshot_of(rt.alloc(), saved.as_slice())
}

fn packed<R: Clock + Eprint>(
    rt: &(impl Files + Input + AllocGlobal),
    given: &ArgMatches<'_>,
    progress: &mut Progress<'_, R>,
) -> Result<Answer, Failure> {
    let options = pages_of(given)?;
    let input = read_named(rt, given, "FILE", progress)?;
    pack_list(
        rt.alloc(),
        &options,
        input.as_slice(),
        given.get_flag("json"),
    )
}

/// The pages that the arguments ask for.
fn pages_of(given: &ArgMatches<'_>) -> Result<PageOptions, Failure> {
    let (width, height) = (given.get_str("W"), given.get_str("H"));
    asked_pages(
        width.unwrap_or(""),
        height.unwrap_or(""),
        given.get_str("pages"),
    )
    .ok_or(Failure::Misused("W, H and N are whole numbers of 32 bits, in digits"))
}

/// What the subcommand answers, where it takes one input.
fn told(
    alloc: Global,
    name: &str,
    given: &ArgMatches<'_>,
    input: &[u8],
) -> Result<Answer, Failure> {
    match name {
        "explain" => explain(alloc, input),
        "stats" => stats::stats(alloc, input, given),
        "save" => save(alloc, input),
        _ => watch(alloc, input),
    }
}
