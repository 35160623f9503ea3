//! Runs and streams of a script. What is written is what a replay of the script writes.

use anyhow::{Context, Result, bail};
use etagere::OptionsFault;
use etagere_run::{
    Reply, RunFault, StreamFault, run_atlas, run_bucketed, stream_atlas, stream_bucketed,
};
use run_scripts::reading::read_all;
use run_scripts::reply_text::line_of;
use run_scripts::script::{Commands, Script, read_script};
use run_scripts::short_text::ShortText;
use std::io::{self, Write};

/// Runs the script of standard input as a whole.
pub fn run(rt: &(impl Input + Print + AllocGlobal)) -> Result<()> {
    let script = script_of(rt)?;
    run_script(rt, &script)
}

fn run_script(rt: &(impl Print + AllocGlobal), script: &Script) -> Result<()> {
    match replies_of(rt, script) {
        Ok(replies) => Ok(say_all(rt, &replies)?),
        Err(RunFault::Options(fault)) => say_options(rt, fault),
        Err(RunFault::Memory) => bail!("no memory"),
    }
}

/// Streams the script of standard input.
pub fn stream(rt: &(impl Input + Print + AllocGlobal)) -> Result<()> {
    let script = script_of(rt)?;
    stream_script(rt, &script)
}

fn stream_script(rt: &(impl Print + AllocGlobal), script: &Script) -> Result<()> {
    match streamed(rt, script) {
        Ok(()) => Ok(()),
        Err(StreamFault::Options(fault)) => say_options(rt, fault),
        Err(StreamFault::Memory) => bail!("no memory"),
        Err(StreamFault::Write) => bail!("write fault"),
    }
}

fn script_of(rt: &(impl Input + AllocGlobal)) -> Result<Script> {
    let input = read_all(rt.alloc(), &mut rt.reader())?;
    read_script(rt.alloc(), input.as_slice())
        .ok()
        .context("no script")
}

fn replies_of(rt: &impl AllocGlobal, script: &Script) -> Result<Vec<Reply>, RunFault> {
    let (alloc, size, options) = (rt.alloc(), script.size, &script.options);
    match &script.commands {
        Commands::OfShelves(commands) => run_atlas(alloc, size, options, commands.as_slice()),
        Commands::OfBuckets(commands) => run_bucketed(alloc, size, options, commands.as_slice()),
    }
}

fn streamed(rt: &(impl Print + AllocGlobal), script: &Script) -> Result<(), StreamFault> {
    let (alloc, size, options) = (rt.alloc(), script.size, &script.options);
    let mut writer = io::writer(rt);
    match &script.commands {
        Commands::OfShelves(commands) => {
            stream_atlas(alloc, size, options, commands.as_slice(), &mut writer)
        }
        Commands::OfBuckets(commands) => {
            stream_bucketed(alloc, size, options, commands.as_slice(), &mut writer)
        }
    }
}

/// Writes the fault of options. Where memory runs out for a new atlas, the run ends.
fn say_options(rt: &impl Print, fault: OptionsFault) -> Result<()> {
    match fault {
        OptionsFault::Memory => bail!("no memory"),
        _ => Ok(println!(rt; "options {}", fault.number())?),
    }
}

/// Writes the lines of the replies of a run.
fn say_all(rt: &impl Print, replies: &[Reply]) -> io::Result<()> {
    let mut line = ShortText::new();
    let mut writer = io::writer(rt);
    for reply in replies {
        writer.write_all(line_of(reply, &mut line))?;
    }
    Ok(())
}
