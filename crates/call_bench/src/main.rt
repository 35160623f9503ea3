//! Makes the calls of a script and nothing else: the script of standard input is read once, and then all of its calls
//! are made on a new atlas, once for each word of the arguments. In a round `saved`, `restored` or `drawn` that is done with
//! the atlas in the end. No reply is made, and what is written in the end is how many rectangles were given.
//!
//! `bench/calls` counts its instructions: two rounds less one are the calls alone.
#![tactic(auto)]

mod commanded;

use anyhow::{Context, Result};
use commanded::Commanded;
use etagere::{AllocId, AtlasAllocator, BucketedAtlasAllocator};
use run_scripts::commands::{AtlasCommand, BucketedCommand};
use run_scripts::reading::read_all;
use run_scripts::script::{Commands, Script, read_script};
use std::alloc::Global;
use std::env;

fn main(rt: HostRuntime) -> Result<()> {
    let input = read_all(rt.alloc(), &mut rt.reader())?;
    let script = read_script(rt.alloc(), input.as_slice())
        .ok()
        .context("no script")?;
    let mut ids = Vec::new(rt.alloc());
    for round in env::args(&rt)?.skip(1) {
        ids = one_round(rt.alloc(), &script, round.as_str())?;
    }
    println!(rt; "{} given", ids.iter().flatten().count())?;
    Ok(())
}

/// The ids of what each command was given.
type Given = Vec<Option<AllocId>>;

/// Makes all calls of a script on a new atlas.
fn one_round(alloc: Global, script: &Script, round: &str) -> Result<Given> {
    match &script.commands {
        Commands::OfShelves(commands) => of_shelves(alloc, script, commands.as_slice(), round),
        Commands::OfBuckets(commands) => of_buckets(alloc, script, commands.as_slice(), round),
    }
}

/// Never inlined, as the next one: a function clears what it may need as it is called, and an atlas of buckets is large.
#[inline(never)]
fn of_shelves(
    alloc: Global,
    script: &Script,
    commands: &[AtlasCommand],
    round: &str,
) -> Result<Given> {
    let mut atlas = AtlasAllocator::with_options(alloc, script.size, &script.options)?;
    call_and_end(alloc, &mut atlas, commands, round)
}

#[inline(never)]
fn of_buckets(
    alloc: Global,
    script: &Script,
    commands: &[BucketedCommand],
    round: &str,
) -> Result<Given> {
    let mut atlas = BucketedAtlasAllocator::with_options(alloc, script.size, &script.options)?;
    call_and_end(alloc, &mut atlas, commands, round)
}

fn call_and_end<A: Commanded>(
    alloc: Global,
    atlas: &mut A,
    commands: &[A::Command],
    round: &str,
) -> Result<Given> {
    let ids = call_all(alloc, atlas, commands)?;
    end_round(alloc, atlas, round)?;
    Ok(ids)
}

/// Does with the atlas what the round is named for. Never inlined: else the calls before it take more.
#[inline(never)]
fn end_round<A: Commanded>(alloc: Global, atlas: &A, round: &str) -> Result<()> {
    match round {
        "saved" => atlas.save(),
        "restored" => atlas.restore(alloc),
        "drawn" => atlas.draw(),
        _ => Ok(()),
    }
}

/// Makes the calls of the commands.
fn call_all<A: Commanded>(alloc: Global, atlas: &mut A, commands: &[A::Command]) -> Result<Given> {
    let mut ids = Vec::with_capacity(alloc, commands.len())?;
    for command in commands {
        let id = atlas.call(*command, ids.as_slice())?;
        ids.push(id)?;
    }
    Ok(ids)
}
