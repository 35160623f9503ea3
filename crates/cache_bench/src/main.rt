//! Makes the calls of a cache's lines and nothing else: those of standard input are read once, and then all calls are made
//! on a new cache of glyph places, once for each word of the arguments. What is written in the end is how many rectangles
//! were given.
//!
//! `bench/calls` counts its instructions: two rounds less one are the calls alone.
#![tactic(auto)]

mod script;

use anyhow::Result;
use run_scripts::reading::read_all;
use script::CacheScript;
use std::env;

fn main(rt: HostRuntime) -> Result<()> {
    let input = read_all(rt.alloc(), &mut rt.reader())?;
    let script = CacheScript::read(rt.alloc(), str::from_utf8(input.as_slice())?)?;
    let mut given = 0;
    for _round in env::args(&rt)?.skip(1) {
        given = script.call_all(rt.alloc())?;
    }
    println!(rt; "{given} given")?;
    Ok(())
}
