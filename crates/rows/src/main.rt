//! Makes the calls of standard input, one a line, and writes a line for each answer. `tests/rows/run` writes the calls of
//! its rows here, and compares the answers.
//!
//! The argument is the kind of what is called: `atlas`, `bucketed`, `cache`, `pages`, `padded`, `padded_cache`,
//! `paged_cache`, `keyed` or `map`. There are two slots for such a one, and a line is the number of a slot, 0 or 1, the
//! call, and its words. With `run` or `stream` standard input is a script.
//!
//! `tests/refused_memory/run` refuses memory to the calls of rows.
#![tactic(auto)]

mod keyed;
mod paged_caches;
mod runs;

use crate::keyed::CalledKeys;
use crate::paged_caches::CalledPagedCache;
use anyhow::{Context, Result, bail};
use row_atlases::buckets::CalledBucketedAtlas;
use row_caches::caches::CalledCache;
use row_caches::maps::CalledMap;
use row_caches::padded_caches::CalledPaddedCache;
use row_calls::slots::{Called, Slots, answer};
use row_shelves::padded_pages::CalledPaddedPages;
use row_shelves::pages::CalledPages;
use row_shelves::shelves::CalledAtlas;
use std::env;
use std::io::{BufRead, BufReader};

fn main(rt: HostRuntime) -> Result<()> {
    let kind = env::args(&rt)?.nth(1).context("no kind")?;
    answer_kind(&rt, kind.as_str())
}

fn answer_kind(rt: &HostRuntime, kind: &str) -> Result<()> {
    match kind {
        "atlas" => answer_all::<CalledAtlas, _>(rt),
        "bucketed" => answer_all::<CalledBucketedAtlas, _>(rt),
        "cache" => answer_all::<CalledCache, _>(rt),
        "pages" => answer_all::<CalledPages, _>(rt),
        "padded" => answer_all::<CalledPaddedPages, _>(rt),
        "padded_cache" => answer_all::<CalledPaddedCache, _>(rt),
        "paged_cache" => answer_all::<CalledPagedCache, _>(rt),
        "keyed" => answer_all::<CalledKeys, _>(rt),
        "map" => answer_all::<CalledMap, _>(rt),
        "run" => runs::run(rt),
        "stream" => runs::stream(rt),
        _ => bail!("no such kind"),
    }
}

/// Answers each line.
fn answer_all<C: Called + Drop, R: Input + Print + AllocGlobal>(rt: &R) -> Result<()> {
    answer_lines(rt, &mut Slots::<C>::new())
}

fn answer_lines<C: Called + Drop, R: Input + Print + AllocGlobal>(
    rt: &R,
    slots: &mut Slots<C>,
) -> Result<()> {
    for line in BufReader::new(rt.alloc(), rt.reader())?.lines(rt.alloc()) {
        answer(rt, slots, line?.as_str())?;
    }
    Ok(())
}
