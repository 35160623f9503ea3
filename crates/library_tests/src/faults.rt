//! Messages and numbers of faults. A message is the name of the variant; the numbers stand in the order in which faults
//! are tested.

use crate::assertions::holds_at;
use atlas_pages::{FewerPages, PagesFault};
use etagere::{AtlasGrowFault, GrowFault, OptionsFault, Refusal, RestoreFault, UnknownId};
use etagere_run::{ReplayFault, RunFault, StreamFault};
use glyph_shelf::GlyphFault;
use std::alloc::Global;
use std::fmt::Display;
use std::process::Abort;

/// A fault that is told by a number and by a message.
trait Told: Display {
    fn told_number(&self) -> u32;
}

impl Told for OptionsFault {
    fn told_number(&self) -> u32 {
        self.number()
    }
}

impl Told for UnknownId {
    fn told_number(&self) -> u32 {
        self.number()
    }
}

impl Told for AtlasGrowFault {
    fn told_number(&self) -> u32 {
        self.number()
    }
}

impl Told for GrowFault {
    fn told_number(&self) -> u32 {
        self.number()
    }
}

impl Told for RestoreFault {
    fn told_number(&self) -> u32 {
        self.number()
    }
}

impl Told for Refusal {
    fn told_number(&self) -> u32 {
        self.number()
    }
}

impl Told for RunFault {
    fn told_number(&self) -> u32 {
        self.number()
    }
}

impl Told for StreamFault {
    fn told_number(&self) -> u32 {
        self.number()
    }
}

impl Told for ReplayFault {
    fn told_number(&self) -> u32 {
        self.number()
    }
}

impl Told for GlyphFault {
    fn told_number(&self) -> u32 {
        self.number()
    }
}

impl Told for PagesFault {
    fn told_number(&self) -> u32 {
        self.number()
    }
}

/// The only fault of its kind.
impl Told for FewerPages {
    fn told_number(&self) -> u32 {
        1
    }
}

/// Each fault has its number and its message.
fn are_told<F: Told>(rt: &(impl AllocGlobal + Abort), table: &[(F, u32, &str)]) {
    for (fault, number, text) in table {
        holds_at(rt, is_told(rt.alloc(), fault, *number, text), text);
    }
}

fn is_told(alloc: Global, fault: &impl Told, number: u32, text: &str) -> bool {
    match fault.to_string(alloc) {
        Ok(said) => said.as_str() == text && fault.told_number() == number,
        Err(_) => false,
    }
}

#[test]
fn faults_of_atlases_are_numbered_in_the_order_of_their_tests(rt: HostRuntime) {
    let of_options = [
        (OptionsFault::Size, 1, "Size"),
        (OptionsFault::Area, 2, "Area"),
        (OptionsFault::Alignment, 3, "Alignment"),
        (OptionsFault::Columns, 4, "Columns"),
        (OptionsFault::ColumnTooNarrow, 5, "ColumnTooNarrow"),
        (OptionsFault::Memory, 6, "Memory"),
    ];
    are_told(&rt, &of_options);
    are_told(&rt, &[(UnknownId, 1, "UnknownId")]);
    are_told(&rt, &[(Refusal::TooLong, 2, "TooLong")]);
}

#[test]
fn faults_of_grow_are_numbered_in_the_order_of_their_tests(rt: HostRuntime) {
    let of_shelves = [
        (AtlasGrowFault::Size, 1, "Size"),
        (AtlasGrowFault::Smaller, 2, "Smaller"),
        (AtlasGrowFault::Area, 3, "Area"),
        (AtlasGrowFault::Records, 4, "Records"),
        (AtlasGrowFault::Memory, 5, "Memory"),
    ];
    are_told(&rt, &of_shelves);
    let of_buckets = [
        (GrowFault::Size, 1, "Size"),
        (GrowFault::Smaller, 2, "Smaller"),
        (GrowFault::Area, 3, "Area"),
        (GrowFault::Memory, 4, "Memory"),
    ];
    are_told(&rt, &of_buckets);
}

#[test]
fn faults_of_snapshots_have_the_numbers_of_their_rules(rt: HostRuntime) {
    let table = [
        (RestoreFault::Frame, 1, "Frame"),
        (RestoreFault::Counts, 2, "Counts"),
        (RestoreFault::Link, 3, "Link"),
        (RestoreFault::Shelves, 4, "Shelves"),
        (RestoreFault::Runs, 5, "Runs"),
        (RestoreFault::Neighbours, 6, "Neighbours"),
        (RestoreFault::FreeList, 7, "FreeList"),
        (RestoreFault::Sharing, 8, "Sharing"),
        (RestoreFault::Unused, 9, "Unused"),
        (RestoreFault::Space, 10, "Space"),
        (RestoreFault::Memory, 11, "Memory"),
    ];
    are_told(&rt, &table);
}

#[test]
fn faults_of_runs_streams_and_replays_are_numbered(rt: HostRuntime) {
    let of_runs = [
        (RunFault::Options(OptionsFault::Area), 1, "Options"),
        (RunFault::Memory, 2, "Memory"),
    ];
    are_told(&rt, &of_runs);
    let of_streams = [
        (StreamFault::Options(OptionsFault::Area), 1, "Options"),
        (StreamFault::Memory, 2, "Memory"),
        (StreamFault::Write, 3, "Write"),
    ];
    are_told(&rt, &of_streams);
    let of_replays = [
        (ReplayFault::Read, 1, "Read"),
        (ReplayFault::Write, 2, "Write"),
        (ReplayFault::Memory, 3, "Memory"),
    ];
    are_told(&rt, &of_replays);
}

#[test]
fn faults_of_caches_and_pages_are_numbered(rt: HostRuntime) {
    let of_caches = [
        (GlyphFault::TooLarge, 1, "TooLarge"),
        (GlyphFault::Memory(Vec::new(rt.alloc())), 2, "Memory"),
        (GlyphFault::FrameFull, 3, "FrameFull"),
    ];
    are_told(&rt, &of_caches);
    let of_pages = [
        (PagesFault::Options(OptionsFault::Columns), 4, "Columns"),
        (PagesFault::NoPages, 7, "NoPages"),
    ];
    are_told(&rt, &of_pages);
    are_told(&rt, &[(FewerPages, 1, "FewerPages")]);
}
