//! Calls of a bucketed atlas.

use crate::atlases;
use crate::kinds::Atlas;
use etagere::{
    BucketedAtlasAllocator, BucketedRefusal, BucketedSnapshot, BucketedUsage, RestoreFault, Size,
    laws,
};
use row_calls::lines::{say, say_each, say_size, size_of};
use row_calls::slots::{Called, NotMade};
use std::alloc::Global;
use std::io;

/// A bucketed atlas that is called by lines.
#[derive(Drop)]
pub struct CalledBucketedAtlas(BucketedAtlasAllocator);

impl Called for CalledBucketedAtlas {
    fn made(alloc: Global, words: &str) -> Result<CalledBucketedAtlas, NotMade> {
        Ok(CalledBucketedAtlas(atlases::made(alloc, words)?))
    }

    fn copied(&self, _alloc: Global) -> Result<CalledBucketedAtlas, NotMade> {
        Ok(CalledBucketedAtlas(atlases::copied(&self.0)?))
    }

    fn saved(&self, alloc: Global) -> Option<String> {
        written(alloc, &self.0.saved().ok()?)
    }

    fn restored(alloc: Global, text: &str) -> Result<CalledBucketedAtlas, NotMade> {
        Ok(CalledBucketedAtlas(atlases::restored(alloc, read(alloc, text))?))
    }

    fn steps(alloc: Global, text: &str) -> Result<u64, NotMade> {
        steps_of(alloc, read(alloc, text).ok_or(NotMade::Unread)?)
    }

    fn answer(
        &mut self,
        rt: &(impl Print + AllocGlobal),
        call: &str,
        words: &str,
    ) -> io::Result<()> {
        let atlas = &mut self.0;
        match call {
            "refusal" => say_refusal(rt, refusal_of(atlas, size_of(words))),
            "usage" => say_usage(rt, &usage_of(atlas)),
            _ => atlases::answer(atlas, rt, call, words),
        }
    }
}

// What these calls promise ends in functions that promise nothing, so that it isn't gone through in what uses them.

fn written(alloc: Global, saved: &BucketedSnapshot) -> Option<String> {
    serde_json::to_string(alloc, saved).ok()
}

fn read(alloc: Global, text: &str) -> Option<BucketedSnapshot> {
    serde_json::from_str(alloc, text).ok()
}

fn steps_of(alloc: Global, saved: BucketedSnapshot) -> Result<u64, NotMade> {
    // Whatever it was, it becomes their number.
    let mut steps = u64::MAX;
    match laws::restore_bucketed(alloc, saved, &mut steps) {
        Err(RestoreFault::Memory) => Err(NotMade::NoMemory),
        _ => Ok(steps),
    }
}

fn refusal_of(atlas: &BucketedAtlasAllocator, size: Size) -> Option<BucketedRefusal> {
    atlas.refusal(size)
}

fn usage_of(atlas: &BucketedAtlasAllocator) -> BucketedUsage {
    atlas.usage()
}

/// Writes why a size has no place, by its number.
fn say_refusal(rt: &impl Print, refusal: Option<BucketedRefusal>) -> io::Result<()> {
    let Some(refusal) = refusal else {
        return say(rt, "none");
    };
    let number = refusal.number();
    match refusal {
        BucketedRefusal::NoRoom { widest } => println!(rt; "reason {number} widest {widest}"),
        _ => println!(rt; "reason {number}"),
    }
}

/// Writes each number of what an atlas tells of its shelves, buckets and items.
fn say_usage(rt: &impl Print, usage: &BucketedUsage) -> io::Result<()> {
    let numbers = [
        ("shelves ", usage.shelves),
        ("", usage.idle_shelves),
        ("buckets ", usage.buckets),
        ("", usage.idle_buckets),
        ("items ", usage.items),
        ("unused ", usage.unused_buckets),
    ];
    say_each(rt, &numbers)?;
    rt.print("largest ")?;
    say_size(rt, usage.largest_free)
}
