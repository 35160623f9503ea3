//! What becomes of stamped entries, in the order of use. Frames are numbered from 1; what is stamped with 0 was last used
//! before there was one.
//!
//! Definition: `Private.Stamps`.

ghost use Rattle.std.specs.Prelude.{◌≡◌, ◌≤◌, ◌-◌, ◌<◌, ◌∷◌, None, nat_eq, length, map, take, OnOk, OnErr};
ghost use Rattle.std.specs.Map.{lookup};
ghost use Rattle.lru.specs.LruCache as lru;
ghost use Rattle.glyph_shelf.specs.UsedKeys.Keys.{rectangle_in};
ghost use Rattle.glyph_shelf.specs.UsedKeys.Private.Stamps as spec;
ghost use Rattle.glyph_shelf.specs.UsedKeys.Private.Stamps.{AreFalling, turned, unstamped, with_stamp};

use etagere_base::{Allocation, Rectangle};
use lru::LruCache;
use std::alloc::AllocError;

/// What is kept of a key: what is allocated for it, and the number of the frame in which it was last used.
#[derive(Clone, Copy)]
pub struct Entry {
    pub allocation: Allocation,
    pub frame: u64,
}

/// Puts a new key in front. Where there is no room for it, the last one goes.
pub(crate) fn put_first(
    entries: &mut LruCache<u64, Entry>,
    key: u64,
    entry: Entry,
) -> Result<(), AllocError>
    requires { lookup (nat_eq key) entries.old.entries ≡ None }
    ensures ok { OnOk result (entries.new
        ≡ lru.lru_cache ((key, entry) ∷ take (entries.old.cap - 1) entries.old.entries) entries.old.cap) }
    ensures err { OnErr result (entries.new ≡ entries.old) }
{
    entries.put(key, entry)?;
    Ok(())
}

/// The rectangle of a key, which goes to the front and gets the stamp of a frame; none where it isn't there.
#[inline(always)]
pub(crate) fn use_in(entries: &mut LruCache<u64, Entry>, key: u64, frame: u64) -> Option<Rectangle>
    ensures value { result ≡ rectangle_in (unstamped entries.old.entries) key }
    ensures entries { entries.new
        ≡ lru.lru_cache (spec.used_in frame key entries.old.entries) entries.old.cap }
{
    let Some(entry) = entries.get_mut(&key) else {
        return None;
    };
    entry.frame = frame;
    Some(entry.allocation.rectangle)
}

/// Takes the stamps off all entries. Goes through them once.
fn forget_frames(entries: &mut LruCache<u64, Entry>)
    ensures { entries.new ≡ lru.lru_cache (map (with_stamp 0) entries.old.entries) entries.old.cap }
{
    for turn in 0..entries.len() {
        turn_one(entries);
    }
}

/// The first entry goes to the end, without its stamp.
fn turn_one(entries: &mut LruCache<u64, Entry>)
    requires { 1 ≤ length entries.old.entries }
    ensures { entries.new ≡ lru.lru_cache (turned entries.old.entries) entries.old.cap }
{
    let Some((key, _)) = entries.peek_mru() else {
        unreachable!()
    };
    let key = *key;
    use_in(entries, key, 0);
    entries.demote(&key);
}

/// The number of the next frame, in which no entry was used.
pub(crate) fn next_frame(entries: &mut LruCache<u64, Entry>, frame: u64) -> u64
    requires { AreFalling frame entries.old.entries }
    ensures begun { 1 ≤ result }
    ensures unused { AreFalling (result - 1) entries.new.entries }
    ensures entries { unstamped entries.new.entries ≡ unstamped entries.old.entries }
    ensures cap { entries.new.cap ≡ entries.old.cap }
{
    if frame < u64::MAX {
        return frame + 1;
    }
    forget_frames(entries);
    1
}

/// How many of the first entries have the stamp of a frame.
pub(crate) fn stamped_first(entries: &LruCache<u64, Entry>, frame: u64) -> usize
    ensures count { result ≡ spec.stamped_first frame entries.now.entries }
    ensures few { result ≤ length entries.now.entries }
{
    let mut rest = entries.iter();
    for count in 0..entries.len() {
        let Some((_, entry)) = rest.next() else {
            unreachable!()
        };
        if entry.frame != frame {
            return count;
        }
    }
    entries.len()
}
