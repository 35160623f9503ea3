//! The keys of a cache: which there are, in which order they were used, and which of them in the present frame.
//!
//! Definitions: `Keys` for what the clauses say, `Private.Stamps` for what the fields keep.

ghost use Rattle.std.specs.Prelude.{◌≡◌, ◌<◌, ◌≤◌, None, is_some, nat_eq, length, map, option_map, IfOk, OnOk, OnErr};
ghost use Rattle.std.specs.Map.{lookup};
ghost use Rattle.std.specs.NonZero.{non_zero_usize_get};
ghost use Rattle.lru.specs.LruCache as lru;
ghost use Rattle.glyph_shelf.specs.UsedKeys.Private.Stamps.{unstamped};
ghost use Rattle.glyph_shelf.specs.UsedKeys.Keys.{KeysState, entered, frame_uses, framed, looked, no_keys, of_cap, rectangle_in, without, without_last};

use crate::used_keys::stamps::{Entry, next_frame, put_first, stamped_first, use_in};
use etagere_base::{Allocation, Rectangle};
use lru::LruCache;
use std::alloc::{AllocError, Global};
use std::marker::Model;
use std::num::NonZeroUsize;

/// For so many keys at most there is room from the start.
const MOST_AHEAD: usize = 16384;

/// Keys with what is allocated for them, the most recently used first.
#[derive(Drop)]
pub struct UsedKeys {
    entries: LruCache<u64, Entry>,
    frame: u64,
}

impl Model for UsedKeys {
    ghost use Rattle.glyph_shelf.specs.UsedKeys.Keys.{KeysState};

    ghost Value = { KeysState };

    ghost use Rattle.glyph_shelf.specs.UsedKeys.Private.Inside.{AreStamped, keys_state};

    ghost view = { keys_state };

    ghost invariant = { AreStamped };
}

impl UsedKeys {
    /// No keys, of which there may be so many; no frame has begun. Takes memory for a table of them, unless they are very
    /// many: then it grows as they come.
    pub fn new(alloc: Global, cap: NonZeroUsize) -> Result<UsedKeys, AllocError>
        ensures { IfOk result (λ keys. keys ≡ no_keys (non_zero_usize_get cap)) }
    {
        let entries = if cap.get() <= MOST_AHEAD {
            LruCache::new(alloc, cap)?
        } else {
            LruCache::sparse(alloc, cap)?
        };
        Ok(UsedKeys { entries, frame: 0 })
    }

    /// How many keys there are.
    pub fn len(&self) -> usize
        ensures len { result ≡ length self.now.entries }
        ensures few { length self.now.entries ≤ self.now.cap }
    {
        self.entries.len()
    }

    /// How many keys there may be.
    pub fn cap(&self) -> NonZeroUsize
        ensures { non_zero_usize_get result ≡ self.now.cap }
    {
        self.entries.cap()
    }

    /// The rectangle of a key; none where it isn't there. The order stays.
    pub fn peek(&self, key: u64) -> Option<Rectangle>
        ensures { result ≡ rectangle_in self.now.entries key }
    {
        let Some(entry) = self.entries.peek(&key) else {
            return None;
        };
        Some(entry.allocation.rectangle)
    }

    /// The rectangle of a key, which is used; none where it isn't there. Takes no memory.
    #[inline(always)]
    pub fn look(&mut self, key: u64) -> Option<Rectangle>
        ensures value { result ≡ rectangle_in self.old.entries key }
        ensures looked { self.new ≡ looked self.old key }
    {
        use_in(&mut self.entries, key, self.frame)
    }

    /// Puts a new key in front, which is used. After an `Err`, which comes where there was no memory, nothing has
    /// changed.
    pub fn enter(&mut self, key: u64, allocation: Allocation) -> Result<(), AllocError>
        requires new { lookup (nat_eq key) self.old.entries ≡ None }
        requires room { length self.old.entries < self.old.cap }
        ensures ok { OnOk result (self.new ≡ entered self.old key allocation) }
        ensures err { OnErr result (self.new ≡ self.old) }
    {
        let frame = self.frame;
        put_first(&mut self.entries, key, Entry { allocation, frame })
    }

    /// Puts a new key, which is used, in front of full keys, of which the least recently used goes. After an `Err`,
    /// which comes where there was no memory, nothing has changed.
    pub fn enter_for_last(&mut self, key: u64, allocation: Allocation) -> Result<(), AllocError>
        requires new { lookup (nat_eq key) self.old.entries ≡ None }
        requires full { length self.old.entries ≡ self.old.cap }
        ensures ok { OnOk result (self.new ≡ entered (without_last self.old) key allocation) }
        ensures err { OnErr result (self.new ≡ self.old) }
    {
        let entry = Entry {
            allocation,
            frame: self.frame,
        };
        put_first(&mut self.entries, key, entry)
    }

    /// Takes a key out, and gives what was allocated for it; none where it isn't there.
    pub fn remove(&mut self, key: u64) -> Option<Allocation>
        ensures value { result ≡ lookup (nat_eq key) self.old.entries }
        ensures removed { self.new ≡ without self.old key }
    {
        let Some(entry) = self.entries.pop(&key) else {
            return None;
        };
        Some(entry.allocation)
    }

    /// Takes the least recently used key out; none where there is no key.
    pub fn pop_last(&mut self) -> Option<(u64, Allocation)>
        ensures value { result ≡ lru.last_entry self.old.entries }
        ensures popped { self.new ≡ without_last self.old }
    {
        let Some((key, entry)) = self.entries.pop_lru() else {
            return None;
        };
        Some((key, entry.allocation))
    }

    /// The least recently used key with what is allocated for it; none where there is no key. The order stays.
    pub fn last(&self) -> Option<(u64, Allocation)>
        ensures { result ≡ lru.last_entry self.now.entries }
    {
        let (key, entry) = self.entries.peek_lru()?;
        Some((*key, entry.allocation))
    }

    /// The least recently used key with its rectangle; none where there is no key. The order stays.
    pub fn peek_last(&self) -> Option<(u64, Rectangle)>
        ensures { result
            ≡ option_map (λ entry. (entry.0, entry.1.rectangle)) (lru.last_entry self.now.entries) }
    {
        let Some((key, entry)) = self.entries.peek_lru() else {
            return None;
        };
        Some((*key, entry.allocation.rectangle))
    }

    /// Takes all keys out; no frame has begun.
    pub fn clear(&mut self)
        ensures { self.new ≡ no_keys self.old.cap }
    {
        self.entries.clear();
        self.frame = 0;
    }

    /// Sets how many keys there may be.
    pub fn set_cap(&mut self, cap: NonZeroUsize)
        requires { length self.old.entries ≤ non_zero_usize_get cap }
        ensures { self.new ≡ of_cap self.old (non_zero_usize_get cap) }
    {
        self.entries.resize(cap);
    }

    /// Begins a frame, in which no key was used.
    pub fn begin_frame(&mut self)
        ensures { self.new ≡ framed self.old }
    {
        self.frame = next_frame(&mut self.entries, self.frame);
    }

    /// Whether a frame has begun.
    pub fn has_frame(&self) -> bool
        ensures { result ≡ is_some self.now.uses }
    {
        self.frame != 0
    }

    /// How many keys were used in the present frame: the first ones. Goes through them once.
    pub fn used_in_frame(&self) -> usize
        ensures uses { result ≡ frame_uses self.now }
        ensures few { result ≤ length self.now.entries }
    {
        if self.frame == 0 {
            return 0;
        }
        stamped_first(&self.entries, self.frame)
    }

    /// The entries, the most recently used first.
    pub fn iter(&self) -> lru::Iter<'_, u64, Entry>
        ensures { unstamped result ≡ self.now.entries }
    {
        self.entries.iter()
    }
}
