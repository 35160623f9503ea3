//! What is saved of a map, whose keys go by their positions; and keys and values for a map that is restored: each goes
//! under the number that its position in the snapshot has, or all come back.
//!
//! Definitions: `Saved` for the rules, `Private.Numbering` and `Private.Entering` for what stands under which number.

ghost use Rattle.std.specs.Prelude.{◌≡◌, ◌+◌, ◌<◌, ◌≤◌, ◌++◌, IfErr, IfOk, OnErr, OnOk, length, vec_capacity, vec_len};
ghost use Rattle.std.specs.List.{IsDistinct};
ghost use Rattle.std.specs.Map.{keys_of};
ghost use Rattle.lru.specs.LruCache.{lru_cache};
ghost use Rattle.glyph_map.specs.Private.Entering as entering;
ghost use Rattle.glyph_map.specs.Private.Entering.{ArePairsRefused, EntersLast, IsLastRefused, StandUnder};
ghost use Rattle.glyph_map.specs.Private.Evicting.{unticketed};
ghost use Rattle.glyph_map.specs.Private.Numbering.{numbered_from};

use crate::faults::{MapRestoreFault, NotRestored};
use crate::ticketed::{Ticketed, know_distinct, put_first};
use glyph_shelf::{CacheRestoreFault, GlyphCache, SavedKey};
use lru::LruCache;
use std::alloc::{AllocError, Global};
use std::hash::Hash;

/// Saved keys in the same order, with numbers from 0 on instead of the keys.
pub(crate) fn numbered(alloc: Global, saved: &[SavedKey]) -> Result<Vec<SavedKey>, AllocError>
    ensures { IfOk result (λ keys. keys.items ≡ numbered_from 0 saved.now) }
{
    let mut keys = Vec::with_capacity(alloc, saved.len())?;
    let mut rest = saved;
    while let Some((first, after)) = rest.split_first() {
        let key = keys.len() as u64;
        keys.push(SavedKey { key, id: first.id })?;
        rest = after;
    }
    Ok(keys)
}

/// The fault of a map of whose cache this is the fault.
pub(crate) fn cache_fault(fault: CacheRestoreFault) -> MapRestoreFault
    ensures { result ≡ entering.cache_fault fault }
{
    match fault {
        CacheRestoreFault::Memory => MapRestoreFault::Memory,
        _ => MapRestoreFault::Cache(fault),
    }
}

/// Pairs of a key and its value, in the order of a cache, under the numbers of its keys.
pub(crate) fn under_tickets<K: Eq + Hash + Drop, V: Drop>(
    alloc: Global,
    cache: &GlyphCache,
    pairs: Vec<(K, V)>,
) -> Result<LruCache<K, Ticketed<V>>, NotRestored<K, V>>
    requires { length pairs.items ≡ length cache.now.entries }
    ensures entered { IfOk result (StandUnder K.eq cache.now pairs.items) }
    ensures fault { IfErr result (λ refused. ArePairsRefused K.eq pairs.items refused.fault) }
    ensures returned { IfErr result (λ refused. refused.pairs.items ≡ pairs.items) }
{
    let Ok(mut entries) = LruCache::unbounded(alloc) else {
        return Err(NotRestored {
            pairs,
            fault: MapRestoreFault::Memory,
        });
    };
    let mut left = pairs;
    let mut tickets = cache.iter();
    while let Some((ticket, _)) = tickets.next_back() {
        if let Err(fault) = enter_last(&mut entries, &mut left, ticket) {
            give_back(&mut entries, &mut left);
            return Err(NotRestored { pairs: left, fault });
        }
    }
    know_distinct(&entries);
    Ok(entries)
}

/// Puts the last of pairs in front of entries, under a number. After a fault both are as they were.
fn enter_last<K: Eq + Hash + Drop, V: Drop>(
    entries: &mut LruCache<K, Ticketed<V>>,
    pairs: &mut Vec<(K, V)>,
    ticket: u64,
) -> Result<(), MapRestoreFault>
    requires some { 1 ≤ length pairs.old.items }
    requires room { length entries.old.entries < entries.old.cap }
    ensures entered { OnOk result
        (EntersLast ticket pairs.old.items entries.old pairs.new.items entries.new) }
    ensures fault { IfErr result (IsLastRefused K.eq pairs.old.items entries.old.entries) }
    ensures err { OnErr result ((pairs.new.items ≡ pairs.old.items) × (entries.new ≡ entries.old)) }
    ensures capacity { vec_capacity pairs.new ≡ vec_capacity pairs.old }
{
    let Some((key, value)) = pairs.pop() else {
        unreachable!()
    };
    if entries.contains(&key) {
        pairs.push_reserved((key, value));
        return Err(MapRestoreFault::SameKey(pairs.len() - 1));
    }
    if let Err(pair) = put_first(entries, key, Ticketed { ticket, value }) {
        pairs.push_reserved(pair);
        return Err(MapRestoreFault::Memory);
    }
    Ok(())
}

/// Takes all entries out, the most recently used first, behind pairs that have room for them.
fn give_back<K: Eq + Hash + Drop, V: Drop>(
    entries: &mut LruCache<K, Ticketed<V>>,
    pairs: &mut Vec<(K, V)>,
)
    requires { vec_len pairs.old + length entries.old.entries ≤ vec_capacity pairs.old }
    ensures { pairs.new.items ≡ pairs.old.items ++ unticketed entries.old.entries }
{
    while let Some((key, Ticketed { ticket: _, value })) = entries.pop_mru() {
        pairs.push_reserved((key, value));
    }
}
