//! What is kept under a key, and how the least recently used entries come out.
//!
//! Definition: `Private.Evicting`.

ghost use Rattle.std.specs.Prelude.{◌≡◌, ◌-◌, ◌<◌, ◌≤◌, [], ◌∷◌, None, Some, IfErr, IsSome, OnErr, OnOk, drop, length, option_map, reverse, slice_get, take, vec_capacity};
ghost use Rattle.std.specs.List.{IsDistinct};
ghost use Rattle.std.specs.Map.{keys_of, lookup, remove_entry};
ghost use Rattle.lru.specs.LruCache.{lru_cache, promoted, put_entries};
ghost use Rattle.glyph_map.specs.Private.Evicting.{unticketed};

use lru::LruCache;
use std::hash::Hash;

/// A value beside the number by which the cache knows its key.
#[derive(Drop)]
pub struct Ticketed<V> {
    pub ticket: u64,
    pub value: V,
}

/// Takes so many entries out, the least recently used first, into a list that has room for them.
pub(crate) fn take_last<K: Eq + Hash + Drop, V: Drop>(
    entries: &mut LruCache<K, Ticketed<V>>,
    count: usize,
    taken: &mut Vec<(K, V)>,
)
    requires few { count ≤ length entries.old.entries }
    requires none { taken.old.items ≡ [] }
    requires room { count ≤ vec_capacity taken.old }
    ensures left { entries.new
        ≡ lru_cache (take (length entries.old.entries - count) entries.old.entries) entries.old.cap }
    ensures taken { taken.new.items ≡ take count (reverse (unticketed entries.old.entries)) }
    ensures keys { IsDistinct K.eq (keys_of entries.new.entries) }
{
    for gone in 0..count {
        let Some((key, Ticketed { ticket: _, value })) = entries.pop_lru() else {
            unreachable!()
        };
        taken.push_reserved((key, value));
    }
    know_distinct(entries);
}

/// Puts a new key in front. After an `Err`, which comes where there was no memory, nothing has changed, and key and value
/// come back.
pub(crate) fn put_first<K: Eq + Hash + Drop, V: Drop>(
    entries: &mut LruCache<K, Ticketed<V>>,
    key: K,
    entry: Ticketed<V>,
) -> Result<(), (K, V)>
    requires new { lookup (K.eq key) entries.old.entries ≡ None }
    requires room { length entries.old.entries < entries.old.cap }
    ensures ok { OnOk result (entries.new
        ≡ lru_cache ((key, entry) ∷ entries.old.entries) entries.old.cap) }
    ensures err { OnErr result (entries.new ≡ entries.old) }
    ensures returned { IfErr result (λ pair. pair ≡ (key, entry.value)) }
    ensures keys { IsDistinct K.eq (keys_of entries.new.entries) }
{
    let outcome = entries.put(key, entry);
    know_distinct(entries);
    match outcome {
        Ok(_) => Ok(()),
        Err(refused) => {
            let (key, Ticketed { ticket: _, value }) = refused.value;
            Err((key, value))
        }
    }
}

/// Takes the first entry out, of some.
pub(crate) fn take_first<K: Eq + Hash + Drop, V: Drop>(
    entries: &mut LruCache<K, Ticketed<V>>,
) -> (K, V)
    requires { 1 ≤ length entries.old.entries }
    ensures left { entries.new ≡ lru_cache (drop 1 entries.old.entries) entries.old.cap }
    ensures taken { Some result ≡ slice_get (unticketed entries.old.entries) 0 }
    ensures keys { IsDistinct K.eq (keys_of entries.new.entries) }
{
    let Some((key, Ticketed { ticket: _, value })) = entries.pop_mru() else {
        unreachable!()
    };
    know_distinct(entries);
    (key, value)
}

/// Keeps another entry under a key that is there, in front, and gives the value back that was there, with the key as it
/// was given.
pub(crate) fn revalue<K: Eq + Hash + Drop, V: Drop>(
    entries: &mut LruCache<K, Ticketed<V>>,
    key: K,
    entry: Ticketed<V>,
) -> (K, V)
    requires { IsSome (lookup (K.eq key) entries.old.entries) }
    ensures entries { entries.new
        ≡ lru_cache (put_entries K.eq entries.old key entry) entries.old.cap }
    ensures old { Some result
        ≡ option_map (λ old. (key, old.value)) (lookup (K.eq key) entries.old.entries) }
    ensures keys { IsDistinct K.eq (keys_of entries.new.entries) }
{
    let displaced = entries.push(key, entry).unwrap();
    know_distinct(entries);
    let Some((key, Ticketed { ticket: _, value })) = displaced else {
        unreachable!()
    };
    (key, value)
}

/// Moves the entry of a key to the front, if it is there.
pub(crate) fn promote<K: Eq + Hash, V>(entries: &mut LruCache<K, Ticketed<V>>, key: &K)
    ensures entries { entries.new
        ≡ lru_cache (promoted (K.eq key.now) entries.old.entries) entries.old.cap }
    ensures keys { IsDistinct K.eq (keys_of entries.new.entries) }
{
    entries.promote(key);
    know_distinct(entries);
}

/// Takes the entry of a key out; none where the key isn't there.
pub(crate) fn take<K: Eq + Hash + Drop, V>(
    entries: &mut LruCache<K, Ticketed<V>>,
    key: &K,
) -> Option<Ticketed<V>>
    ensures value { result ≡ lookup (K.eq key.now) entries.old.entries }
    ensures entries { entries.new
        ≡ lru_cache (remove_entry (K.eq key.now) entries.old.entries) entries.old.cap }
    ensures keys { IsDistinct K.eq (keys_of entries.new.entries) }
{
    let taken = entries.pop(key);
    know_distinct(entries);
    taken
}

/// No key stands twice among entries: their length says so.
pub(crate) fn know_distinct<K: Eq + Hash, V>(entries: &LruCache<K, Ticketed<V>>)
    ensures { IsDistinct K.eq (keys_of entries.now.entries) }
{
    entries.len();
}
