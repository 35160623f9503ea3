//! Which keys a test refuses.
//!
//! Definition: `Private.Refusing`.

ghost use Rattle.std.specs.Prelude.{IfOk, OnErr, reverse};
ghost use Rattle.glyph_map.specs.Private.Evicting.{unticketed};
ghost use Rattle.glyph_map.specs.Private.Refusing.{Refuses};
ghost use Rattle.glyph_map.specs.Retaining.{RefusesSome};

use crate::ticketed::Ticketed;
use lru::LruCache;
use std::alloc::{AllocError, Global};
use std::hash::Hash;

/// Clones of the keys that a test refuses. It is asked of each key and its value, the least recently used first. An
/// `Err` comes only where it refuses some.
pub(crate) fn clones_of_refused<K: Eq + Hash + Clone, V, F: FnMut(&K, &V) -> bool>(
    alloc: Global,
    entries: &LruCache<K, Ticketed<V>>,
    mut keeps: F,
) -> Result<Vec<K>, AllocError>
    requires { F.IsAlwaysCallable keeps }
    ensures ok { IfOk result (λ clones.
        Refuses F.FnMut K.is_clone keeps (reverse (unticketed entries.now.entries)) clones.items) }
    ensures err { OnErr result
        (RefusesSome F.FnMut keeps (reverse (unticketed entries.now.entries))) }
{
    let mut clones = Vec::new(alloc);
    let mut rest = entries.iter();
    while let Some((key, entry)) = rest.next_back() {
        if !keeps(key, &entry.value) {
            clones.push(key.clone()?)?;
        }
    }
    Ok(clones)
}
