//! What serde reads and writes of a cache. Whether it did is seen by holding the cache against the text.

use etagere_shelves::{AllocId, AtlasSnapshot};
use glyph_shelf::{CacheSnapshot, SavedKey};
use serde::{Deserialize, Serialize};
use std::alloc::{AllocError, Global};

/// A key with its id.
#[derive(Clone, Copy, Serialize, Deserialize)]
struct KeyText {
    key: u64,
    id: AllocId,
}

/// What is read of a cache.
#[derive(Drop, Deserialize)]
pub(crate) struct ReadCache {
    capacity: usize,
    atlas: AtlasSnapshot,
    keys: Vec<KeyText>,
}

impl ReadCache {
    /// The same as a snapshot.
    pub(crate) fn snapshot(self, alloc: Global) -> Result<CacheSnapshot, AllocError> {
        let ReadCache {
            capacity,
            atlas,
            keys: read,
        } = self;
        let mut keys = Vec::with_capacity(alloc, read.len())?;
        for KeyText { key, id } in read {
            keys.push(SavedKey { key, id })?;
        }
        Ok(CacheSnapshot {
            capacity,
            atlas,
            keys,
        })
    }
}

/// What is written of a cache.
#[derive(Drop, Serialize)]
struct WrittenCache<'a> {
    capacity: usize,
    atlas: &'a AtlasSnapshot,
    keys: &'a [KeyText],
}

/// The text of a snapshot.
pub(crate) fn text_of(alloc: Global, snapshot: &CacheSnapshot) -> Result<Vec<u8>, AllocError> {
    let mut keys = Vec::with_capacity(alloc, snapshot.keys.len())?;
    for saved in &snapshot.keys {
        let SavedKey { key, id } = *saved;
        keys.push(KeyText { key, id })?;
    }
    let written = WrittenCache {
        capacity: snapshot.capacity,
        atlas: &snapshot.atlas,
        keys: keys.as_slice(),
    };
    serde_json::to_vec(alloc, &written).map_err(|_| AllocError)
}
