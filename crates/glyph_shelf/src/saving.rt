//! A cache as it is saved, and what is restored of what was saved, whoever wrote it.
//!
//! Definitions: `Saved`, over those of snapshots of an atlas; `Private.Restoring`.

ghost use Rattle.std.specs.Prelude.{◌≡◌, ◌<◌, ◌≤◌, IfErr, IfOk, OnOk, length, map};
ghost use Rattle.std.specs.NonZero.{non_zero_usize_get};
ghost use Rattle.shelf_model.specs.Atlas.{KeepsPromises};
ghost use Rattle.shelf_records.specs.Snapshots.{snapshot_records};
ghost use Rattle.shelf_records.specs.StandsFor.{StandsFor};
ghost use Rattle.glyph_shelf.specs.Private.Restoring as restoring;
ghost use Rattle.glyph_shelf.specs.Private.Restoring.{AreKeysRefused, AreRestored, EntersSaved, IsAtlasRefused, IsKeyRefused};
ghost use Rattle.glyph_shelf.specs.Saved.{saved_key};

use crate::faults::CacheRestoreFault;
use crate::used_keys::UsedKeys;
use etagere_shelves::{AllocId, Allocation, AtlasAllocator, AtlasSnapshot, RestoreFault};
use std::alloc::{AllocError, Global};
use std::num::NonZeroUsize;

/// A key as it is saved, with the id of what is allocated for it.
#[derive(Clone, Copy, Debug, PartialEq, Eq)]
pub struct SavedKey {
    /// The key.
    pub key: u64,
    /// The id under which its rectangle is allocated in the atlas.
    pub id: AllocId,
}

/// A cache as it is saved, to be read by anyone and judged when it is restored.
#[derive(Debug, PartialEq, Eq, Drop)]
pub struct CacheSnapshot {
    /// How many keys there may be.
    pub capacity: usize,
    /// The atlas in which the rectangles lie.
    pub atlas: AtlasSnapshot,
    /// The keys, the most recently used first.
    pub keys: Vec<SavedKey>,
}

/// The keys as they are saved.
pub(crate) fn saved_keys(alloc: Global, keys: &UsedKeys) -> Result<Vec<SavedKey>, AllocError>
    ensures { IfOk result (λ saved. saved.items ≡ map saved_key keys.now.entries) }
{
    let mut saved = Vec::with_capacity(alloc, keys.len())?;
    let mut rest = keys.iter();
    while let Some((key, entry)) = rest.next() {
        let id = entry.allocation.id;
        saved.push(SavedKey { key: *key, id })?;
    }
    Ok(saved)
}

/// The atlas for which a snapshot stands.
pub(crate) fn restored_atlas(
    alloc: Global,
    saved: AtlasSnapshot,
) -> Result<AtlasAllocator, CacheRestoreFault>
    ensures stands { IfOk result (λ atlas. StandsFor (snapshot_records saved) atlas) }
    ensures promises { IfOk result KeepsPromises }
    ensures fault { IfErr result (IsAtlasRefused saved) }
{
    match AtlasAllocator::restore(alloc, saved) {
        Ok(atlas) => Ok(atlas),
        Err(fault) => Err(atlas_fault(fault)),
    }
}

/// The fault of a cache of whose atlas this is the fault.
fn atlas_fault(fault: RestoreFault) -> CacheRestoreFault
    ensures { result ≡ restoring.atlas_fault fault }
{
    match fault {
        RestoreFault::Memory => CacheRestoreFault::Memory,
        _ => CacheRestoreFault::Atlas(fault),
    }
}

/// The keys that were saved, with what an atlas has allocated for them: for each key something, and nothing else.
///
/// What is allocated goes from a copy of the atlas, key by key, so that in the end nothing may be left in it.
pub(crate) fn restored_keys(
    alloc: Global,
    atlas: &AtlasAllocator,
    capacity: NonZeroUsize,
    saved: &[SavedKey],
) -> Result<UsedKeys, CacheRestoreFault>
    requires few { length saved.now ≤ non_zero_usize_get capacity }
    requires promises { KeepsPromises atlas.now }
    ensures restored { IfOk result
        (AreRestored saved.now (non_zero_usize_get capacity) atlas.now) }
    ensures fault { IfErr result (AreKeysRefused saved.now atlas.now) }
{
    let Ok(mut keys) = UsedKeys::new(alloc, capacity) else {
        return Err(CacheRestoreFault::Memory);
    };
    let Ok(mut left) = atlas.clone() else {
        return Err(CacheRestoreFault::Memory);
    };
    let mut rest = saved;
    while let Some((last, before)) = rest.split_last() {
        enter_saved(&mut keys, &mut left, atlas, last)?;
        rest = before;
    }
    if left.is_empty() {
        Ok(keys)
    } else {
        Err(CacheRestoreFault::NoKey)
    }
}

/// Puts a key that was saved in front of others, and takes what is allocated for it from what is left.
fn enter_saved(
    keys: &mut UsedKeys,
    left: &mut AtlasAllocator,
    atlas: &AtlasAllocator,
    saved: &SavedKey,
) -> Result<(), CacheRestoreFault>
    requires { length keys.old.entries < keys.old.cap }
    ensures entered { OnOk result
        (EntersSaved atlas.now saved.now keys.old left.old keys.new left.new) }
    ensures fault { IfErr result (IsKeyRefused atlas.now saved.now keys.old left.old) }
{
    let SavedKey { key, id } = *saved;
    if keys.peek(key).is_some() {
        return Err(CacheRestoreFault::KeyTwice(key));
    }
    let Some(rectangle) = atlas.get(id) else {
        return Err(CacheRestoreFault::WrongId(id));
    };
    if left.deallocate(id).is_err() {
        return Err(CacheRestoreFault::WrongId(id));
    }
    match keys.enter(key, Allocation { id, rectangle }) {
        Ok(()) => Ok(()),
        Err(_) => Err(CacheRestoreFault::Memory),
    }
}
