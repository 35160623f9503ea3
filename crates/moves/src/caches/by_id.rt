//! What stands under the ids of an old atlas: the key of a cache, and the id in the new atlas.
//!
//! Definitions: `Arranging`, and `ById` of `Private`.

ghost use Rattle.std.specs.Prelude.{◌≡◌, IfOk, map, nat_eq, option_map};
ghost use Rattle.std.specs.HashMap as table;
ghost use Rattle.std.specs.List.{filter_map};
ghost use Rattle.moves.specs.Caches.Private.ById.{ids_moved, keyed_left, keyed_move, keys_saved, saved_anew};

use crate::atlases::Move;
use crate::caches::rearrangement::{KeyMove, UnplacedKey};
use etagere_shelves::{AllocId, Allocation};
use glyph_shelf::SavedKey;
use std::alloc::{AllocError, Global};
use std::collections::HashMap;

/// The keys of a cache by the ids of their rectangles.
pub fn keys_by_id(alloc: Global, saved: &[SavedKey]) -> Result<HashMap<u32, u64>, AllocError>
    ensures { IfOk result (table.IsFromIterResult nat_eq (keys_saved saved.now)) }
{
    saved
        .iter()
        .map(|one| (one.id.serialize(), one.key))
        .collect(alloc)
}

/// The new ids of rectangles that have moved, by their old ids.
pub fn new_ids(alloc: Global, moves: &[Move]) -> Result<HashMap<u32, u32>, AllocError>
    ensures { IfOk result (table.IsFromIterResult nat_eq (ids_moved moves.now)) }
{
    moves
        .iter()
        .map(|one| (one.before.id.serialize(), one.after.id.serialize()))
        .collect(alloc)
}

/// The moves of rectangles as those of their keys.
pub fn key_moves(
    alloc: Global,
    keys: &HashMap<u32, u64>,
    moves: &[Move],
) -> Result<Vec<KeyMove>, AllocError>
    ensures { IfOk result
        (λ told. told.items ≡ filter_map (keyed_move (table.get nat_eq keys.now)) moves.now) }
{
    moves
        .iter()
        .filter_map(|one| key_move(keys, one))
        .collect(alloc)
}

/// The move of a rectangle as that of its key.
fn key_move(keys: &HashMap<u32, u64>, one: &Move) -> Option<KeyMove>
    ensures { result ≡ keyed_move (table.get nat_eq keys.now) one.now }
{
    let key = keys.get(&one.before.id.serialize())?;
    Some(KeyMove {
        key: *key,
        before: one.before.rectangle,
        after: one.after.rectangle,
    })
}

/// The keys of rectangles that found no place.
pub fn unplaced_keys(
    alloc: Global,
    keys: &HashMap<u32, u64>,
    unplaced: &[Allocation],
) -> Result<Vec<UnplacedKey>, AllocError>
    ensures { IfOk result
        (λ told. told.items ≡ filter_map (keyed_left (table.get nat_eq keys.now)) unplaced.now) }
{
    unplaced
        .iter()
        .filter_map(|one| unplaced_key(keys, one))
        .collect(alloc)
}

/// The key of a rectangle that found no place.
fn unplaced_key(keys: &HashMap<u32, u64>, one: &Allocation) -> Option<UnplacedKey>
    ensures { result ≡ keyed_left (table.get nat_eq keys.now) one.now }
{
    let key = keys.get(&one.id.serialize())?;
    Some(UnplacedKey {
        key: *key,
        rectangle: one.rectangle,
    })
}

/// The keys whose rectangles have moved, with their new ids, in the same order.
pub fn keys_moved(
    alloc: Global,
    ids: &HashMap<u32, u32>,
    saved: &[SavedKey],
) -> Result<Vec<SavedKey>, AllocError>
    ensures { IfOk result
        (λ kept. kept.items ≡ filter_map (saved_anew (table.get nat_eq ids.now)) saved.now) }
{
    saved
        .iter()
        .filter_map(|one| key_moved(ids, one))
        .collect(alloc)
}

/// A key whose rectangle has moved, with its new id.
fn key_moved(ids: &HashMap<u32, u32>, one: &SavedKey) -> Option<SavedKey>
    ensures { result ≡ saved_anew (table.get nat_eq ids.now) one.now }
{
    let id = ids.get(&one.id.serialize())?;
    Some(SavedKey {
        key: one.key,
        id: AllocId::deserialize(*id),
    })
}
