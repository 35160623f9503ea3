//! Saving both atlases as JSON text in buffers of the caller, and making them from such text.
//!
//! Definitions: `Calls`, `Saving`, `Statuses`.

ghost use Rattle.std.specs.Prelude.{◌≡◌, ◌≢◌, ◌↔◌, ◌<◌, ◌⊎◌, [], ◌∷◌, None, length, IfSome, IsSome, IsSomeAnd};
ghost use Rattle.shelf_model.specs.Atlas.{KeepsPromises};
ghost use Rattle.bucketed_model.specs.Atlas as buckets;
ghost use Rattle.c_answers.specs.Calls.{IsAmong};
ghost use Rattle.c_answers.specs.Saving.{Breaks, BreaksBucketed, IsRestoreStatus, IsSavedBeyond, IsSavedIn, Saves, SavesBucketed};
ghost use Rattle.c_answers.specs.Statuses as statuses;

use c_answers::buffers::hand_out;
use c_answers::snapshots::{boxed, bucketed_made_of, bucketed_text_of, made_of, text_of};
use c_answers::statuses::{HANDLE_IN_USE, MEMORY, NULL_HANDLE, OK};
use c_answers::{EtagereAtlas, EtagereBucketed};
use std::alloc::Global;

/// Writes what the atlas is saved as to the front of the buffer, and its length to *text_length: the JSON text of an
/// object whose one key is "atlas", without a space or a zero behind it. What is behind stays, and the atlas does.
///
/// Answers ETAGERE_OK; ETAGERE_NULL_HANDLE; ETAGERE_LENGTH where the buffer is shorter than the text: then *text_length
/// is written too, and nothing else; ETAGERE_MEMORY. Takes memory for all records and the text, goes through both, and
/// reads the text once to see that it is right.
#[unsafe(no_mangle)]
pub extern "C" fn etagere_atlas_snapshot(
    alloc: Global,
    atlas: &mut EtagereAtlas,
    buffer: &mut [u8],
    text_length: &mut usize,
) -> u32
    ensures null { (result ≡ statuses.null_handle) ↔ (atlas.old.state ≡ None) }
    ensures status { IsAmong (statuses.ok ∷ statuses.null_handle ∷ statuses.too_short ∷ statuses.out_of_memory ∷ []) result }
    ensures written { result ≡ statuses.ok → IfSome atlas.old.state (λ held. IsSavedIn Saves held buffer.old buffer.new text_length.new) }
    ensures short { result ≡ statuses.too_short → IfSome atlas.old.state (λ held. IsSavedBeyond Saves held (length buffer.old) text_length.new) }
    ensures unwritten { result ≢ statuses.ok → buffer.new ≡ buffer.old }
    ensures uncounted { result ≢ statuses.ok → result ≢ statuses.too_short → text_length.new ≡ text_length.old }
    ensures stays { atlas.new.state ≡ atlas.old.state }
{
    let Some(held) = atlas.lend() else {
        return NULL_HANDLE;
    };
    let text = text_of(alloc, held);
    match text {
        Some(text) => hand_out(text.as_slice(), buffer, text_length),
        None => MEMORY,
    }
}

/// Fills a null handle with the atlas that a text is saved as, whoever wrote it: what etagere_atlas_snapshot gives, or
/// the same with its keys in another order, others that are passed over, or spaces between.
///
/// Answers ETAGERE_OK; ETAGERE_HANDLE_IN_USE where the handle isn't null; ETAGERE_UNREADABLE where the bytes are no such
/// text, or there was no memory for what they say; ETAGERE_RESTORE_.., the number of a rule that the snapshot breaks, or
/// ETAGERE_RESTORE_MEMORY where there was no memory for the atlas. Takes memory for the snapshot, for its records twice
/// and as much as the text has bytes, and time linear in the bytes and records but for a sort of the shelves.
#[unsafe(no_mangle)]
pub extern "C" fn etagere_atlas_restore(alloc: Global, atlas: &mut EtagereAtlas, text: &[u8]) -> u32
    ensures in_use { (result ≡ statuses.handle_in_use) ↔ IsSome atlas.old.state }
    ensures status { (result ≡ statuses.ok) ⊎ ((result ≡ statuses.handle_in_use) ⊎ IsRestoreStatus result) }
    ensures restored { result ≡ statuses.ok → IsSomeAnd atlas.new.state (λ held. Saves text.now held × KeepsPromises held) }
    ensures broken { statuses.unreadable < result → result < statuses.restore_memory → Breaks text.now result }
    ensures stays { result ≢ statuses.ok → atlas.new.state ≡ atlas.old.state }
{
    if let Some(_held) = atlas.lend() {
        return HANDLE_IN_USE;
    }
    match made_of(alloc, text) {
        Ok(boxed) => {
            atlas.put(boxed);
            OK
        }
        Err(status) => status,
    }
}

/// Writes what the atlas is saved as to the front of the buffer, and its length to *text_length: the JSON text of an
/// object whose one key is "bucketed", without a space or a zero behind it. What is behind stays, and the atlas does.
///
/// Answers ETAGERE_OK; ETAGERE_NULL_HANDLE; ETAGERE_LENGTH where the buffer is shorter than the text: then *text_length
/// is written too, and nothing else; ETAGERE_MEMORY. Takes memory for all records and the text, goes through both, and
/// reads the text once to see that it is right.
#[unsafe(no_mangle)]
pub extern "C" fn etagere_bucketed_snapshot(
    alloc: Global,
    atlas: &mut EtagereBucketed,
    buffer: &mut [u8],
    text_length: &mut usize,
) -> u32
    ensures null { (result ≡ statuses.null_handle) ↔ (atlas.old.state ≡ None) }
    ensures status { IsAmong (statuses.ok ∷ statuses.null_handle ∷ statuses.too_short ∷ statuses.out_of_memory ∷ []) result }
    ensures written { result ≡ statuses.ok → IfSome atlas.old.state (λ held. IsSavedIn SavesBucketed held buffer.old buffer.new text_length.new) }
    ensures short { result ≡ statuses.too_short → IfSome atlas.old.state (λ held. IsSavedBeyond SavesBucketed held (length buffer.old) text_length.new) }
    ensures unwritten { result ≢ statuses.ok → buffer.new ≡ buffer.old }
    ensures uncounted { result ≢ statuses.ok → result ≢ statuses.too_short → text_length.new ≡ text_length.old }
    ensures stays { atlas.new.state ≡ atlas.old.state }
{
    let Some(held) = atlas.lend() else {
        return NULL_HANDLE;
    };
    let text = bucketed_text_of(alloc, held);
    match text {
        Some(text) => hand_out(text.as_slice(), buffer, text_length),
        None => MEMORY,
    }
}

/// Fills a null handle with the atlas that a text is saved as, whoever wrote it: what etagere_bucketed_snapshot gives, or
/// the same with its keys in another order, others that are passed over, or spaces between.
///
/// Answers ETAGERE_OK; ETAGERE_HANDLE_IN_USE where the handle isn't null; ETAGERE_UNREADABLE where the bytes are no such
/// text, or there was no memory for what they say; ETAGERE_RESTORE_.. but ETAGERE_RESTORE_FREE_LIST, the number of a rule
/// that the snapshot breaks, or ETAGERE_RESTORE_MEMORY where there was no memory for the atlas. Takes memory for the
/// snapshot, for its records twice and as much as the text has bytes, and time linear in the bytes and records.
#[unsafe(no_mangle)]
pub extern "C" fn etagere_bucketed_restore(
    alloc: Global,
    atlas: &mut EtagereBucketed,
    text: &[u8],
) -> u32
    ensures in_use { (result ≡ statuses.handle_in_use) ↔ IsSome atlas.old.state }
    ensures status { (result ≡ statuses.ok) ⊎ ((result ≡ statuses.handle_in_use) ⊎ IsRestoreStatus result) }
    ensures restored { result ≡ statuses.ok → IsSomeAnd atlas.new.state (λ held. SavesBucketed text.now held × buckets.KeepsPromises held) }
    ensures broken { statuses.unreadable < result → result < statuses.restore_memory → BreaksBucketed text.now result }
    ensures stays { result ≢ statuses.ok → atlas.new.state ≡ atlas.old.state }
{
    if let Some(_held) = atlas.lend() {
        return HANDLE_IN_USE;
    }
    match bucketed_made_of(alloc, text) {
        Ok(boxed) => {
            atlas.put(boxed);
            OK
        }
        Err(status) => status,
    }
}
