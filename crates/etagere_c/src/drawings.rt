//! The pictures of both atlases and of a cache, as texts in buffers of the caller.
//!
//! Definitions: `Calls`, `Statuses`, and `Svg` of both atlases.

ghost use Rattle.std.specs.Prelude.{◌≡◌, ◌↔◌, ◌≢◌, ◌<◌, [], ◌∷◌, None, Some, length, IfSome};
ghost use Rattle.shelf_model.specs.Svg.{svg};
ghost use Rattle.bucketed_model.specs.Svg as buckets;
ghost use Rattle.c_answers.specs.Calls.{IsAmong, IsWritten};
ghost use Rattle.c_answers.specs.Statuses as statuses;

use c_answers::buffers::write_text;
use c_answers::drawings::{bucketed_picture_of, picture_of};
use c_answers::statuses::{MEMORY, NULL_HANDLE, OK};
use c_answers::{EtagereAtlas, EtagereBucketed, EtagereCache};
use std::alloc::Global;

/// Gives the length in bytes of the picture of etagere_atlas_picture. The atlas stays.
///
/// Answers ETAGERE_OK; ETAGERE_NULL_HANDLE; ETAGERE_MEMORY. Takes memory for the text, and goes through all items.
#[unsafe(no_mangle)]
pub extern "C" fn etagere_atlas_picture_length(
    alloc: Global,
    atlas: &mut EtagereAtlas,
    text_length: &mut usize,
) -> u32
    ensures null { (result ≡ statuses.null_handle) ↔ (atlas.old.state ≡ None) }
    ensures status { IsAmong (statuses.ok ∷ statuses.null_handle ∷ statuses.out_of_memory ∷ []) result }
    ensures counted { result ≡ statuses.ok → IfSome atlas.old.state (λ held. text_length.new ≡ length (svg held)) }
    ensures uncounted { result ≢ statuses.ok → text_length.new ≡ text_length.old }
    ensures stays { atlas.new.state ≡ atlas.old.state }
{
    let Some(held) = atlas.lend() else {
        return NULL_HANDLE;
    };
    let text = picture_of(alloc, held);
    match text {
        Some(text) => {
            *text_length = text.len();
            OK
        }
        None => MEMORY,
    }
}

/// Writes an SVG document to the front of the buffer, without a zero behind it, and its length to *text_length: the
/// atlas and every item, what is allocated in blue, what is free in grey. What is behind stays, and the atlas does.
///
/// Answers ETAGERE_OK; ETAGERE_NULL_HANDLE; ETAGERE_LENGTH where the buffer is shorter than
/// etagere_atlas_picture_length says, with nothing written; ETAGERE_MEMORY. Takes memory for the text, and goes through
/// all items.
#[unsafe(no_mangle)]
pub extern "C" fn etagere_atlas_picture(
    alloc: Global,
    atlas: &mut EtagereAtlas,
    buffer: &mut [u8],
    text_length: &mut usize,
) -> u32
    ensures null { (result ≡ statuses.null_handle) ↔ (atlas.old.state ≡ None) }
    ensures status { IsAmong (statuses.ok ∷ statuses.null_handle ∷ statuses.too_short ∷ statuses.out_of_memory ∷ []) result }
    ensures written { result ≡ statuses.ok → IfSome atlas.old.state (λ held. IsWritten (svg held) buffer.old buffer.new text_length.new) }
    ensures short { result ≡ statuses.too_short → IfSome atlas.old.state (λ held. length buffer.old < length (svg held)) }
    ensures unwritten { result ≢ statuses.ok → buffer.new ≡ buffer.old }
    ensures uncounted { result ≢ statuses.ok → text_length.new ≡ text_length.old }
    ensures stays { atlas.new.state ≡ atlas.old.state }
{
    let Some(held) = atlas.lend() else {
        return NULL_HANDLE;
    };
    let text = picture_of(alloc, held);
    match text {
        Some(text) => write_text(text.as_slice(), buffer, text_length),
        None => MEMORY,
    }
}

/// Gives the length in bytes of the picture of etagere_bucketed_picture. The atlas stays.
///
/// Answers ETAGERE_OK; ETAGERE_NULL_HANDLE; ETAGERE_MEMORY. Takes memory for the text, and goes through all buckets.
#[unsafe(no_mangle)]
pub extern "C" fn etagere_bucketed_picture_length(
    alloc: Global,
    atlas: &mut EtagereBucketed,
    text_length: &mut usize,
) -> u32
    ensures null { (result ≡ statuses.null_handle) ↔ (atlas.old.state ≡ None) }
    ensures status { IsAmong (statuses.ok ∷ statuses.null_handle ∷ statuses.out_of_memory ∷ []) result }
    ensures counted { result ≡ statuses.ok → IfSome atlas.old.state (λ held. text_length.new ≡ length (buckets.svg held)) }
    ensures uncounted { result ≢ statuses.ok → text_length.new ≡ text_length.old }
    ensures stays { atlas.new.state ≡ atlas.old.state }
{
    let Some(held) = atlas.lend() else {
        return NULL_HANDLE;
    };
    let text = bucketed_picture_of(alloc, held);
    match text {
        Some(text) => {
            *text_length = text.len();
            OK
        }
        None => MEMORY,
    }
}

/// Writes an SVG document to the front of the buffer, without a zero behind it, and its length to *text_length: the
/// atlas and every bucket, what is used in blue, what is free in grey. What is behind stays, and the atlas does.
///
/// Answers ETAGERE_OK; ETAGERE_NULL_HANDLE; ETAGERE_LENGTH where the buffer is shorter than
/// etagere_bucketed_picture_length says, with nothing written; ETAGERE_MEMORY. Takes memory for the text, and goes
/// through all buckets.
#[unsafe(no_mangle)]
pub extern "C" fn etagere_bucketed_picture(
    alloc: Global,
    atlas: &mut EtagereBucketed,
    buffer: &mut [u8],
    text_length: &mut usize,
) -> u32
    ensures null { (result ≡ statuses.null_handle) ↔ (atlas.old.state ≡ None) }
    ensures status { IsAmong (statuses.ok ∷ statuses.null_handle ∷ statuses.too_short ∷ statuses.out_of_memory ∷ []) result }
    ensures written { result ≡ statuses.ok → IfSome atlas.old.state (λ held. IsWritten (buckets.svg held) buffer.old buffer.new text_length.new) }
    ensures short { result ≡ statuses.too_short → IfSome atlas.old.state (λ held. length buffer.old < length (buckets.svg held)) }
    ensures unwritten { result ≢ statuses.ok → buffer.new ≡ buffer.old }
    ensures uncounted { result ≢ statuses.ok → text_length.new ≡ text_length.old }
    ensures stays { atlas.new.state ≡ atlas.old.state }
{
    let Some(held) = atlas.lend() else {
        return NULL_HANDLE;
    };
    let text = bucketed_picture_of(alloc, held);
    match text {
        Some(text) => write_text(text.as_slice(), buffer, text_length),
        None => MEMORY,
    }
}

/// Gives the length in bytes of the picture of etagere_cache_picture. The cache stays.
///
/// Answers ETAGERE_OK; ETAGERE_NULL_HANDLE; ETAGERE_MEMORY. Takes memory for the text, and goes through all items.
#[unsafe(no_mangle)]
pub extern "C" fn etagere_cache_picture_length(
    alloc: Global,
    cache: &mut EtagereCache,
    text_length: &mut usize,
) -> u32
    ensures null { (result ≡ statuses.null_handle) ↔ (cache.old.state ≡ None) }
    ensures status { IsAmong (statuses.ok ∷ statuses.null_handle ∷ statuses.out_of_memory ∷ []) result }
    ensures counted { result ≡ statuses.ok → IfSome cache.old.state (λ held. text_length.new ≡ length (svg held.atlas)) }
    ensures uncounted { result ≢ statuses.ok → text_length.new ≡ text_length.old }
    ensures stays { cache.new.state ≡ cache.old.state }
{
    let Some(held) = cache.lend() else {
        return NULL_HANDLE;
    };
    let text = picture_of(alloc, held.atlas());
    match text {
        Some(text) => {
            *text_length = text.len();
            OK
        }
        None => MEMORY,
    }
}

/// Writes the picture of the atlas, as etagere_atlas_picture does. The cache stays.
///
/// Answers ETAGERE_OK; ETAGERE_NULL_HANDLE; ETAGERE_LENGTH where the buffer is shorter than
/// etagere_cache_picture_length says, with nothing written; ETAGERE_MEMORY. Takes memory for the text, and goes through
/// all items.
#[unsafe(no_mangle)]
pub extern "C" fn etagere_cache_picture(
    alloc: Global,
    cache: &mut EtagereCache,
    buffer: &mut [u8],
    text_length: &mut usize,
) -> u32
    ensures null { (result ≡ statuses.null_handle) ↔ (cache.old.state ≡ None) }
    ensures status { IsAmong (statuses.ok ∷ statuses.null_handle ∷ statuses.too_short ∷ statuses.out_of_memory ∷ []) result }
    ensures written { result ≡ statuses.ok → IfSome cache.old.state (λ held. IsWritten (svg held.atlas) buffer.old buffer.new text_length.new) }
    ensures short { result ≡ statuses.too_short → IfSome cache.old.state (λ held. length buffer.old < length (svg held.atlas)) }
    ensures unwritten { result ≢ statuses.ok → buffer.new ≡ buffer.old }
    ensures uncounted { result ≢ statuses.ok → text_length.new ≡ text_length.old }
    ensures stays { cache.new.state ≡ cache.old.state }
{
    let Some(held) = cache.lend() else {
        return NULL_HANDLE;
    };
    let text = picture_of(alloc, held.atlas());
    match text {
        Some(text) => write_text(text.as_slice(), buffer, text_length),
        None => MEMORY,
    }
}
