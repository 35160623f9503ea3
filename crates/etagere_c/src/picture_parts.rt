//! The pictures of both atlases and of a cache as parts of other SVG documents, in buffers of the caller.
//!
//! Definitions: `Calls`, `Crossing`, `Statuses`, and `Svg` of both atlases.

ghost use Rattle.std.specs.Prelude.{◌≡◌, ◌≢◌, ◌↔◌, ◌<◌, [], ◌∷◌, None, Some, length, IfSome};
ghost use Rattle.shelf_model.specs.Svg.{svg_into};
ghost use Rattle.bucketed_model.specs.Svg as buckets;
ghost use Rattle.c_answers.specs.Calls.{IsAmong, IsWritten};
ghost use Rattle.etagere_shelves.specs.Plain.{rectangle_in};
ghost use Rattle.c_answers.specs.Statuses as statuses;

use c_answers::buffers::hand_out;
use c_answers::geometry::EtagereRectangle;
use c_answers::picture_parts::{bucketed_lines_of, lines_of};
use c_answers::statuses::{MEMORY, NULL_HANDLE};
use c_answers::{EtagereAtlas, EtagereBucketed, EtagereCache};
use std::alloc::Global;

/// Writes the rectangles of etagere_atlas_picture to the front of the buffer, as lines for another SVG document that show the atlas
/// at its origin, and how long they are to *text_length. What is behind stays, and the atlas does.
///
/// Answers ETAGERE_OK; ETAGERE_NULL_HANDLE; ETAGERE_LENGTH where the buffer is shorter than the lines: then *text_length
/// is written too, and nothing else; ETAGERE_MEMORY. Takes memory for the text, and goes through all items.
#[unsafe(no_mangle)]
pub extern "C" fn etagere_atlas_picture_lines(
    alloc: Global,
    atlas: &mut EtagereAtlas,
    buffer: &mut [u8],
    text_length: &mut usize,
) -> u32
    ensures null { (result ≡ statuses.null_handle) ↔ (atlas.old.state ≡ None) }
    ensures status { IsAmong (statuses.ok ∷ statuses.null_handle ∷ statuses.too_short ∷ statuses.out_of_memory ∷ []) result }
    ensures written { result ≡ statuses.ok → IfSome atlas.old.state (λ held. IsWritten (svg_into held None) buffer.old buffer.new text_length.new) }
    ensures short { result ≡ statuses.too_short → IfSome atlas.old.state (λ held. (length buffer.old < length (svg_into held None)) × (text_length.new ≡ length (svg_into held None))) }
    ensures unwritten { result ≢ statuses.ok → buffer.new ≡ buffer.old }
    ensures uncounted { result ≢ statuses.ok → result ≢ statuses.too_short → text_length.new ≡ text_length.old }
    ensures stays { atlas.new.state ≡ atlas.old.state }
{
    let Some(held) = atlas.lend() else {
        return NULL_HANDLE;
    };
    let text = lines_of(alloc, held, None);
    match text {
        Some(text) => hand_out(text.as_slice(), buffer, text_length),
        None => MEMORY,
    }
}

/// Writes the same lines as etagere_atlas_picture_lines, moved and scaled to fill a rectangle of the other document;
/// nothing where a side of it isn't positive. What is behind stays, and the atlas does.
///
/// Answers ETAGERE_OK; ETAGERE_NULL_HANDLE; ETAGERE_LENGTH where the buffer is shorter than the lines: then *text_length
/// is written too, and nothing else; ETAGERE_MEMORY. Takes memory for the text, and goes through all items.
#[unsafe(no_mangle)]
pub extern "C" fn etagere_atlas_picture_part(
    alloc: Global,
    atlas: &mut EtagereAtlas,
    rectangle: EtagereRectangle,
    buffer: &mut [u8],
    text_length: &mut usize,
) -> u32
    ensures null { (result ≡ statuses.null_handle) ↔ (atlas.old.state ≡ None) }
    ensures status { IsAmong (statuses.ok ∷ statuses.null_handle ∷ statuses.too_short ∷ statuses.out_of_memory ∷ []) result }
    ensures written { result ≡ statuses.ok → IfSome atlas.old.state (λ held. IsWritten (svg_into held (Some (rectangle_in rectangle))) buffer.old buffer.new text_length.new) }
    ensures short { result ≡ statuses.too_short → IfSome atlas.old.state (λ held. (length buffer.old < length (svg_into held (Some (rectangle_in rectangle)))) × (text_length.new ≡ length (svg_into held (Some (rectangle_in rectangle))))) }
    ensures unwritten { result ≢ statuses.ok → buffer.new ≡ buffer.old }
    ensures uncounted { result ≢ statuses.ok → result ≢ statuses.too_short → text_length.new ≡ text_length.old }
    ensures stays { atlas.new.state ≡ atlas.old.state }
{
    let Some(held) = atlas.lend() else {
        return NULL_HANDLE;
    };
    let rectangle = rectangle.rectangle();
    let text = lines_of(alloc, held, Some(&rectangle));
    match text {
        Some(text) => hand_out(text.as_slice(), buffer, text_length),
        None => MEMORY,
    }
}

/// Writes the rectangles of etagere_bucketed_picture to the front of the buffer, as lines for another SVG document that show the atlas
/// at its origin, and how long they are to *text_length. What is behind stays, and the atlas does.
///
/// Answers ETAGERE_OK; ETAGERE_NULL_HANDLE; ETAGERE_LENGTH where the buffer is shorter than the lines: then *text_length
/// is written too, and nothing else; ETAGERE_MEMORY. Takes memory for the text, and goes through all buckets.
#[unsafe(no_mangle)]
pub extern "C" fn etagere_bucketed_picture_lines(
    alloc: Global,
    atlas: &mut EtagereBucketed,
    buffer: &mut [u8],
    text_length: &mut usize,
) -> u32
    ensures null { (result ≡ statuses.null_handle) ↔ (atlas.old.state ≡ None) }
    ensures status { IsAmong (statuses.ok ∷ statuses.null_handle ∷ statuses.too_short ∷ statuses.out_of_memory ∷ []) result }
    ensures written { result ≡ statuses.ok → IfSome atlas.old.state (λ held. IsWritten (buckets.svg_into held None) buffer.old buffer.new text_length.new) }
    ensures short { result ≡ statuses.too_short → IfSome atlas.old.state (λ held. (length buffer.old < length (buckets.svg_into held None)) × (text_length.new ≡ length (buckets.svg_into held None))) }
    ensures unwritten { result ≢ statuses.ok → buffer.new ≡ buffer.old }
    ensures uncounted { result ≢ statuses.ok → result ≢ statuses.too_short → text_length.new ≡ text_length.old }
    ensures stays { atlas.new.state ≡ atlas.old.state }
{
    let Some(held) = atlas.lend() else {
        return NULL_HANDLE;
    };
    let text = bucketed_lines_of(alloc, held, None);
    match text {
        Some(text) => hand_out(text.as_slice(), buffer, text_length),
        None => MEMORY,
    }
}

/// Writes the same lines as etagere_bucketed_picture_lines, moved and scaled to fill a rectangle of the other document;
/// nothing where a side of it isn't positive. What is behind stays, and the atlas does.
///
/// Answers ETAGERE_OK; ETAGERE_NULL_HANDLE; ETAGERE_LENGTH where the buffer is shorter than the lines: then *text_length
/// is written too, and nothing else; ETAGERE_MEMORY. Takes memory for the text, and goes through all buckets.
#[unsafe(no_mangle)]
pub extern "C" fn etagere_bucketed_picture_part(
    alloc: Global,
    atlas: &mut EtagereBucketed,
    rectangle: EtagereRectangle,
    buffer: &mut [u8],
    text_length: &mut usize,
) -> u32
    ensures null { (result ≡ statuses.null_handle) ↔ (atlas.old.state ≡ None) }
    ensures status { IsAmong (statuses.ok ∷ statuses.null_handle ∷ statuses.too_short ∷ statuses.out_of_memory ∷ []) result }
    ensures written { result ≡ statuses.ok → IfSome atlas.old.state (λ held. IsWritten (buckets.svg_into held (Some (rectangle_in rectangle))) buffer.old buffer.new text_length.new) }
    ensures short { result ≡ statuses.too_short → IfSome atlas.old.state (λ held. (length buffer.old < length (buckets.svg_into held (Some (rectangle_in rectangle)))) × (text_length.new ≡ length (buckets.svg_into held (Some (rectangle_in rectangle))))) }
    ensures unwritten { result ≢ statuses.ok → buffer.new ≡ buffer.old }
    ensures uncounted { result ≢ statuses.ok → result ≢ statuses.too_short → text_length.new ≡ text_length.old }
    ensures stays { atlas.new.state ≡ atlas.old.state }
{
    let Some(held) = atlas.lend() else {
        return NULL_HANDLE;
    };
    let rectangle = rectangle.rectangle();
    let text = bucketed_lines_of(alloc, held, Some(&rectangle));
    match text {
        Some(text) => hand_out(text.as_slice(), buffer, text_length),
        None => MEMORY,
    }
}

/// Writes the rectangles of etagere_cache_picture to the front of the buffer, as lines for another SVG document that show the cache
/// at its origin, and how long they are to *text_length. What is behind stays, and the cache does.
///
/// Answers ETAGERE_OK; ETAGERE_NULL_HANDLE; ETAGERE_LENGTH where the buffer is shorter than the lines: then *text_length
/// is written too, and nothing else; ETAGERE_MEMORY. Takes memory for the text, and goes through all items.
#[unsafe(no_mangle)]
pub extern "C" fn etagere_cache_picture_lines(
    alloc: Global,
    cache: &mut EtagereCache,
    buffer: &mut [u8],
    text_length: &mut usize,
) -> u32
    ensures null { (result ≡ statuses.null_handle) ↔ (cache.old.state ≡ None) }
    ensures status { IsAmong (statuses.ok ∷ statuses.null_handle ∷ statuses.too_short ∷ statuses.out_of_memory ∷ []) result }
    ensures written { result ≡ statuses.ok → IfSome cache.old.state (λ held. IsWritten (svg_into held.atlas None) buffer.old buffer.new text_length.new) }
    ensures short { result ≡ statuses.too_short → IfSome cache.old.state (λ held. (length buffer.old < length (svg_into held.atlas None)) × (text_length.new ≡ length (svg_into held.atlas None))) }
    ensures unwritten { result ≢ statuses.ok → buffer.new ≡ buffer.old }
    ensures uncounted { result ≢ statuses.ok → result ≢ statuses.too_short → text_length.new ≡ text_length.old }
    ensures stays { cache.new.state ≡ cache.old.state }
{
    let Some(held) = cache.lend() else {
        return NULL_HANDLE;
    };
    let text = lines_of(alloc, held.atlas(), None);
    match text {
        Some(text) => hand_out(text.as_slice(), buffer, text_length),
        None => MEMORY,
    }
}

/// Writes the same lines as etagere_cache_picture_lines, moved and scaled to fill a rectangle of the other document;
/// nothing where a side of it isn't positive. What is behind stays, and the cache does.
///
/// Answers ETAGERE_OK; ETAGERE_NULL_HANDLE; ETAGERE_LENGTH where the buffer is shorter than the lines: then *text_length
/// is written too, and nothing else; ETAGERE_MEMORY. Takes memory for the text, and goes through all items.
#[unsafe(no_mangle)]
pub extern "C" fn etagere_cache_picture_part(
    alloc: Global,
    cache: &mut EtagereCache,
    rectangle: EtagereRectangle,
    buffer: &mut [u8],
    text_length: &mut usize,
) -> u32
    ensures null { (result ≡ statuses.null_handle) ↔ (cache.old.state ≡ None) }
    ensures status { IsAmong (statuses.ok ∷ statuses.null_handle ∷ statuses.too_short ∷ statuses.out_of_memory ∷ []) result }
    ensures written { result ≡ statuses.ok → IfSome cache.old.state (λ held. IsWritten (svg_into held.atlas (Some (rectangle_in rectangle))) buffer.old buffer.new text_length.new) }
    ensures short { result ≡ statuses.too_short → IfSome cache.old.state (λ held. (length buffer.old < length (svg_into held.atlas (Some (rectangle_in rectangle)))) × (text_length.new ≡ length (svg_into held.atlas (Some (rectangle_in rectangle))))) }
    ensures unwritten { result ≢ statuses.ok → buffer.new ≡ buffer.old }
    ensures uncounted { result ≢ statuses.ok → result ≢ statuses.too_short → text_length.new ≡ text_length.old }
    ensures stays { cache.new.state ≡ cache.old.state }
{
    let Some(held) = cache.lend() else {
        return NULL_HANDLE;
    };
    let rectangle = rectangle.rectangle();
    let text = lines_of(alloc, held.atlas(), Some(&rectangle));
    match text {
        Some(text) => hand_out(text.as_slice(), buffer, text_length),
        None => MEMORY,
    }
}
