//! The library that is called from C: the calls of both atlases and of the cache, over handles of one pointer.
//!
//! The header `include/etagere.h` has the same calls, with what a caller in C owes. `c_answers` has what a handle owns,
//! what crosses by value, the numbers that calls answer, and what they do to an atlas or a cache.
#![tactic(auto)]

mod atlas;
mod batches;
mod bucketed;
mod cache;
mod cache_keys;
mod cache_sizing;
mod cache_snapshots;
mod drawings;
mod fullness;
mod listing;
mod options;
mod picture_parts;
mod snapshots;

pub use atlas::{
    etagere_atlas_allocate, etagere_atlas_allocated_space, etagere_atlas_clear,
    etagere_atlas_clone, etagere_atlas_deallocate, etagere_atlas_delete,
    etagere_atlas_fits_when_empty, etagere_atlas_free_space, etagere_atlas_get,
    etagere_atlas_get_index, etagere_atlas_grow, etagere_atlas_is_empty, etagere_atlas_new,
    etagere_atlas_size,
};
pub use batches::{
    etagere_atlas_allocate_many, etagere_atlas_deallocate_many, etagere_bucketed_allocate_many,
    etagere_bucketed_deallocate_many,
};
pub use bucketed::{
    etagere_bucketed_allocate, etagere_bucketed_allocated_space, etagere_bucketed_clear,
    etagere_bucketed_clone, etagere_bucketed_deallocate, etagere_bucketed_delete,
    etagere_bucketed_free_space, etagere_bucketed_grow, etagere_bucketed_is_empty,
    etagere_bucketed_new, etagere_bucketed_size,
};
pub use cache::{
    etagere_cache_allocated_space, etagere_cache_begin_frame, etagere_cache_capacity,
    etagere_cache_clear, etagere_cache_delete, etagere_cache_free_space, etagere_cache_get,
    etagere_cache_is_empty, etagere_cache_len, etagere_cache_new, etagere_cache_place,
    etagere_cache_remove, etagere_cache_size, etagere_cache_used_in_frame,
};
pub use cache_keys::{etagere_cache_entries, etagere_cache_peek};
pub use cache_sizing::{etagere_cache_grow, etagere_cache_set_capacity};
pub use cache_snapshots::{etagere_cache_restore, etagere_cache_snapshot};
pub use drawings::{
    etagere_atlas_picture, etagere_atlas_picture_length, etagere_bucketed_picture,
    etagere_bucketed_picture_length, etagere_cache_picture, etagere_cache_picture_length,
};
pub use fullness::{
    etagere_atlas_largest_free, etagere_atlas_refusal, etagere_atlas_usage,
    etagere_bucketed_largest_free, etagere_bucketed_refusal, etagere_bucketed_usage,
};
pub use listing::etagere_atlas_allocations;
pub use options::etagere_default_options;
pub use picture_parts::{
    etagere_atlas_picture_lines, etagere_atlas_picture_part, etagere_bucketed_picture_lines,
    etagere_bucketed_picture_part, etagere_cache_picture_lines, etagere_cache_picture_part,
};
pub use snapshots::{
    etagere_atlas_restore, etagere_atlas_snapshot, etagere_bucketed_restore,
    etagere_bucketed_snapshot,
};
