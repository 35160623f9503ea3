//! Why sizes have no place, and how full atlases are.
//!
//! Definitions: `Calls`, `Crossing`, `Fullness`, `Statuses`, and `Refusal` and `Usage` of both atlases. The header has
//! the same fields in the same order, and the numbers of the reasons.

ghost use Rattle.std.specs.Prelude.{◌≡◌, ◌↔◌, ◌≢◌, [], ◌∷◌, None, IfSome};
ghost use Rattle.shelf_model.specs.Refusal as refusals;
ghost use Rattle.shelf_model.specs.Usage as usages;
ghost use Rattle.bucketed_model.specs.Refusal as bucketed_refusals;
ghost use Rattle.bucketed_model.specs.Usage as bucketed_usages;
ghost use Rattle.c_answers.specs.Calls.{IsAmong};
ghost use Rattle.c_answers.specs.Crossing.{size_in};
ghost use Rattle.c_answers.specs.Fullness.{bucketed_told, bucketed_usage_in, told, usage_in};
ghost use Rattle.c_answers.specs.Statuses as statuses;

use c_answers::fullness::{
    EtagereBucketedUsage, EtagereRefusal, EtagereUsage, bucketed_told, told,
};
use c_answers::geometry::EtagereSize;
use c_answers::statuses::{NULL_HANDLE, OK};
use c_answers::{EtagereAtlas, EtagereBucketed};

/// Tells why the size has no place: refusal->reason is ETAGERE_REFUSAL_.., the first that holds, or 0 exactly where
/// etagere_atlas_allocate has a place for it, memory aside. The atlas stays.
///
/// Answers ETAGERE_OK; ETAGERE_NULL_HANDLE. Takes no memory. Takes constant time where the size alone is the reason, and
/// else goes through all shelves and the free items of those that are tall enough.
#[unsafe(no_mangle)]
pub extern "C" fn etagere_atlas_refusal(
    atlas: &mut EtagereAtlas,
    size: EtagereSize,
    refusal: &mut EtagereRefusal,
) -> u32
    ensures null { (result ≡ statuses.null_handle) ↔ (atlas.old.state ≡ None) }
    ensures status { IsAmong (statuses.ok ∷ statuses.null_handle ∷ []) result }
    ensures refusal { result ≡ statuses.ok → IfSome atlas.old.state (λ held. refusal.new ≡ told (refusals.refusal held (size_in size))) }
    ensures unwritten { result ≢ statuses.ok → refusal.new ≡ refusal.old }
    ensures stays { atlas.new.state ≡ atlas.old.state }
{
    let Some(held) = atlas.lend() else {
        return NULL_HANDLE;
    };
    *refusal = told(held.refusal(size.size()));
    OK
}

/// Gives how full the atlas is. The atlas stays.
///
/// Answers ETAGERE_OK; ETAGERE_NULL_HANDLE. Takes no memory, and goes through all shelves and free items.
#[unsafe(no_mangle)]
pub extern "C" fn etagere_atlas_usage(atlas: &mut EtagereAtlas, usage: &mut EtagereUsage) -> u32
    ensures null { (result ≡ statuses.null_handle) ↔ (atlas.old.state ≡ None) }
    ensures status { IsAmong (statuses.ok ∷ statuses.null_handle ∷ []) result }
    ensures usage { result ≡ statuses.ok → IfSome atlas.old.state (λ held. usage_in usage.new ≡ usages.usage held) }
    ensures unwritten { result ≢ statuses.ok → usage.new ≡ usage.old }
    ensures stays { atlas.new.state ≡ atlas.old.state }
{
    let Some(held) = atlas.lend() else {
        return NULL_HANDLE;
    };
    *usage = EtagereUsage::of(held.usage());
    OK
}

/// Gives the widest free item along the shelves, and of equally wide ones the tallest; 0 by 0 where none is free. A size
/// as large may have no place, where its rounded height is above that of the shelf. The atlas stays.
///
/// Answers ETAGERE_OK; ETAGERE_NULL_HANDLE. Takes no memory, and goes through all shelves and free items.
#[unsafe(no_mangle)]
pub extern "C" fn etagere_atlas_largest_free(
    atlas: &mut EtagereAtlas,
    size: &mut EtagereSize,
) -> u32
    ensures null { (result ≡ statuses.null_handle) ↔ (atlas.old.state ≡ None) }
    ensures status { IsAmong (statuses.ok ∷ statuses.null_handle ∷ []) result }
    ensures largest_free { result ≡ statuses.ok → IfSome atlas.old.state (λ held. size_in size.new ≡ usages.largest_free held) }
    ensures unwritten { result ≢ statuses.ok → size.new ≡ size.old }
    ensures stays { atlas.new.state ≡ atlas.old.state }
{
    let Some(held) = atlas.lend() else {
        return NULL_HANDLE;
    };
    *size = EtagereSize::of(held.largest_free());
    OK
}

/// Tells why the size has no place: refusal->reason is ETAGERE_BUCKETED_REFUSAL_.., the first that holds, or 0 exactly
/// where etagere_bucketed_allocate has a place for it, memory aside. The atlas stays.
///
/// Answers ETAGERE_OK; ETAGERE_NULL_HANDLE. Takes no memory. Where there is a place, it costs the search of
/// etagere_bucketed_allocate; else it goes through the shelves once more, and through the buckets of those that are tall
/// enough.
#[unsafe(no_mangle)]
pub extern "C" fn etagere_bucketed_refusal(
    atlas: &mut EtagereBucketed,
    size: EtagereSize,
    refusal: &mut EtagereRefusal,
) -> u32
    ensures null { (result ≡ statuses.null_handle) ↔ (atlas.old.state ≡ None) }
    ensures status { IsAmong (statuses.ok ∷ statuses.null_handle ∷ []) result }
    ensures refusal { result ≡ statuses.ok → IfSome atlas.old.state (λ held. refusal.new ≡ bucketed_told (bucketed_refusals.refusal held (size_in size))) }
    ensures unwritten { result ≢ statuses.ok → refusal.new ≡ refusal.old }
    ensures stays { atlas.new.state ≡ atlas.old.state }
{
    let Some(buckets) = atlas.lend() else {
        return NULL_HANDLE;
    };
    *refusal = bucketed_told(buckets.refusal(size.size()));
    OK
}

/// Gives how full the atlas is. The atlas stays.
///
/// Answers ETAGERE_OK; ETAGERE_NULL_HANDLE. Takes no memory, and goes through all shelves and buckets.
#[unsafe(no_mangle)]
pub extern "C" fn etagere_bucketed_usage(
    atlas: &mut EtagereBucketed,
    usage: &mut EtagereBucketedUsage,
) -> u32
    ensures null { (result ≡ statuses.null_handle) ↔ (atlas.old.state ≡ None) }
    ensures status { IsAmong (statuses.ok ∷ statuses.null_handle ∷ []) result }
    ensures usage { result ≡ statuses.ok → IfSome atlas.old.state (λ held. bucketed_usage_in usage.new ≡ bucketed_usages.usage held) }
    ensures unwritten { result ≢ statuses.ok → usage.new ≡ usage.old }
    ensures stays { atlas.new.state ≡ atlas.old.state }
{
    let Some(buckets) = atlas.lend() else {
        return NULL_HANDLE;
    };
    *usage = EtagereBucketedUsage::of(buckets.usage());
    OK
}

/// Gives the widest item that a shelf can give, with the height of that shelf; 0 by 0 where no shelf has room. The space
/// for a new shelf doesn't count, nor what several idle shelves could make together. The atlas stays.
///
/// Answers ETAGERE_OK; ETAGERE_NULL_HANDLE. Takes no memory, and goes through the shelves.
#[unsafe(no_mangle)]
pub extern "C" fn etagere_bucketed_largest_free(
    atlas: &mut EtagereBucketed,
    size: &mut EtagereSize,
) -> u32
    ensures null { (result ≡ statuses.null_handle) ↔ (atlas.old.state ≡ None) }
    ensures status { IsAmong (statuses.ok ∷ statuses.null_handle ∷ []) result }
    ensures largest_free { result ≡ statuses.ok → IfSome atlas.old.state (λ held. size_in size.new ≡ bucketed_usages.largest_free held) }
    ensures unwritten { result ≢ statuses.ok → size.new ≡ size.old }
    ensures stays { atlas.new.state ≡ atlas.old.state }
{
    let Some(buckets) = atlas.lend() else {
        return NULL_HANDLE;
    };
    *size = EtagereSize::of(buckets.largest_free());
    OK
}
