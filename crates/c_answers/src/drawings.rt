//! The pictures of both atlases.
//!
//! Definitions: `Svg` of both atlases.

ghost use Rattle.std.specs.Prelude.{◌≡◌, ◌<◌, Some, IfSome};
ghost use Rattle.shelf_model.specs.Svg.{svg};
ghost use Rattle.bucketed_model.specs.Svg as buckets;

use etagere::{AtlasAllocator, BucketedAtlasAllocator};
use std::alloc::Global;

/// The picture of an atlas; none where there was no memory.
pub fn picture_of(alloc: Global, atlas: &AtlasAllocator) -> Option<Vec<u8>>
    ensures { IfSome result (λ text. text.items ≡ svg atlas.now) }
{
    let mut text = Vec::new(alloc);
    atlas.dump_svg(&mut text).ok()?;
    Some(text)
}

/// The picture of an atlas; none where there was no memory.
pub fn bucketed_picture_of(alloc: Global, atlas: &BucketedAtlasAllocator) -> Option<Vec<u8>>
    ensures { IfSome result (λ text. text.items ≡ buckets.svg atlas.now) }
{
    let mut text = Vec::new(alloc);
    atlas.dump_svg(&mut text).ok()?;
    Some(text)
}
