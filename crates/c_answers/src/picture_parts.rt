//! The pictures of both atlases as parts of other SVG documents.
//!
//! Definitions: `Svg` of both atlases.

ghost use Rattle.std.specs.Prelude.{◌≡◌, ◌<◌, Some, option_map, IfSome};
ghost use Rattle.shelf_model.specs.Svg.{svg_into};
ghost use Rattle.bucketed_model.specs.Svg as buckets;

use etagere::{AtlasAllocator, BucketedAtlasAllocator, Rectangle};
use std::alloc::Global;

/// The lines of an atlas for another document; none where there was no memory.
pub fn lines_of(
    alloc: Global,
    atlas: &AtlasAllocator,
    rectangle: Option<&Rectangle>,
) -> Option<Vec<u8>>
    ensures { IfSome result (λ text. text.items ≡ svg_into atlas.now (option_map (λ rectangle. rectangle.now) rectangle.entry)) }
{
    let mut text = Vec::new(alloc);
    atlas.dump_into_svg(rectangle, &mut text).ok()?;
    Some(text)
}

/// The lines of an atlas for another document; none where there was no memory.
pub fn bucketed_lines_of(
    alloc: Global,
    atlas: &BucketedAtlasAllocator,
    rectangle: Option<&Rectangle>,
) -> Option<Vec<u8>>
    ensures { IfSome result (λ text. text.items ≡ buckets.svg_into atlas.now (option_map (λ rectangle. rectangle.now) rectangle.entry)) }
{
    let mut text = Vec::new(alloc);
    atlas.dump_into_svg(rectangle, &mut text).ok()?;
    Some(text)
}
