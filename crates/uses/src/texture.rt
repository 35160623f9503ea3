//! Bytes of a texture: where the pixels of a rectangle that an atlas gave lie in a buffer of rows.
//!
//! Definition: `Texture`.

ghost use Rattle.std.specs.Prelude.{◌≡◌, ◌+◌, ◌*◌, ◌^◌, ◌<◌, ◌≤◌, ◌≤ℤ◌, ◌<ℤ◌, pos, IfSome, IfNone};
ghost use Rattle.etagere_base.specs.Rectangles.{IsInside};
ghost use Rattle.etagere_base.specs.Sides.{side};
ghost use Rattle.shelf_model.specs.Atlas.{KeepsPromises};
ghost use Rattle.shelf_model.specs.Places.{rectangle_of};
ghost use Rattle.uses.specs.Texture.{HasNoPixel, IsNoPixel, IsPixel, LiesAt};

use etagere::{AllocId, AtlasAllocator, Rectangle, Size};
use etagere_base::side;

/// How many bytes a pixel has: red, green, blue and how opaque it is.
pub const PIXEL_BYTES: usize = 4;

/// Where the first byte of a pixel stands in a buffer that holds the atlas row after row. The pixel is counted from
/// the corner of what is allocated under the id.
///
/// None comes exactly where nothing has the id, and where the pixel is outside its rectangle. Takes no memory, and
/// constant time.
pub fn pixel_offset(atlas: &AtlasAllocator, id: AllocId, x: u32, y: u32) -> Option<usize>
    ensures pixel { IfSome result (IsPixel atlas.now id x y) }
    ensures none { IfNone result (IsNoPixel atlas.now id x y) }
    ensures within { IfSome result (λ offset. offset + PIXEL_BYTES
        ≤ atlas.now.frame.width * atlas.now.frame.height * PIXEL_BYTES) }
{
    let size = atlas.size();
    let rectangle = rectangle_inside(atlas, id)?;
    let (left, top) = pixel_of(rectangle, x, y)?;
    Some(byte_at(size, left, top))
}

/// Where a pixel of a rectangle lies in what the rectangle is in, if it has that pixel.
fn pixel_of(rectangle: Rectangle, x: u32, y: u32) -> Option<(usize, usize)>
    requires from_left { pos 0 ≤ℤ rectangle.min.x }
    requires from_top { pos 0 ≤ℤ rectangle.min.y }
    requires wide { rectangle.min.x <ℤ rectangle.max.x }
    requires tall { rectangle.min.y <ℤ rectangle.max.y }
    ensures lies { IfSome result (λ pixel. LiesAt rectangle x y pixel.0 pixel.1) }
    ensures none { IfNone result (HasNoPixel rectangle x y) }
{
    let Rectangle { min, max } = rectangle;
    let left = whole(min.x) + x as usize;
    let top = whole(min.y) + y as usize;
    if left >= whole(max.x) || top >= whole(max.y) {
        return None;
    }
    Some((left, top))
}

/// What is allocated under an id lies inside the atlas.
fn rectangle_inside(atlas: &AtlasAllocator, id: AllocId) -> Option<Rectangle>
    requires { KeepsPromises atlas.now }
    ensures found { result ≡ rectangle_of atlas.now id }
    ensures inside { IfSome result (IsInside atlas.now.frame) }
{
    atlas.get(id)
}

/// A place, which is none below 0, as a number.
fn whole(place: i32) -> usize
    requires { pos 0 ≤ℤ place }
    ensures { pos result ≡ place }
{
    place as usize
}

/// Where the pixel at a place begins in a buffer of this size.
fn byte_at(size: Size, left: usize, top: usize) -> usize
    requires small { side size.width * side size.height < 2 ^ 31 }
    requires across { left < side size.width }
    requires down { top < side size.height }
    ensures begins { result ≡ (top * side size.width + left) * PIXEL_BYTES }
    ensures within { result + PIXEL_BYTES ≤ side size.width * side size.height * PIXEL_BYTES }
{
    (top * side(size.width) as usize + left) * PIXEL_BYTES
}
