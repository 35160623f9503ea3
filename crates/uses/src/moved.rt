//! A page of small pictures after long use: on the left as it is, full of gaps, and on the right as it is once all that
//! it has moved into a new page of the same size.

use anyhow::Result;
use etagere::{AllocId, AtlasAllocator, Rectangle, Size, point2, size2};
use moves::atlases::rearranged;
use std::io::{self, Write};

/// A page has these sides in pixels, and the second one begins so far to the right.
const SIDES: (i32, i32) = (160, 128);

const SECOND: u16 = 176;

/// So many pictures come before the page is drawn, and each stays until so many have come after it.
const COUNT: usize = 400;

const STAY: usize = 40;

pub fn draw_both(rt: &(impl Print + AllocGlobal)) -> Result<()> {
    let mut page = new_page(rt)?;
    draw_used(rt, &mut page)
}

/// What a new atlas promises ends here, so that it isn't gone through in what draws one.
fn new_page(rt: &impl AllocGlobal) -> Result<AtlasAllocator> {
    let (width, height) = SIDES;
    Ok(AtlasAllocator::new(rt.alloc(), size2(width, height))?)
}

fn draw_used(rt: &(impl Print + AllocGlobal), page: &mut AtlasAllocator) -> Result<()> {
    use_for_long(rt, page)?;
    let moved = moved_page(rt, page)?;
    draw_pages(&mut io::writer(rt), page, &moved)
}

/// A new page of the same size, into which all has moved.
fn moved_page(rt: &impl AllocGlobal, page: &AtlasAllocator) -> Result<AtlasAllocator> {
    let (width, height) = SIDES;
    Ok(rearranged(rt.alloc(), page, size2(width, height))?.atlas)
}

/// Draws both pages side by side.
fn draw_pages<W: Write>(output: &mut W, old: &AtlasAllocator, new: &AtlasAllocator) -> Result<()> {
    output.write_all(b"<svg xmlns=\"http://www.w3.org/2000/svg\" viewBox=\"0 0 336 128\">\n")?;
    draw_page(output, old, 0)?;
    draw_page(output, new, SECOND)?;
    output.write_all(b"</svg>\n")?;
    Ok(())
}

/// Pictures come and go; one that finds no room is left out.
fn use_for_long(rt: &impl AllocGlobal, atlas: &mut AtlasAllocator) -> Result<()> {
    let mut kept: Vec<Option<AllocId>> = Vec::new(rt.alloc());
    for number in 0..COUNT {
        if number >= STAY
            && let Some(Some(old)) = kept.get(number - STAY)
        {
            atlas.deallocate(*old)?;
        }
        let placed = atlas.allocate(picture_size(number as u16))?;
        kept.push(placed.map(|allocation| allocation.id))?;
    }
    Ok(())
}

/// How large the picture of a number is, in pixels.
fn picture_size(number: u16) -> Size {
    let number = i32::from(number);
    let wide = (number * 7 + number / 5) % 19;
    let tall = (number * 11 + number / 3) % 23;
    size2(6 + wide, 6 + tall)
}

/// Draws a page so far to the right.
fn draw_page<W: Write>(output: &mut W, atlas: &AtlasAllocator, left: u16) -> Result<()> {
    let (width, height) = SIDES;
    let left = i32::from(left);
    let area = Rectangle {
        min: point2(left, 0),
        max: point2(left + width, height),
    };
    atlas.dump_into_svg(Some(&area), output)?;
    Ok(())
}
