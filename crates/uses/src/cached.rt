//! A page of text through a small cache of glyphs: each letter of standard input gets a place in one atlas, and the
//! atlas is drawn as it is in the end.

use anyhow::{Context, Result};
use etagere::{AtlasAllocator, DEFAULT_OPTIONS, Size, size2};
use glyph_shelf::GlyphCache;
use std::io::{self, Read};
use std::num::NonZeroUsize;

/// The atlas has these sides in pixels.
const SIDES: (i32, i32) = (160, 96);

/// At most so many glyphs are kept.
const MOST_GLYPHS: usize = 64;

pub fn draw_text(rt: &(impl Input + Print + AllocGlobal)) -> Result<()> {
    let text = text_of(rt)?;
    draw_glyphs(rt, &text)
}

fn text_of(rt: &(impl Input + AllocGlobal)) -> Result<Vec<u8>> {
    let mut text = Vec::new(rt.alloc());
    rt.reader().read_to_end(&mut text)?;
    Ok(text)
}

fn draw_glyphs(rt: &(impl Print + AllocGlobal), text: &[u8]) -> Result<()> {
    let mut cache = empty_cache(rt)?;
    draw_placed(rt, &mut cache, text)
}

fn draw_placed(rt: &impl Print, cache: &mut GlyphCache, text: &[u8]) -> Result<()> {
    place_text(cache, text)?;
    draw(rt, cache.atlas())
}

fn draw(rt: &impl Print, atlas: &AtlasAllocator) -> Result<()> {
    atlas.dump_svg(&mut io::writer(rt))?;
    Ok(())
}

fn empty_cache(rt: &impl AllocGlobal) -> Result<GlyphCache> {
    let capacity = NonZeroUsize::new(MOST_GLYPHS).context("no capacity")?;
    let (width, height) = SIDES;
    let cache = GlyphCache::new(rt.alloc(), size2(width, height), &DEFAULT_OPTIONS, capacity)?;
    Ok(cache)
}

fn place_text(cache: &mut GlyphCache, text: &[u8]) -> Result<()> {
    for line in text.split(|byte| *byte == b'\n') {
        place_line(cache, line)?;
    }
    Ok(())
}

/// Places the glyphs of a line. One that begins with `#` is a heading.
fn place_line(cache: &mut GlyphCache, line: &[u8]) -> Result<()> {
    let is_heading = line.first() == Some(&b'#');
    for letter in line {
        if letter.is_ascii_graphic() {
            cache.place(key_of(*letter, is_heading), glyph_size(*letter, is_heading))?;
        }
    }
    Ok(())
}

/// The key of a letter in the type of headings or of text.
fn key_of(letter: u8, is_heading: bool) -> u64 {
    u64::from(letter) + if is_heading { 256 } else { 0 }
}

/// How large a letter is drawn, in pixels.
fn glyph_size(letter: u8, is_heading: bool) -> Size {
    let type_size = if is_heading { 2 } else { 1 };
    let wide = if letter == b'm' || letter == b'w' {
        3
    } else {
        0
    };
    let tall = if letter.is_ascii_uppercase() { 4 } else { 0 };
    size2(
        (5 + wide + i32::from(letter % 3)) * type_size,
        (8 + tall) * type_size,
    )
}
