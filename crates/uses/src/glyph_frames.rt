//! A cache of glyphs that is drawn from frame by frame.

ghost use Rattle.std.specs.Prelude.{◌≡◌, ◌+◌, ◌*◌, ◌≤◌, IfOk, IfSome, IfNone, length};
ghost use Rattle.glyph_shelf.specs.Promises.{KeepsCachePromises};

use etagere::size2;
use glyph_shelf::{GlyphCache, GlyphFault};

/// How many glyphs a frame shows.
pub const SHOWN: u64 = 5;

/// How many glyphs were rendered into the texture, and how many of these were evicted again.
#[derive(Clone, Copy, Default)]
pub struct Drawn {
    pub rendered: usize,
    pub evicted: usize,
}

/// Clears a cache, and draws so many frames from it. Frame `n` shows the glyphs `n` to `n + 4`.
///
/// What was rendered and not evicted is there in the end. Returns the fault of the first glyph that got no place.
pub fn draw_frames(cache: &mut GlyphCache, frames: u16) -> Result<Drawn, GlyphFault>
    ensures counted { IfOk result
        (λ drawn. length cache.new.entries + drawn.evicted ≡ drawn.rendered) }
    ensures few { IfOk result (λ drawn. drawn.rendered ≤ SHOWN * frames) }
    ensures promises { KeepsCachePromises cache.new }
{
    cache.clear();
    let mut drawn = Drawn::default();
    for frame in 0..frames {
        for shown in 0..SHOWN {
            if let Some(evicted) = render(cache, u64::from(frame) + shown)? {
                drawn.rendered += 1;
                drawn.evicted += evicted;
            }
        }
    }
    Ok(drawn)
}

/// Renders a glyph into the texture, and answers how many were evicted for it; none where it is there already.
fn render(cache: &mut GlyphCache, key: u64) -> Result<Option<usize>, GlyphFault>
    requires { KeepsCachePromises cache.old }
    ensures there { IfOk result (λ answer. IfNone answer
        (length cache.new.entries ≡ length cache.old.entries)) }
    ensures counted { IfOk result (λ answer. IfSome answer
        (λ evicted. length cache.new.entries + evicted ≡ length cache.old.entries + 1)) }
    ensures promises { KeepsCachePromises cache.new }
{
    if let Some(_rectangle) = cache.get(key) {
        return Ok(None);
    }
    let placed = cache.place(key, size2(10, 12))?;
    Ok(Some(placed.evicted.len()))
}
