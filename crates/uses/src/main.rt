//! Small callers of `etagere` and `glyph_shelf`, one an idea, most with a contract that says what they want. For each
//! argument, in order, the program prints a picture of pages, or worked answers of those with contracts.
#![tactic(auto)]

mod apart;
mod cached;
mod glyph_frames;
mod moved;
mod pages;
mod recording;
mod saving;
mod sheet;
mod texture;

use anyhow::{Context, Result, bail};
use apart::allocate_two;
use etagere::{AllocId, Allocation, AtlasAllocator, DEFAULT_OPTIONS, Rectangle, Size, size2};
use glyph_frames::draw_frames;
use glyph_shelf::GlyphCache;
use pages::{PAGE, PagedAllocation, allocate_on_pages};
use recording::Recorder;
use saving::reopen;
use sheet::allocate_sheet;
use std::env;
use std::num::NonZeroUsize;
use texture::pixel_offset;

fn main(rt: HostRuntime) -> Result<()> {
    for what in env::args(&rt)?.skip(1) {
        show_asked(&rt, what.as_str())?;
    }
    Ok(())
}

fn show_asked(rt: &(impl Input + Print + AllocGlobal), what: &str) -> Result<()> {
    match what {
        "answers" => show_answers(rt),
        "cached" => cached::draw_text(rt),
        "moved" => moved::draw_both(rt),
        _ => bail!("it shows `answers`, `cached` and `moved`"),
    }
}

fn show_answers(rt: &(impl Print + AllocGlobal)) -> Result<()> {
    show_two(rt)?;
    show_offset(rt)?;
    show_sheet(rt)?;
    show_frames(rt)?;
    show_pages(rt)?;
    show_saved(rt)?;
    show_recorded(rt)
}

fn show_two(rt: &(impl Print + AllocGlobal)) -> Result<()> {
    let mut atlas = new_atlas(rt, size2(100, 100))?;
    show_neither_and_both(rt, &mut atlas)
}

/// What a new atlas promises ends here, so that it isn't gone through in what shows one.
fn new_atlas(rt: &impl AllocGlobal, size: Size) -> Result<AtlasAllocator> {
    Ok(AtlasAllocator::new(rt.alloc(), size)?)
}

/// What an allocation promises ends here, so that it isn't gone through in what shows one.
fn allocate(atlas: &mut AtlasAllocator, size: Size) -> Result<AllocId> {
    Ok(atlas.allocate(size)?.context("no room")?.id)
}

fn show_neither_and_both(rt: &impl Print, atlas: &mut AtlasAllocator) -> Result<()> {
    show_neither(rt, atlas)?;
    show_both(rt, atlas)
}

fn show_neither(rt: &impl Print, atlas: &mut AtlasAllocator) -> Result<()> {
    let no_room = allocate_two(atlas, size2(60, 60), size2(60, 60))?.is_none();
    println!(rt; "two: neither {no_room}, nothing kept {}", atlas.is_empty())?;
    Ok(())
}

fn show_both(rt: &impl Print, atlas: &mut AtlasAllocator) -> Result<()> {
    let (one, other) = allocate_two(atlas, size2(60, 40), size2(40, 40))?.context("no room")?;
    show(rt, "two: one", one.rectangle)?;
    show(rt, "two: other", other.rectangle)
}

fn show_offset(rt: &(impl Print + AllocGlobal)) -> Result<()> {
    let mut atlas = new_atlas(rt, size2(1000, 1000))?;
    show_lower_of_two(rt, &mut atlas)
}

fn show_lower_of_two(rt: &impl Print, atlas: &mut AtlasAllocator) -> Result<()> {
    allocate(atlas, size2(100, 100))?;
    let lower = allocate(atlas, size2(1000, 800))?;
    show_offsets(rt, atlas, lower)
}

fn show_offsets(rt: &impl Print, atlas: &AtlasAllocator, id: AllocId) -> Result<()> {
    let first = pixel_offset(atlas, id, 0, 0);
    let last = pixel_offset(atlas, id, 999, 831);
    let below = pixel_offset(atlas, id, 0, 832);
    println!(rt; "offset: {first:?} {last:?} {below:?}")?;
    Ok(())
}

fn show_sheet(rt: &(impl Print + AllocGlobal)) -> Result<()> {
    let mut atlas = new_atlas(rt, size2(64, 64))?;
    show_placed(rt, &mut atlas)
}

fn show_placed(rt: &(impl Print + AllocGlobal), atlas: &mut AtlasAllocator) -> Result<()> {
    let sizes = [size2(32, 32), size2(16, 20), size2(20, 20), size2(64, 8)];
    let allocations = allocate_sheet(rt.alloc(), atlas, &sizes)?;
    show_allocations(rt, &allocations, sizes.len())
}

fn show_allocations(rt: &impl Print, allocations: &[Allocation], wanted: usize) -> Result<()> {
    for allocation in allocations {
        show(rt, "sheet", allocation.rectangle)?;
    }
    println!(rt; "sheet: placed {} of {wanted}", allocations.len())?;
    Ok(())
}

fn show_frames(rt: &(impl Print + AllocGlobal)) -> Result<()> {
    let mut cache = new_cache(rt)?;
    show_drawn(rt, &mut cache)
}

fn new_cache(rt: &impl AllocGlobal) -> Result<GlyphCache> {
    let capacity = NonZeroUsize::new(64).context("no capacity")?;
    Ok(GlyphCache::new(rt.alloc(), size2(64, 32), &DEFAULT_OPTIONS, capacity)?)
}

fn show_drawn(rt: &impl Print, cache: &mut GlyphCache) -> Result<()> {
    let drawn = draw_frames(cache, 100)?;
    println!(rt;
        "frames: rendered {}, evicted {}, there {}",
        drawn.rendered,
        drawn.evicted,
        cache.len()
    )?;
    Ok(())
}

fn show_pages(rt: &(impl Print + AllocGlobal)) -> Result<()> {
    let mut pages = Vec::new(rt.alloc());
    for side in [200, 200, 40, 300] {
        let paged = allocate_on_pages(rt.alloc(), &mut pages, size2(side, side))?;
        show_page(rt, side, paged)?;
    }
    Ok(())
}

fn show_page(rt: &impl Print, side: i32, paged: Option<PagedAllocation>) -> Result<()> {
    let Some(paged) = paged else {
        println!(rt; "pages: {side} is too large for {}", PAGE.width)?;
        return Ok(());
    };
    println!(rt; "pages: {side} on page {}", paged.page)?;
    show(rt, "pages", paged.allocation.rectangle)
}

fn show_saved(rt: &(impl Print + AllocGlobal)) -> Result<()> {
    let mut atlas = new_atlas(rt, size2(1000, 1000))?;
    let id = allocate(&mut atlas, size2(100, 100))?;
    show_reopened(rt, atlas, id)
}

fn show_reopened(
    rt: &(impl Print + AllocGlobal),
    atlas: AtlasAllocator,
    id: AllocId,
) -> Result<()> {
    let opened = reopen(rt.alloc(), atlas)?;
    show_under(rt, &opened, id)
}

fn show_under(rt: &impl Print, atlas: &AtlasAllocator, id: AllocId) -> Result<()> {
    show(rt, "saved", atlas.get(id).context("not there")?)
}

/// Prints a rectangle as its two corners.
fn show(rt: &impl Print, what: &str, rectangle: Rectangle) -> Result<()> {
    let Rectangle { min, max } = rectangle;
    println!(rt; "{what}: ({},{})-({},{})", min.x, min.y, max.x, max.y)?;
    Ok(())
}

/// The example of the README, with a second return, written down.
fn show_recorded(rt: &(impl Print + AllocGlobal)) -> Result<()> {
    let mut recorder = Recorder::new(rt.alloc(), size2(1000, 1000), &DEFAULT_OPTIONS)?;
    show_record(rt, &mut recorder)?;
    show_script(rt, recorder)
}

fn show_record(rt: &impl Print, recorder: &mut Recorder) -> Result<()> {
    let unknown = record(recorder)?;
    println!(rt; "recorded: unknown {unknown}")?;
    Ok(())
}

fn show_script(rt: &impl Print, recorder: Recorder) -> Result<()> {
    let script = recorder.finish().context("no memory")?;
    print!(rt; "{script}")?;
    Ok(())
}

/// Makes the calls of the example, and tells whether the second return was refused.
fn record(recorder: &mut Recorder) -> Result<bool> {
    let first = add(recorder, size2(100, 100))?;
    add(recorder, size2(900, 200))?;
    recorder.deallocate(first)?;
    let unknown = recorder.deallocate(first).is_err();
    add(recorder, size2(300, 200))?;
    Ok(unknown)
}

fn add(recorder: &mut Recorder, size: Size) -> Result<AllocId> {
    Ok(recorder.allocate(size)?.context("no room")?.id)
}
