//! Places three rectangles in an atlas, gives the first back in between, and prints where the last one lies.
#![tactic(auto)]

use anyhow::{Context, Result};
use etagere::{AtlasAllocator, Point, size2};

fn main(rt: HostRuntime) -> Result<()> {
    let mut atlas = AtlasAllocator::new(rt.alloc(), size2(1000, 1000))?;
    let corner = allocate_three(&mut atlas)?;
    println!(rt; "{} {}", corner.x, corner.y)?;
    Ok(())
}

fn allocate_three(atlas: &mut AtlasAllocator) -> Result<Point> {
    let first = atlas.allocate(size2(100, 100))?.context("no room")?;
    atlas.allocate(size2(900, 200))?.context("no room")?;
    atlas.deallocate(first.id)?;
    let last = atlas.allocate(size2(300, 200))?.context("no room")?;
    Ok(last.rectangle.min)
}
