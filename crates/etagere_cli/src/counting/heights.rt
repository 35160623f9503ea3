//! How many shelves of a snapshot have each height.

use etagere::{AtlasSnapshot, BucketedSnapshot};
use saved_json::Saved;
use std::alloc::{AllocError, Global};

/// So many shelves are this tall.
#[derive(Clone, Copy)]
pub struct SameHeight {
    pub height: u16,
    pub shelves: usize,
}

/// How many shelves in use have each height, by rising height.
pub fn heights_of(alloc: Global, saved: &Saved) -> Result<Vec<SameHeight>, AllocError> {
    let mut heights = match saved {
        Saved::Atlas(snapshot) => shelf_heights(alloc, snapshot)?,
        Saved::Bucketed(snapshot) => bucket_heights(alloc, snapshot)?,
    };
    heights.sort()?;
    let mut groups: Vec<SameHeight> = Vec::new(alloc);
    for height in heights.as_slice() {
        let same = SameHeight {
            height: *height,
            shelves: 1,
        };
        add_to(&mut groups, same)?;
    }
    Ok(groups)
}

/// Adds shelves to the last group, or begins a new one.
fn add_to(groups: &mut Vec<SameHeight>, same: SameHeight) -> Result<(), AllocError> {
    if let Some(last) = groups.last_mut() {
        if last.height == same.height {
            last.shelves = last.shelves.saturating_add(same.shelves);
            return Ok(());
        }
    }
    groups.push(same)?;
    Ok(())
}

fn shelf_heights(alloc: Global, snapshot: &AtlasSnapshot) -> Result<Vec<u16>, AllocError> {
    let mut heights = Vec::new(alloc);
    let mut number = snapshot.first_shelf;
    for _ in 0..snapshot.shelves.len() {
        let Some((height, next)) = shelf_of(snapshot, number) else {
            break;
        };
        heights.push(height)?;
        number = next;
    }
    Ok(heights)
}

/// How tall the shelf of a number is, and which is the next.
fn shelf_of(snapshot: &AtlasSnapshot, number: u16) -> Option<(u16, u16)> {
    let shelf = snapshot.shelves.get(usize::from(number))?;
    Some((shelf.height, shelf.next))
}

fn bucket_heights(alloc: Global, snapshot: &BucketedSnapshot) -> Result<Vec<u16>, AllocError> {
    snapshot
        .shelves
        .iter()
        .map(|shelf| shelf.height)
        .collect(alloc)
}
