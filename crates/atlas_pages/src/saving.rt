//! Pages as they are saved, and how they are made again of what was saved, whoever wrote it.
//!
//! Definitions: `Saved`, over those of snapshots of an atlas.

ghost use Rattle.std.specs.Prelude.{◌≡◌, ◌<◌, ◌^◌, IfErr, IfOk, length};
ghost use Rattle.std.specs.List.{AllByRecursion};
ghost use Rattle.shelf_model.specs.Atlas.{KeepsPromises};
ghost use Rattle.shelf_model.specs.State.{AtlasState};
ghost use Rattle.shelf_records.specs.Snapshots.{snapshot_records};
ghost use Rattle.shelf_records.specs.StandsFor.{StandsFor};
ghost use Rattle.atlas_pages.specs.Pages.{ArePageOptions};
ghost use Rattle.atlas_pages.specs.Promises.{IsPage};
ghost use Rattle.atlas_pages.specs.Private.Restored.{IsRefusedAt};
ghost use Rattle.atlas_pages.specs.Private.Restored as restored;
ghost use Rattle.atlas_pages.specs.Saved.{ArePagesBroken, EachStandsFor};

use crate::faults::PagesRestoreFault;
use crate::options::PageOptions;
use etagere_base::{Frame, atlas_frame};
use etagere_shelves::{AtlasAllocator, AtlasSnapshot, RestoreFault};
use pictures::Pictured;
use std::alloc::{AllocError, Global};

/// Pages as they are saved, to be read by anyone and judged when they are restored.
#[derive(Debug, PartialEq, Eq, Drop)]
pub struct PagesSnapshot {
    /// How pages are made, how many there may be, and which of them gets a size.
    pub options: PageOptions,
    /// The open pages, by their numbers.
    pub pages: Vec<AtlasSnapshot>,
}

/// A snapshot of each page.
pub(crate) fn saved_pages(
    alloc: Global,
    pages: &[AtlasAllocator],
) -> Result<Vec<AtlasSnapshot>, AllocError>
    ensures { IfOk result (λ saved. EachStandsFor saved.items pages.now) }
{
    let mut saved = Vec::with_capacity(alloc, pages.len())?;
    for page in pages {
        saved.push(page.snapshot()?)?;
    }
    Ok(saved)
}

/// The pages of these options for which snapshots stand.
pub(crate) fn restored_pages(
    alloc: Global,
    options: &PageOptions,
    saved: Vec<AtlasSnapshot>,
) -> Result<Vec<AtlasAllocator>, PagesRestoreFault>
    requires options { ArePageOptions options.now }
    requires few { length saved.items < 2 ^ 32 }
    ensures stand { IfOk result (λ pages. EachStandsFor saved.items pages.items) }
    ensures pages { IfOk result (λ pages. AllByRecursion (IsPage options.now) pages.items) }
    ensures fault { IfErr result (ArePagesBroken (record { options = options.now; pages = saved })) }
{
    let frame = atlas_frame(options.size, &options.atlas);
    let mut pages = Vec::new(alloc);
    for snapshot in saved {
        let number = pages.len() as u32;
        let page = restored_page(alloc, &frame, number, snapshot)?;
        if pages.push(page).is_err() {
            return Err(PagesRestoreFault::Memory);
        }
    }
    Ok(pages)
}

/// The page of this frame for which a snapshot stands.
fn restored_page(
    alloc: Global,
    frame: &Frame,
    number: u32,
    saved: AtlasSnapshot,
) -> Result<AtlasAllocator, PagesRestoreFault>
    ensures stands { IfOk result (λ page. StandsFor (snapshot_records saved) page) }
    ensures frame { IfOk result (λ page. page.frame ≡ frame.now) }
    ensures promises { IfOk result KeepsPromises }
    ensures fault { IfErr result (IsRefusedAt frame.now number saved) }
{
    match AtlasAllocator::restore(alloc, saved) {
        Ok(page) => {
            if *page.frame() == *frame {
                Ok(page)
            } else {
                Err(PagesRestoreFault::OtherFrame(number))
            }
        }
        Err(fault) => Err(page_fault(number, fault)),
    }
}

/// The fault of a page whose snapshot breaks a rule, or for which there was no memory.
fn page_fault(number: u32, fault: RestoreFault) -> PagesRestoreFault
    ensures { result ≡ restored.page_fault number fault }
{
    match fault {
        RestoreFault::Memory => PagesRestoreFault::Memory,
        _ => PagesRestoreFault::Page(number, fault),
    }
}
