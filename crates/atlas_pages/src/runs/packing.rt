//! A list of sizes that is packed at once: each gets the place that a run on new pages gives it.
//!
//! Definition: `Packing`, over `Running`.

ghost use Rattle.std.specs.Prelude.{◌≡◌, IfErr, IfOk, OnOk};
ghost use Rattle.atlas_pages.specs.Pages.{ArePageOptions};
ghost use Rattle.atlas_pages.specs.Runs.Packing.{asked_for};
ghost use Rattle.atlas_pages.specs.Runs.Running.{PageRunKeepsPromisesThroughout, RefusesPageRun, RunsToOnPages};

use crate::runs::commands::{PageCommand, PageReply};
use crate::runs::run_faults::PageRunFault;
use crate::runs::running::run_pages;
use crate::{AtlasPages, PageOptions};
use etagere_shelves::Size;
use std::alloc::{AllocError, Global};

/// Asks for these sizes in order on new pages of these options, and gives the reply to each: its place, or that no page
/// has one and none may be opened.
///
/// Errors as `run_pages`. Takes memory for a command and a reply for each size, beside what the pages take.
pub fn pack(
    alloc: Global,
    options: &PageOptions,
    sizes: &[Size],
) -> Result<Vec<PageReply>, PageRunFault>
    ensures packed { IfOk result
        (λ replies. RunsToOnPages options.now (asked_for sizes.now) replies.items) }
    ensures promises { IfOk result (λ replies.
        PageRunKeepsPromisesThroughout options.now (asked_for sizes.now) replies.items) }
    ensures accepted { OnOk result (ArePageOptions options.now) }
    ensures err { IfErr result (RefusesPageRun options.now) }
{
    let _ = AtlasPages::new(alloc, options).map_err(PageRunFault::Options)?;
    let Ok(commands) = commands_for(alloc, sizes) else {
        return Err(PageRunFault::Memory);
    };
    run_pages(alloc, options, commands.as_slice())
}

/// The commands that ask for these sizes.
fn commands_for(alloc: Global, sizes: &[Size]) -> Result<Vec<PageCommand>, AllocError>
    ensures { IfOk result (λ commands. commands.items ≡ asked_for sizes.now) }
{
    sizes
        .iter()
        .map(|size| PageCommand::Allocate(*size))
        .collect(alloc)
}
