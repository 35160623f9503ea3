//! Laws of the choice of a page and of snapshots, and saving and restoring in one call. Public, but not meant for users.
//!
//! Definitions: `Laws` and `Saved`. Functions that do nothing have no callers: they make the check prove the laws.

ghost use Rattle.std.specs.Prelude.{◌≡◌, IfErr, IfOk};
ghost use Rattle.atlas_pages.specs.Laws.{FirstFitIsFirst, FullestFirstIsFullest, NoneIsRefused};
ghost use Rattle.atlas_pages.specs.Saved.{BrokenPagesStandForNone, PagesStandForOne};
ghost use Rattle.atlas_pages.specs.declared.faults.PagesRestoreFault.TheVariants as faults;

use crate::faults::PagesRestoreFault;
use crate::pages::AtlasPages;
use std::alloc::Global;

/// By first fit the first page that has a place is chosen, by fullest first the fullest, and among equals the first;
/// none only where each page refuses the size.
pub fn a_page_is_chosen_by_the_rule()
    ensures first { FirstFitIsFirst }
    ensures fullest { FullestFirstIsFullest }
    ensures none { NoneIsRefused }
{}

/// A snapshot stands for one state of pages at most, and one that breaks a rule for none.
pub fn snapshots_stand_for_one_state()
    ensures one { PagesStandForOne }
    ensures none { BrokenPagesStandForNone }
{}

/// Saves pages and restores what was saved: the other pages are in the same state.
///
/// The error is `Memory`, and comes only where there was no memory. Takes the memory of both calls.
pub fn saved_and_restored(
    alloc: Global,
    pages: &AtlasPages,
) -> Result<AtlasPages, PagesRestoreFault>
    ensures ok { IfOk result (λ other. other ≡ pages.now) }
    ensures memory { IfErr result (λ fault. fault ≡ faults.Memory) }
{
    let Ok(snapshot) = pages.snapshot() else {
        return Err(PagesRestoreFault::Memory);
    };
    AtlasPages::restore(alloc, snapshot)
}
