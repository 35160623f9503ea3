//! What the laws of restoring are stated of: the form of `restore` that counts its steps, and saving and restoring in one
//! call. Public, but not meant for users.

ghost use Rattle.std.specs.Prelude.{◌≡◌, IfErr, IfOk};
ghost use Rattle.etagere_base.specs.declared.faults.RestoreFault.TheVariants as faults;
ghost use Rattle.etagere_shelves.specs.RecordLaws.{BrokenStandsForNone, OnlyMemoryIsWanting, StandsForOne};

use crate::atlas::AtlasAllocator;
pub use crate::restored::restore_atlas;
use etagere_base::RestoreFault;
use std::alloc::Global;

/// Records stand for one state at most, and those that break a rule for none: so a `restore` of what stands for one finds
/// no fault but `Memory`. It is a law, and does nothing.
pub fn records_stand_for_one_state()
    ensures one { StandsForOne }
    ensures none { BrokenStandsForNone }
    ensures memory { OnlyMemoryIsWanting }
{}

/// Saves an atlas and restores what was saved: the other atlas is in the same state. It is a law, and not meant for
/// users.
///
/// The error is `Memory`, and comes only where there was no memory. Takes memory for all records, some for each record
/// while it runs, and for an entry in the list by height for each shelf record, used or not. The time is linear in the
/// number of records, but for a sort of the shelves in use.
pub fn saved_and_restored(
    alloc: Global,
    atlas: &AtlasAllocator,
) -> Result<AtlasAllocator, RestoreFault>
    ensures ok { IfOk result (λ other. other ≡ atlas.now) }
    ensures memory { IfErr result (λ fault. fault ≡ faults.Memory) }
{
    let Ok(snapshot) = atlas.snapshot() else {
        return Err(RestoreFault::Memory);
    };
    records_stand_for_one_state();
    AtlasAllocator::restore(alloc, snapshot)
}
