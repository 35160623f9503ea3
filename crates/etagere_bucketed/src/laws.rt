//! What the laws of restoring are stated of: the counted form of `restore`, and saving and restoring as one. Public,
//! and not meant for users.

ghost use Rattle.std.specs.Prelude.{◌≡◌, IfErr, IfOk};
ghost use Rattle.etagere_base.specs.declared.faults.RestoreFault.TheVariants as faults;
ghost use Rattle.etagere_bucketed.specs.RecordLaws.{BrokenStandsForNone, OnlyMemoryIsWanting, StandsForOne};

use crate::atlas::BucketedAtlasAllocator;
pub use crate::restored::restore_bucketed;
use etagere_base::RestoreFault;
use std::alloc::Global;

/// Records stand for one state at most, and those of which a rule is broken for none: so a `restore` of what stands for
/// one finds no fault but `Memory`. It is a law, and does nothing.
pub fn records_stand_for_one_state()
    ensures one { StandsForOne }
    ensures none { BrokenStandsForNone }
    ensures memory { OnlyMemoryIsWanting }
{}

/// Saves an atlas and restores what was saved: the other atlas is in the same state. It is a law, and not meant for
/// users.
///
/// The error is `Memory`, and comes only where there was no memory. Takes memory for all records, for what is kept
/// beside the shelves, and some for each record while it runs. The time is linear in the number of records.
pub fn saved_and_restored(
    alloc: Global,
    atlas: &BucketedAtlasAllocator,
) -> Result<BucketedAtlasAllocator, RestoreFault>
    ensures ok { IfOk result (λ other. other ≡ atlas.now) }
    ensures memory { IfErr result (λ fault. fault ≡ faults.Memory) }
{
    let Ok(snapshot) = atlas.snapshot() else {
        return Err(RestoreFault::Memory);
    };
    records_stand_for_one_state();
    BucketedAtlasAllocator::restore(alloc, snapshot)
}
