//! Making the atlas for which a snapshot stands, where that keeps every rule.
//!
//! Definitions: `Restoring`, `StandsFor` for the rules, and `RestoringSteps` for the steps. Time and steps are linear
//! in the number of records.

ghost use Rattle.std.specs.Prelude.{◌≡◌, ◌≤◌, ◌<◌, ◌*◌, ◌+◌, IfErr, IfOk, OnOk, length};
ghost use Rattle.bucketed_model.specs.Atlas.{KeepsPromises};
ghost use Rattle.bucketed_records.specs.Restoring as spec;
ghost use Rattle.bucketed_records.specs.StandsFor.{StandsFor};
ghost use Rattle.bucketed_restoring.specs.RestoringSteps.{IsRead, links_of_all};

use crate::atlas::BucketedAtlasAllocator;
use bucketed_records::saving::LinkedSnapshot;
use bucketed_restoring::restoring::judged_snapshot;
use etagere_base::RestoreFault;
use snapshot_records::buckets::BucketedSnapshot;
use std::alloc::Global;

/// Makes an atlas from a snapshot, as `BucketedAtlasAllocator::restore` does, and counts the links that it reads. It is
/// what the laws of restoring are stated of, and not meant for users.
///
/// Returns a fault whose rule is broken; `Memory` only where there was no memory. The snapshot is used up either way.
///
/// `steps` becomes the number of links that were read, whether the snapshot is accepted or refused: after `Ok` that of
/// all lists, and else that of the lists up to the first shelf that is refused, which is at most four times the number
/// of records. Takes memory for all records and for what is kept beside the shelves, and some more for each while it
/// runs.
pub fn restore_bucketed(
    alloc: Global,
    snapshot: BucketedSnapshot,
    steps: &mut u64,
) -> Result<BucketedAtlasAllocator, RestoreFault>
    ensures ok { IfOk result (λ atlas. StandsFor (spec.snapshot_records snapshot) atlas) }
    ensures fault { IfErr result (λ fault. spec.Breaks (spec.snapshot_records snapshot) fault) }
    ensures promises { IfOk result KeepsPromises }
    ensures all { OnOk result (steps.new ≡ links_of_all (spec.snapshot_records snapshot)) }
    ensures until { IfErr result (IsRead (spec.snapshot_records snapshot) steps.new) }
    ensures steps { OnOk result (length snapshot.buckets.items ≤ steps.new) }
    ensures bound { steps.new
        ≤ 4 * (length snapshot.shelves.items + length snapshot.buckets.items) }
{
    *steps = 0;
    let Ok(linked) = LinkedSnapshot::of(alloc, &snapshot) else {
        return Err(RestoreFault::Memory);
    };
    let judged = judged_snapshot(alloc, &linked, steps)?;
    Ok(BucketedAtlasAllocator::of_judged(judged, linked))
}
