//! An atlas that is saved, let go, and made again.

ghost use Rattle.std.specs.Prelude.{◌≡◌, IfOk, IfErr};
ghost use Rattle.etagere_base.specs.declared.faults.RestoreFault.TheVariants as faults;

use etagere::laws::records_stand_for_one_state;
use etagere::{AtlasAllocator, RestoreFault};
use std::alloc::Global;

/// Saves an atlas, lets it go, and restores what was saved: the same state, with the same ids.
///
/// The error is `Memory`, and comes only where memory was refused; then the atlas is gone. Takes the memory and time of
/// a snapshot and of a restore.
pub fn reopen(alloc: Global, atlas: AtlasAllocator) -> Result<AtlasAllocator, RestoreFault>
    ensures ok { IfOk result (λ opened. opened ≡ atlas) }
    ensures memory { IfErr result (λ fault. fault ≡ faults.Memory) }
{
    let Ok(snapshot) = atlas.snapshot() else {
        return Err(RestoreFault::Memory);
    };
    drop(atlas);
    records_stand_for_one_state();
    AtlasAllocator::restore(alloc, snapshot)
}
