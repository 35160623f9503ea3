//! The JSON texts that both atlases are saved as, and the atlases that are made from such text.
//!
//! Definitions: `Calls`, `Saving`, `Statuses`.

ghost use Rattle.std.specs.Prelude.{◌≡◌, ◌≢◌, ◌<◌, [], ◌∷◌, IfErr, IfOk, IfSome};
ghost use Rattle.shelf_model.specs.Atlas.{KeepsPromises};
ghost use Rattle.bucketed_model.specs.Atlas as buckets;
ghost use Rattle.c_answers.specs.Calls.{IsAmong};
ghost use Rattle.c_answers.specs.Saving.{Breaks, BreaksBucketed, IsRestoreStatus, Saves, SavesBucketed};
ghost use Rattle.c_answers.specs.Statuses as statuses;
ghost use Rattle.saved_json.specs.Snapshots.{Spells};

use crate::statuses::{UNREADABLE, restore_refused};
use etagere::{AtlasAllocator, BucketedAtlasAllocator, RestoreFault};
use saved_json::{ReadFault, Saved, read_saved, write_saved};
use std::alloc::Global;

/// The saved atlas that a text spells, or the status of that there is none.
pub fn read(alloc: Global, text: &[u8]) -> Result<Saved, u32>
    ensures saved { IfOk result (λ saved. Spells text.now saved) }
    ensures status { IfErr result (λ status. IsAmong (statuses.unreadable ∷ statuses.restore_memory ∷ []) status) }
{
    match read_saved(alloc, text) {
        Ok(saved) => Ok(saved),
        Err(ReadFault::Unreadable) => Err(UNREADABLE),
        Err(ReadFault::Memory) => Err(restore_refused(RestoreFault::Memory)),
    }
}

/// A box of an atlas, or the status of that there was no memory.
pub fn boxed<T: Drop>(alloc: Global, atlas: T) -> Result<Box<T>, u32>
    ensures made { IfOk result (λ boxed. boxed.value ≡ atlas) }
    ensures status { IfErr result (λ status. status ≡ statuses.restore_memory) }
{
    match Box::new(alloc, atlas) {
        Ok(boxed) => Ok(boxed),
        Err(_) => Err(restore_refused(RestoreFault::Memory)),
    }
}

/// The text that an atlas is saved as; none where there was no memory.
pub fn text_of(alloc: Global, atlas: &AtlasAllocator) -> Option<Vec<u8>>
    ensures { IfSome result (λ text. Saves text.items atlas.now) }
{
    let snapshot = atlas.snapshot().ok()?;
    write_saved(alloc, &Saved::Atlas(snapshot)).ok()
}

/// The boxed atlas that a text is saved as, or the status of that it isn't made.
pub fn made_of(alloc: Global, text: &[u8]) -> Result<Box<AtlasAllocator>, u32>
    ensures made { IfOk result (λ boxed. Saves text.now boxed.value × KeepsPromises boxed.value) }
    ensures status { IfErr result (λ status. (status ≢ statuses.ok) × (status ≢ statuses.handle_in_use) × IsRestoreStatus status) }
    ensures broken { IfErr result (λ status. statuses.unreadable < status → status < statuses.restore_memory → Breaks text.now status) }
{
    let Saved::Atlas(snapshot) = read(alloc, text)? else {
        return Err(UNREADABLE);
    };
    match AtlasAllocator::restore(alloc, snapshot) {
        Ok(atlas) => boxed(alloc, atlas),
        Err(fault) => Err(restore_refused(fault)),
    }
}

/// The text that an atlas is saved as; none where there was no memory.
pub fn bucketed_text_of(alloc: Global, atlas: &BucketedAtlasAllocator) -> Option<Vec<u8>>
    ensures { IfSome result (λ text. SavesBucketed text.items atlas.now) }
{
    let snapshot = atlas.snapshot().ok()?;
    write_saved(alloc, &Saved::Bucketed(snapshot)).ok()
}

/// The boxed atlas that a text is saved as, or the status of that it isn't made.
pub fn bucketed_made_of(alloc: Global, text: &[u8]) -> Result<Box<BucketedAtlasAllocator>, u32>
    ensures made { IfOk result (λ boxed. SavesBucketed text.now boxed.value × buckets.KeepsPromises boxed.value) }
    ensures status { IfErr result (λ status. (status ≢ statuses.ok) × (status ≢ statuses.handle_in_use) × IsRestoreStatus status) }
    ensures broken { IfErr result (λ status. statuses.unreadable < status → status < statuses.restore_memory → BreaksBucketed text.now status) }
{
    let Saved::Bucketed(snapshot) = read(alloc, text)? else {
        return Err(UNREADABLE);
    };
    match BucketedAtlasAllocator::restore(alloc, snapshot) {
        Ok(atlas) => boxed(alloc, atlas),
        Err(fault) => Err(restore_refused(fault)),
    }
}
