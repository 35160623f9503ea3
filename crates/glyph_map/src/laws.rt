//! Laws of snapshots of a map, and saving and restoring in one call. Public, but not meant for users.
//!
//! Definitions: `Saved`. What is called here for nothing says a law, or what a map promises.

ghost use Rattle.std.specs.Prelude.{◌≡◌, IfErr, IfOk};
ghost use Rattle.glyph_map.specs.Saved.{BrokenMapStandsForNone, MapStandsForOne, without_frame};
ghost use Rattle.glyph_map.specs.State.{pairs_of};
ghost use Rattle.glyph_map.specs.declared.faults.MapRestoreFault.TheVariants as faults;

use crate::faults::{MapRestoreFault, NotRestored};
use crate::map::GlyphMap;
use glyph_shelf::laws::snapshots_stand_for_one_cache;
use std::alloc::Global;
use std::hash::Hash;

/// A snapshot with keys and values stands for one map at most, and where these break a rule for none.
pub fn snapshots_stand_for_one_map<K: Eq + Hash, V>()
    ensures one { MapStandsForOne K V }
    ensures none { BrokenMapStandsForNone V K.eq }
{
    snapshots_stand_for_one_cache();
}

/// Saves a map and restores what was saved with these keys and values. Where they are the map's, the other map is in the
/// same state, but for the frame.
///
/// The fault is `Memory` then, and comes only where there was no memory. Takes the memory of both calls.
pub fn saved_and_restored<K: Eq + Hash + Drop, V: Drop>(
    alloc: Global,
    map: &GlyphMap<K, V>,
    pairs: Vec<(K, V)>,
) -> Result<GlyphMap<K, V>, NotRestored<K, V>>
    ensures ok { pairs.items ≡ pairs_of map.now.entries
        → IfOk result (λ other. other ≡ without_frame map.now) }
    ensures memory { pairs.items ≡ pairs_of map.now.entries
        → IfErr result (λ refused. refused.fault ≡ faults.Memory) }
{
    snapshots_stand_for_one_cache();
    // A clause of this call says what every map keeps, which no clause of `snapshot` does.
    map.len();
    let Ok(snapshot) = map.snapshot() else {
        return Err(NotRestored {
            pairs,
            fault: MapRestoreFault::Memory,
        });
    };
    GlyphMap::restore(alloc, snapshot, pairs)
}
