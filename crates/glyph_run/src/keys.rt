//! The capacities that words spell. A key is a number of `run_scripts`.
//!
//! Definition: `Words`, over `Numbers` of `run_scripts`. A word that spells none, or one out of range, is none.

ghost use Rattle.std.specs.Prelude.{◌≡◌, option_map};
ghost use Rattle.std.specs.NonZero.{non_zero_usize_get};
ghost use Rattle.glyph_run.specs.Words as spec;

use run_scripts::numbers::natural_of;
use std::num::NonZeroUsize;

/// The capacity that a word spells: one or more digits, where their value is at least 1 and fits a `u64`.
pub fn capacity_of(word: &[u8]) -> Option<NonZeroUsize>
    ensures { option_map non_zero_usize_get result ≡ spec.capacity_of word.now }
{
    NonZeroUsize::new(natural_of(word)? as usize)
}
