//! Laws of runs on a cache, each the contract of a function that does nothing. Public, but not meant for users.
//!
//! Definitions: `Laws`, over `Runs`, `ReplyText` and `Replaying`.

ghost use Rattle.std.specs.NonZero.{non_zero_usize_get};
ghost use Rattle.etagere_base.specs.Frames.{IsAccepted, atlas_frame, longest_side};
ghost use Rattle.glyph_run.specs.Laws.{HasOneText, ReplaysHaveOneText};

use etagere::{AllocatorOptions, Size};
use std::num::NonZeroUsize;

/// From a size and options without a fault two runs of the same commands on a new cache, neither of which is refused
/// memory, have the same text: the commands alone decide it.
pub fn two_cache_runs_have_one_text(size: Size, options: AllocatorOptions, capacity: NonZeroUsize)
    requires { IsAccepted longest_side size options }
    ensures { HasOneText (atlas_frame size options) (non_zero_usize_get capacity) }
{}

/// An input decides all that its replay writes, where no memory is refused.
pub fn two_replays_have_one_text()
    ensures { ReplaysHaveOneText }
{}
