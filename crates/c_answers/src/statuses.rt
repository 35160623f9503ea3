//! The numbers that calls answer. From 100 on the last two digits are the number of a fault.
//!
//! Definitions: `Statuses`. The header has the same numbers.

ghost use Rattle.std.specs.Prelude.{◌≡◌};
ghost use Rattle.c_answers.specs.Statuses.{bucketed_grow_refused, cache_refused, cache_restore_refused, grow_refused, options_refused, restore_refused};

use etagere::{AtlasGrowFault, GrowFault, OptionsFault, RestoreFault};
use glyph_shelf::{CacheRestoreFault, GlyphFault};

pub const OK: u32 = 0;

/// The handle is null.
pub const NULL_HANDLE: u32 = 1;

/// The handle that is to be filled isn't null.
pub const HANDLE_IN_USE: u32 = 2;

/// There is no place for the size.
pub const NO_ROOM: u32 = 3;

/// A buffer is too short, or a capacity is 0.
pub const LENGTH: u32 = 4;

/// The bytes aren't the text of what is saved of the kind, or memory ran out while they were read.
pub const UNREADABLE: u32 = 5;

/// There was no memory.
pub const MEMORY: u32 = 6;

/// The cache hasn't the key.
pub const UNKNOWN_KEY: u32 = 7;

/// Nothing is allocated under the id.
pub const UNKNOWN_ID: u32 = 501;

/// Why no atlas was made.
pub fn options_refused(fault: OptionsFault) -> u32
    ensures { result ≡ options_refused fault }
{
    100 + fault.number()
}

/// Why an atlas didn't grow.
pub fn grow_refused(fault: AtlasGrowFault) -> u32
    ensures { result ≡ grow_refused fault }
{
    200 + fault.number()
}

/// Why a bucketed atlas didn't grow.
pub fn bucketed_grow_refused(fault: GrowFault) -> u32
    ensures { result ≡ bucketed_grow_refused fault }
{
    300 + fault.number()
}

/// Why no atlas was restored.
pub fn restore_refused(fault: RestoreFault) -> u32
    ensures { result ≡ restore_refused fault }
{
    400 + fault.number()
}

/// Why no cache was restored.
pub fn cache_restore_refused(fault: CacheRestoreFault) -> u32
    ensures { result ≡ cache_restore_refused fault }
{
    400 + fault.number()
}

/// Why a cache has no place for a key.
pub fn cache_refused(fault: &GlyphFault) -> u32
    ensures { result ≡ cache_refused fault.now }
{
    600 + fault.number()
}
