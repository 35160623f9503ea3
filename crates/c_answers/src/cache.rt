//! What the calls of a cache do to the cache that a handle holds, and what they write of a placing.
//!
//! Definitions: `Calls`, `Crossing`, `Evicted`, `Statuses`, and those of `glyph_shelf`.

ghost use Rattle.std.specs.Prelude.{◌≡◌, ◌≢◌, ◌*◌, ◌-◌, ◌<◌, None, Err, IfErr, IfOk, IfSome};
ghost use Rattle.std.specs.NonZero.{non_zero_usize_get};
ghost use Rattle.etagere_base.specs.Frames as frames;
ghost use Rattle.etagere_base.specs.Frames.{longest_side, options_fault};
ghost use Rattle.etagere_base.specs.declared.faults.OptionsFault.TheVariants as faults;
ghost use Rattle.glyph_shelf.specs.Cache.{empty_cache};
ghost use Rattle.glyph_shelf.specs.Promises.{KeepsCachePromises};
ghost use Rattle.c_answers.specs.Calls.{IsWritten};
ghost use Rattle.c_answers.specs.Evicted.{HasRoomFor, IsGone};
ghost use Rattle.etagere_shelves.specs.Plain.{rectangle_in};
ghost use Rattle.c_answers.specs.Crossing.{options_in, size_in};
ghost use Rattle.c_answers.specs.Statuses as statuses;

use crate::boxes::boxed;
use crate::buffers::write_keys;
use crate::geometry::{EtagereOptions, EtagereRectangle, EtagereSize};
use crate::statuses::{OK, cache_refused};
use etagere::OptionsFault;
use glyph_shelf::{GlyphCache, GlyphFault, Placed};
use std::alloc::Global;
use std::num::NonZeroUsize;

/// A boxed cache of this size and options.
pub fn made(
    alloc: Global,
    size: EtagereSize,
    options: &EtagereOptions,
    capacity: NonZeroUsize,
) -> Result<Box<GlyphCache>, OptionsFault>
    ensures made { IfOk result (λ boxed. boxed.value
        ≡ empty_cache (frames.atlas_frame (size_in size) (options_in options.now)) (non_zero_usize_get capacity)) }
    ensures fault { IfSome (options_fault longest_side (size_in size) (options_in options.now))
        (λ fault. result ≡ Err fault) }
    ensures promises { IfOk result (λ boxed. KeepsCachePromises boxed.value) }
    ensures memory { IfErr result (λ fault. options_fault longest_side (size_in size) (options_in options.now) ≡ None → fault ≡ faults.Memory) }
{
    let cache = GlyphCache::new(alloc, size.size(), &options.options(), capacity)?;
    boxed(alloc, cache)
}

/// Writes what a placing gave, and says by a status how it went.
pub fn write_placed(
    placed: Result<Placed, GlyphFault>,
    rectangle: &mut EtagereRectangle,
    evicted: &mut [u64],
    count: &mut usize,
) -> u32
    requires { HasRoomFor evicted.old placed }
    ensures placed { IfOk placed (λ placed. (result ≡ statuses.ok) × (rectangle_in rectangle.new ≡ placed.rectangle)
        × IsWritten placed.evicted.items evicted.old evicted.new count.new) }
    ensures fault { IfErr placed (λ fault. result ≡ statuses.cache_refused fault) }
    ensures gone { IfErr placed (λ fault. IsGone fault evicted.old evicted.new count.old count.new) }
    ensures unwritten { result ≢ statuses.ok → rectangle.new ≡ rectangle.old }
{
    match placed {
        Ok(placed) => {
            *rectangle = EtagereRectangle::of(placed.rectangle);
            *count = write_keys(placed.evicted.as_slice(), evicted);
            OK
        }
        Err(fault) => {
            if let GlyphFault::Memory(gone) = &fault {
                *count = write_keys(gone.as_slice(), evicted);
            }
            cache_refused(&fault)
        }
    }
}
