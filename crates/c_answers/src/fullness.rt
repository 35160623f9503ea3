//! What crosses to C of why sizes have no place, and of how full atlases are.
//!
//! Definitions: `Crossing`, `Fullness`. The header has the same fields in the same order.

ghost use Rattle.std.specs.Prelude.{◌≡◌};
ghost use Rattle.c_answers.specs.Fullness.{bucketed_told, bucketed_usage_in, told, usage_in};

use crate::geometry::EtagereSize;
use etagere::{BucketedRefusal, BucketedUsage, Refusal, Usage};

/// Why a size has no place: the number of the reason, and how wide the widest is that has room, where that is the
/// reason. Both are 0 where the size has a place.
#[repr(C)]
#[derive(Clone, Copy)]
pub struct EtagereRefusal {
    pub reason: u32,
    pub widest: u32,
}

/// How full an atlas is.
#[repr(C)]
#[derive(Clone, Copy)]
pub struct EtagereUsage {
    pub shelves: u32,
    pub empty_shelves: u32,
    pub items: u32,
    pub free_items: u32,
    pub unused_records: u32,
    pub largest_free: EtagereSize,
}

/// How full a bucketed atlas is.
#[repr(C)]
#[derive(Clone, Copy)]
pub struct EtagereBucketedUsage {
    pub shelves: u32,
    pub idle_shelves: u32,
    pub buckets: u32,
    pub idle_buckets: u32,
    pub items: u32,
    pub unused_buckets: u32,
    pub largest_free: EtagereSize,
}

/// A reason, to go out.
pub fn told(refusal: Option<Refusal>) -> EtagereRefusal
    ensures { result ≡ told refusal }
{
    let Some(refusal) = refusal else {
        return EtagereRefusal {
            reason: 0,
            widest: 0,
        };
    };
    EtagereRefusal {
        reason: refusal.number(),
        widest: match refusal {
            Refusal::NoRoom { widest } => widest,
            _ => 0,
        },
    }
}

/// A reason, to go out.
pub fn bucketed_told(refusal: Option<BucketedRefusal>) -> EtagereRefusal
    ensures { result ≡ bucketed_told refusal }
{
    let Some(refusal) = refusal else {
        return EtagereRefusal {
            reason: 0,
            widest: 0,
        };
    };
    EtagereRefusal {
        reason: refusal.number(),
        widest: match refusal {
            BucketedRefusal::NoRoom { widest } => widest,
            _ => 0,
        },
    }
}

impl EtagereUsage {
    /// The same, to go out.
    pub fn of(usage: Usage) -> EtagereUsage
        ensures { usage_in result ≡ usage }
    {
        EtagereUsage {
            shelves: usage.shelves,
            empty_shelves: usage.empty_shelves,
            items: usage.items,
            free_items: usage.free_items,
            unused_records: usage.unused_records,
            largest_free: EtagereSize::of(usage.largest_free),
        }
    }
}

impl EtagereBucketedUsage {
    /// The same, to go out.
    pub fn of(usage: BucketedUsage) -> EtagereBucketedUsage
        ensures { bucketed_usage_in result ≡ usage }
    {
        EtagereBucketedUsage {
            shelves: usage.shelves,
            idle_shelves: usage.idle_shelves,
            buckets: usage.buckets,
            idle_buckets: usage.idle_buckets,
            items: usage.items,
            unused_buckets: usage.unused_buckets,
            largest_free: EtagereSize::of(usage.largest_free),
        }
    }
}
