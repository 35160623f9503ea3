//! Why a map has no room for a key, with what was to be placed; and why it can't be restored, with its keys and values.
//!
//! Definitions: `Faults`. Numbers and messages are public: a new fault gets a new number.

ghost use Rattle.std.specs.Prelude.{◌≡◌};
ghost use Rattle.glyph_map.specs.Faults.{map_fault_number, map_restore_fault_number};

use glyph_shelf::CacheRestoreFault;
use thiserror::Error;

/// Why there is no room for a key. Numbers and names are those of `GlyphFault`.
#[derive(Debug, Drop)]
pub enum MapFault<K, V> {
    /// The key is new, and an empty atlas of the same size and options has no room for its size. Nothing changed.
    TooLarge,
    /// The key is new, and there was no memory. These keys were evicted with their values before memory ran out, the
    /// least recently used first; the others are kept.
    Memory(Vec<(K, V)>),
    /// The key is new, and there would be no room though all keys went that weren't used in this frame. Nothing changed.
    FrameFull,
}

impl<K, V> MapFault<K, V> {
    /// The fault's number, from 1 to 3.
    pub fn number(&self) -> u32
        ensures { result ≡ map_fault_number self.now }
    {
        match self {
            MapFault::TooLarge => 1,
            MapFault::Memory(_) => 2,
            MapFault::FrameFull => 3,
        }
    }
}

/// A key that wasn't placed, and why: key and value come back.
#[derive(Debug, Drop)]
pub struct Refused<K, V> {
    /// The key, as it was given.
    pub key: K,
    /// The value, as it was given.
    pub value: V,
    /// Why the key wasn't placed.
    pub fault: MapFault<K, V>,
}

/// Why a map can't be restored from a snapshot with keys and values: a rule that these break. Where they break several,
/// any of them is returned.
#[derive(Clone, Copy, Debug, PartialEq, Eq, Error)]
pub enum MapRestoreFault {
    /// The snapshot breaks this rule, which is never `Memory`.
    #[error("{0}")]
    Cache(CacheRestoreFault),
    /// There was no memory.
    #[error("Memory")]
    Memory,
    /// There aren't as many keys with values as keys in the snapshot.
    #[error("WrongCount")]
    WrongCount,
    /// The key at this position, counted from 0, stands again behind it.
    #[error("SameKey")]
    SameKey(usize),
}

impl MapRestoreFault {
    /// The fault's number: that of the fault of a cache, from 1 to 16, or 17 or 18.
    pub fn number(self) -> u32
        ensures { result ≡ map_restore_fault_number self }
    {
        match self {
            MapRestoreFault::Cache(fault) => fault.number(),
            MapRestoreFault::Memory => 11,
            MapRestoreFault::WrongCount => 17,
            MapRestoreFault::SameKey(_) => 18,
        }
    }
}

/// A map that wasn't restored, and why: keys and values come back.
#[derive(Debug, Drop)]
pub struct NotRestored<K, V> {
    /// The keys with their values, as they were given.
    pub pairs: Vec<(K, V)>,
    /// Why the map wasn't restored.
    pub fault: MapRestoreFault,
}
