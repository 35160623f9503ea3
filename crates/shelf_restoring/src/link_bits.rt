//! The links of all records as bits, which walks follow.

ghost use Rattle.std.specs.Prelude.{◌≡◌, IfOk, OnOk, map};
ghost use Rattle.etagere_links.specs.Links.{bits_of};
ghost use Rattle.shelf_records.specs.ListEdits.{AreFitting};

use shelf_records::{Linked, next_of};
use std::alloc::{AllocError, Global};

/// The bits of the links to the next one, of all records in order of their numbers: what a walk follows.
///
/// Takes two bytes of memory for each record. The error comes only where there was no memory.
pub fn next_bits<List, T: Linked<List>>(
    alloc: Global,
    records: &[T],
) -> Result<Vec<u16>, AllocError>
    ensures bits { IfOk result
        (λ bits. bits.items ≡ map (λ here. bits_of (T.family.next here)) records.now) }
    ensures fit { OnOk result (AreFitting T.family.next records.now) }
{
    let mut bits = Vec::with_capacity(alloc, records.len())?;
    for number in 0..records.len() {
        bits.push_reserved(next_of::<List, T>(records, number).bits());
    }
    Ok(bits)
}
