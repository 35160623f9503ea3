//! Everything that is allocated, one by one, by rising index, which is the number of its record.
//!
//! Definitions: `Listing`, and `Reading` for the same by records. Contracts see an `Iter` as the list of
//! what is still to come.

ghost use Rattle.std.specs.Prelude.{◌≡◌, true};
ghost use Rattle.std.specs.Iterator.{YieldsFirst, item_count};
ghost use Rattle.shelf_records.specs.AtlasRecords.{is_allocated_at};
ghost use Rattle.shelf_model.specs.Listing.{listed};
ghost use Rattle.shelf_records.specs.Private.Kept.{AreKept, state_of};
ghost use Rattle.shelf_records.specs.Private.Reading as reading;

use etagere_base::{AllocId, Allocation, Frame, INDEX_MODULUS};
use shelf_records::{LinkedItem, Records};
use shelf_search::looking::recorded_rectangle;
use std::alloc::AllocError;
use std::iter::FusedIterator;
use std::marker::Model;

/// What is allocated in an atlas, each once, by rising index. After the last comes none, for ever.
///
/// A step looks at the records up to the next one that is allocated, so all steps together take time linear
/// in the number of records.
#[derive(Drop)]
pub struct Iter<'a> {
    frame: &'a Frame,
    records: &'a Records,
    number: usize,
}

impl<'a> Model for Iter<'a> {
    ghost use Rattle.std.specs.Prelude.{List};
    ghost use Rattle.etagere_base.specs.declared.ids.Allocation.{Allocation};

    ghost Value = { List Allocation };

    ghost use Rattle.etagere_shelves.specs.Private.Listed.{IsListed, listed_in};

    ghost view = { listed_in };

    ghost invariant = { IsListed };
}

impl<'a> Iter<'a> {
    /// Everything that is allocated.
    pub(crate) fn new(frame: &'a Frame, records: &'a Records) -> Iter<'a>
        requires { AreKept frame.now records.now }
        ensures { result ≡ listed (state_of frame.now records.now) }
    {
        Iter {
            frame,
            records,
            number: 0,
        }
    }
}

impl<'a> Iterator for Iter<'a> {
    type Item = Allocation;

    ghost next_gives = { YieldsFirst (λ rest. rest) };

    ghost remaining = { item_count (λ rest. rest) };

    fn next(&mut self) -> Option<Allocation> {
        let Some(number) = next_allocated(self.records.items(), self.number) else {
            self.number = self.records.items().len();
            return None;
        };
        self.number = number + 1;
        Some(recorded_allocation(self.frame, self.records, number))
    }

    fn size_hint(&self) -> (usize, Option<usize>) {
        (0, Some(self.records.items().len() - self.number))
    }
}

impl<'a> FusedIterator for Iter<'a> {}

impl<'a> Clone for Iter<'a> {
    ghost is_clone = { λ iter other. other ≡ iter };

    fn clone(&self) -> Result<Iter<'a>, AllocError> {
        Ok(Iter {
            frame: self.frame,
            records: self.records,
            number: self.number,
        })
    }
}

/// The first item from this number on that is allocated.
fn next_allocated(items: &[LinkedItem], from: usize) -> Option<usize>
    ensures { result ≡ reading.next_allocated items.now from }
{
    for number in from..items.len() {
        if items[number].allocated {
            return Some(number);
        }
    }
    None
}

/// The allocation of the item of this number.
fn recorded_allocation(frame: &Frame, records: &Records, number: usize) -> Allocation
    requires kept { AreKept frame.now records.now }
    requires allocated { is_allocated_at records.now.items number ≡ true }
    ensures { result ≡ record {
      id = reading.recorded_id records.now.items number;
      rectangle = reading.recorded_rectangle frame.now records.now number;
    } }
{
    let generation = records.items()[number].generation;
    Allocation {
        id: AllocId::deserialize(number as u32 + INDEX_MODULUS * u32::from(generation)),
        rectangle: recorded_rectangle(frame, records, number),
    }
}
