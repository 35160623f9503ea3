//! The lists of a snapshot, walked record by record.

use crate::snapshots::{Chain, Record, Snapshot};
use snapshot_records::shelves::AtlasSnapshot;
use std::alloc::{AllocError, Global};

/// The link to no record.
const NONE: u16 = 65535;

/// How a walk ends.
#[derive(Clone, Copy, PartialEq)]
pub enum End {
    AtNone,
    PastTheRecords,
    /// Before this record, which it has met.
    AtMet(usize),
}

/// What a walk meets, in order, and how it ends.
#[derive(Drop)]
pub struct Walk {
    pub chain: Chain,
    pub met: Vec<usize>,
    pub end: End,
}

impl Walk {
    /// The record whose link the walk followed last.
    pub fn last(&self) -> Record {
        match self.met.last() {
            Some(number) => self.chain.record(*number),
            None => self.chain.head(),
        }
    }

    /// The first record that doesn't link back to the one before it.
    pub fn first_astray(&self, snapshot: &AtlasSnapshot) -> Option<Record> {
        let mut before = usize::from(NONE);
        for number in &self.met {
            if let Some(back) = back(snapshot, self.chain, *number) {
                if usize::from(back) != before {
                    return Some(self.chain.record(*number));
                }
            }
            before = *number;
        }
        None
    }
}

/// The link back from a record; none where the list has no such links.
fn back(snapshot: &AtlasSnapshot, chain: Chain, number: usize) -> Option<u16> {
    match chain {
        Chain::Shelves => Some(snapshot.shelves.get(number)?.prev),
        Chain::Items(_) => Some(snapshot.items.get(number)?.prev),
        Chain::FreeList(_) => Some(snapshot.items.get(number)?.prev_unallocated),
        _ => None,
    }
}

/// Walks a list to its end, to a link past the records, or to a record that it has met.
pub fn walk_along<S: Snapshot>(
    alloc: Global,
    snapshot: &S,
    chain: Chain,
) -> Result<Walk, AllocError> {
    let mut seen = vec![in alloc; false; 65535]?;
    let mut met = Vec::new(alloc);
    let mut link = snapshot.first(chain).unwrap_or(NONE);
    let mut end = End::AtNone;
    for _ in 0..65536u32 {
        let number = usize::from(link);
        if link == NONE {
            break;
        }
        let (Some(next), Some(mark)) = (snapshot.next(chain, number), seen.get_mut(number)) else {
            end = End::PastTheRecords;
            break;
        };
        if *mark {
            end = End::AtMet(number);
            break;
        }
        *mark = true;
        met.push(number)?;
        link = next;
    }
    Ok(Walk { chain, met, end })
}
