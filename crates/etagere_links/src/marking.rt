//! Marks of the records that walks met, so that no list has one that another has.
//!
//! Definitions: `Marks`, and `WalkFaults` for what a walk is refused for.

ghost use Rattle.std.specs.Prelude.{◌≡◌, ℕ, ◌+◌, ◌^◌, ◌++◌, ◌<◌, ◌≤◌, false, List, [], IsTrue, IfOk, IfErr, OnOk, drop, length};
ghost use Rattle.etagere_links.specs.Links.{no_link};
ghost use Rattle.etagere_links.specs.Marks.{IsMarkedBy};
ghost use Rattle.etagere_links.specs.Lists.{HasEachOnce};
ghost use Rattle.etagere_links.specs.Private.Marking.{IsMarkedAlong};
ghost use Rattle.etagere_links.specs.WalkFaults as faults;
ghost use Rattle.etagere_links.specs.WalkFaults.{BreaksOff, IsFirst, first_fault, links_by};
ghost use Rattle.etagere_links.specs.Walks as spec;

use crate::walking::WalkRoom;
use etagere_base::RestoreFault;
use std::alloc::{AllocError, Global};

/// Why what a walk meets is no list of records of its own.
#[derive(Clone, Copy, Debug, PartialEq, Eq, Drop)]
pub enum WalkFault {
    /// It stops at a number that is no record's, and that isn't the one of no link.
    OutOfRange,
    /// It meets a record that was marked before.
    Marked,
    /// It comes back to a record that it has met.
    Circular,
    /// There was no memory.
    Memory,
}

/// What is wrong with a snapshot where a walk along one of its lists is refused.
pub fn restore_fault(fault: WalkFault) -> RestoreFault
    ensures { result ≡ faults.restore_fault fault }
{
    match fault {
        WalkFault::OutOfRange => RestoreFault::Link,
        WalkFault::Marked => RestoreFault::Sharing,
        WalkFault::Circular => RestoreFault::Sharing,
        WalkFault::Memory => RestoreFault::Memory,
    }
}

/// Follows links from `start` on and marks what it meets, which is a list of records that ends at none and
/// of which none was marked before. Puts them behind those in `met`, and adds the links that were read to `steps`, also
/// where the walk is refused.
///
/// Returns the first fault, in the order of `WalkFault`, where what was met is no such list; then the marks and `met`
/// are of no use. `Memory` comes only where there was none, and then no link is counted. Takes memory only where `met`
/// has too little room. The time is linear in the number of records met.
#[inline(always)]
pub fn mark_onto(
    room: &mut WalkRoom,
    marks: &mut [bool],
    met: &mut Vec<u16>,
    links: &[u16],
    start: u16,
    steps: &mut u64,
) -> Result<(), WalkFault>
    requires few { length links.now ≤ no_link }
    requires room { length links.now ≤ room.old }
    requires marks { length marks.old ≡ length links.now }
    requires steps { steps.old < 2 ^ 32 }
    ensures room { room.new ≡ room.old }
    ensures met { OnOk result (met.new.items ≡ met.old.items ++ (spec.walk links.now start).met) }
    ensures end { OnOk result ((spec.walk links.now start).end ≡ no_link) }
    ensures marked { OnOk result ((numbers : List ℕ) → IsMarkedBy marks.old numbers →
        IsMarkedBy marks.new (numbers ++ (spec.walk links.now start).met)) }
    ensures none { OnOk result
        (first_fault marks.old (length links.now) (spec.walk links.now start) ≡ None) }
    ensures first { IfErr result
        (IsFirst marks.old (length links.now) (spec.walk links.now start)) }
    ensures fault { IfErr result
        (BreaksOff marks.old (length links.now) (spec.walk links.now start)) }
    ensures steps { OnOk result
        (steps.new ≡ steps.old + length (spec.walk links.now start).met) }
    ensures read { IfErr result
        (λ fault. steps.new ≡ steps.old + links_by (spec.walk links.now start) fault) }
    ensures bound { steps.new ≤ steps.old + length links.now }
{
    if start == u16::MAX {
        return Ok(());
    }
    let before = met.len();
    let Ok(at) = mark_along(marks, met, links, start) else {
        return Err(WalkFault::Memory);
    };
    let marked = met.len();
    if at == u16::MAX {
        *steps += (marked - before) as u64;
        return Ok(());
    }
    let Ok(end) = room.walk_on(met, before, links, at) else {
        return Err(WalkFault::Memory);
    };
    *steps += (met.len() - before) as u64;
    if end != u16::MAX && links.len() <= usize::from(end) {
        return Err(WalkFault::OutOfRange);
    }
    if marked < met.len() {
        return Err(WalkFault::Marked);
    }
    Err(WalkFault::Circular)
}

/// Follows links from `start` on as a walk does, but up to a record that is marked, and marks what it meets. Puts these
/// records behind those in `met`, and returns the link at which it stopped.
fn mark_along(
    marks: &mut [bool],
    met: &mut Vec<u16>,
    links: &[u16],
    start: u16,
) -> Result<u16, AllocError>
    requires few { length links.now ≤ no_link }
    requires marks { length marks.old ≡ length links.now }
    ensures met { OnOk result
        (met.new.items ≡ met.old.items ++ drop (length met.old.items) met.new.items) }
    ensures along { IfOk result (IsMarkedAlong marks.old marks.new links.now start
        (drop (length met.old.items) met.new.items)) }
{
    let mut at = start;
    for _ in 0..links.len() {
        let number = usize::from(at);
        if number >= links.len() || marks[number] {
            break;
        }
        marks[number] = true;
        met.push(at)?;
        at = links[number];
    }
    Ok(at)
}

/// Room for walks through so many records, at most 65535, and marks of which none is set. Takes three bytes of memory for
/// each record.
pub fn room_and_marks(alloc: Global, count: usize) -> Result<(WalkRoom, Vec<bool>), AllocError>
    ensures room { IfOk result (λ made. made.0 ≡ count) }
    ensures none { IfOk result (λ made. IsMarkedBy made.1.items []) }
    ensures count { IfOk result (λ made. length made.1.items ≡ count) }
{
    let room = WalkRoom::new(alloc, count)?;
    Ok((room, vec![in alloc; false; count]?))
}

/// Whether all records are marked. The time is linear in their number. No mark ends the loop, so many are read at once.
pub fn all_marked(marks: &[bool]) -> bool
    ensures all { IsTrue result → (numbers : List ℕ) →
        IsMarkedBy marks.now numbers → HasEachOnce (length marks.now) numbers }
    ensures missing { result ≡ false → (numbers : List ℕ) →
        IsMarkedBy marks.now numbers → HasEachOnce (length marks.now) numbers → ⊥ }
{
    let mut all = true;
    for is_marked in marks {
        all &= *is_marked;
    }
    all
}
