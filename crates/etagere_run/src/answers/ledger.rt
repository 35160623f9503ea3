//! The ledger of a run: what each command was given that is live, of which the ids are kept. It has a slot for each
//! command, for which room is taken before the first one, so that nothing here takes memory later and a position is
//! found in one step.
//!
//! Definition: `Tables`, which reads the slots as the entries of `Live`. Another representation keeps the clauses
//! with its own reading; callers know nothing else of it.

ghost use Rattle.std.specs.Prelude.{◌≡◌, ◌<◌, ◌≤◌, ◌+◌, [], vec_capacity, vec_len, IfOk, IfSome, IfNone, SomeIff};
ghost use Rattle.etagere_run.specs.Answers.Private.Ids.{id_in, ids_in};
ghost use Rattle.etagere_run.specs.Answers.Live.{allocation_at, without};
ghost use Rattle.etagere_run.specs.Answers.Private.Given.{with_entry};

use crate::answers::table::{Change, Table};
use etagere::{AllocId, Allocation};
use std::alloc::{AllocError, Global};

/// What the commands were given that were answered so far.
#[derive(Drop)]
pub struct Ledger {
    /// A slot for each command, by its position, with the id of what it was given.
    slots: Vec<Option<AllocId>>,
    /// The first position that may be live: the slots before it don't count.
    floor: usize,
    /// The slots with the rectangles too.
    table: Table,
    ghost within: { floor ≤ vec_len slots },
    ghost ids: { slots.items ≡ ids_in table.slots },
}

impl Ledger {
    ghost use Rattle.etagere_run.specs.Answers.Private.Tables.{HasSlotsOf, entries_of};

    /// An empty ledger with room for the slots of so many commands.
    pub fn with_capacity(alloc: Global, count: usize) -> Result<Ledger, AllocError>
        ensures empty { IfOk result (λ ledger. entries_of ledger ≡ []) }
        ensures length { IfOk result (λ ledger. vec_len ledger.slots ≡ 0) }
        ensures room { IfOk result (λ ledger. count ≤ vec_capacity ledger.slots) }
    {
        let slots = Vec::with_capacity(alloc, count)?;
        Ok(Ledger {
            slots,
            floor: 0,
            table: Table::new(),
        })
    }

    /// Adds the slot of the next command, with what it was given.
    pub fn add(&mut self, given: Option<Allocation>)
        requires { vec_len self.old.slots < vec_capacity self.old.slots }
        ensures added { entries_of self.new
            ≡ with_entry (vec_len self.old.slots) given (entries_of self.old) }
        ensures length { vec_len self.new.slots ≡ vec_len self.old.slots + 1 }
        ensures room { vec_capacity self.old.slots ≤ vec_capacity self.new.slots }
    {
        self.slots.push_reserved(id_of(&given));
        self.table = self.table.after(&Change::Adds(given));
    }

    /// The id of what the command at a position was given, if it is allocated.
    pub fn id_at(&self, position: usize) -> Option<AllocId>
        ensures { result ≡ id_in (allocation_at position (entries_of self.now)) }
    {
        let slot = self.slot_of(position)?;
        self.slots[slot]
    }

    /// Takes out what the command at a position was given, if it is allocated, and gives its id.
    pub fn take(&mut self, position: usize) -> Option<AllocId>
        ensures found { result ≡ id_in (allocation_at position (entries_of self.old)) }
        ensures taken { IfSome result
            (λ _. entries_of self.new ≡ without position (entries_of self.old)) }
        ensures none { IfNone result (entries_of self.new ≡ entries_of self.old) }
        ensures slots { HasSlotsOf self.old self.new }
    {
        let slot = self.slot_of(position)?;
        self.table = self.table.after(&Change::Empties(slot));
        self.slots[slot].take()
    }

    /// Takes everything out.
    pub fn clear(&mut self)
        ensures empty { entries_of self.new ≡ [] }
        ensures slots { HasSlotsOf self.old self.new }
    {
        self.floor = self.slots.len();
    }

    /// The slot of a position, if that counts.
    fn slot_of(&self, position: usize) -> Option<usize>
        ensures { SomeIff result
            ((self.now.floor ≤ position) × (position < vec_len self.now.slots)) position }
    {
        if position >= self.floor && position < self.slots.len() {
            Some(position)
        } else {
            None
        }
    }
}

/// The id of what was given.
fn id_of(given: &Option<Allocation>) -> Option<AllocId>
    ensures { result ≡ id_in given.now }
{
    match given {
        Some(allocation) => Some(allocation.id),
        None => None,
    }
}
