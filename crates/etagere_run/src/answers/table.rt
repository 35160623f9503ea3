//! What the slots of a ledger stand for. It exists only in proofs, since a ledger keeps no rectangle when it runs.
//!
//! Definition: `Tables`.

ghost use base.Fml.{ftrue};
ghost use Rattle.std.specs.Prelude.{◌≡◌, [], List};
ghost use Rattle.std.specs.declared.option.Option.{Option};
ghost use Rattle.etagere_base.specs.declared.ids.Allocation.{Allocation};
ghost use Rattle.etagere_run.specs.Answers.Private.Coded.{slots_code};

use etagere::Allocation;
use std::marker::Model;

/// What each command was given, by its position, that is not given back.
#[derive(Drop)]
pub struct Table {
    pub ghost slots: { List (Option Allocation) } by { slots_code },
}

impl Model for Table {
    ghost also_owns = { λ _. ftrue };
}

/// What happens to the slots.
#[derive(Clone, Copy)]
pub enum Change {
    /// One more has what a command was given.
    Adds(Option<Allocation>),
    /// One is emptied.
    Empties(usize),
}

impl Table {
    ghost use Rattle.etagere_run.specs.Answers.Private.Changes.{changed};

    /// No slots.
    #[inline(always)]
    pub fn new() -> Table
        ensures { result.slots ≡ [] }
    {
        Table {}
    }

    /// The slots after a change.
    #[inline(always)]
    pub fn after(&self, _change: &Change) -> Table
        ensures { result.slots ≡ changed self.now.slots _change.now }
    {
        Table {}
    }
}
