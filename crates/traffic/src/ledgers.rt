//! A ledger of what was live before the first command.
//!
//! Definition: `Ledgers`.

ghost use Rattle.std.specs.Prelude.{◌≡◌, ◌≤◌, ◌+◌, IfOk, length, vec_capacity, vec_len};
ghost use Rattle.etagere_run.specs.Answers.Private.Tables.{entries_of};
ghost use Rattle.traffic.specs.Ledgers.{entries_from};

use etagere::Allocation;
use etagere_run::answers::ledger::Ledger;
use std::alloc::{AllocError, Global};

/// A ledger in which these allocations have the first positions, with room for so many commands behind them. Takes
/// memory for a slot for each of both.
pub fn ledger_of(alloc: Global, live: &[Allocation], commands: usize) -> Result<Ledger, AllocError>
    ensures entries { IfOk result (λ ledger. entries_of ledger ≡ entries_from 0 live.now) }
    ensures slots { IfOk result (λ ledger. vec_len ledger.slots ≡ length live.now) }
    ensures room { IfOk result (λ ledger.
        length live.now + commands ≤ vec_capacity ledger.slots) }
{
    let count = live.len().checked_add(commands).ok_or(AllocError)?;
    let mut ledger = Ledger::with_capacity(alloc, count)?;
    for position in 0..live.len() {
        ledger.add(Some(live[position]));
    }
    Ok(ledger)
}
