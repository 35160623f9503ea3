//! A law of replays and drawings, the contract of a function that does nothing. Public, but not meant for users.
//!
//! Definitions: `ReplayLaws`, over `Replaying` and `Drawing`.

ghost use Rattle.etagere_run.specs.ReplayLaws.{DrawingsAreTheSame, ReplaysDifferInIds};

/// An input decides what its replay answers where no memory is refused, but for the numbers of ids, and all that its
/// drawing shows.
pub fn an_input_decides_all_but_ids()
    ensures replays { ReplaysDifferInIds }
    ensures drawings { DrawingsAreTheSame }
{}
