//! Laws of the bucketed model, each the contract of a function that does nothing.
//!
//! Definitions: `Laws`. A law that callers or readers want gets its function here.

ghost use Rattle.bucketed_model.specs.Laws.{GivesEnough, PowersAreLeast, StepsCountSpace, StepsKeepTied, StepsKeepValid, TiedIsAlwaysSafe, ValidKeepsPromises};
ghost use Rattle.bucketed_model.specs.RefusalLaws.{ABucketIsUsedUp, FewBucketsAreLeft, RefusesExactly, WidestFits};

/// Each call leads from a valid state to a valid one, and what each valid state keeps follows.
pub fn each_step_keeps_a_state_valid()
    ensures steps { StepsKeepValid }
    ensures promises { ValidKeepsPromises }
{}

/// What a size is given is as large as the size, and aligned.
pub fn what_is_given_is_enough()
    ensures { GivesEnough }
{}

/// A shelf is divided into buckets by the least power of two that is large enough.
pub fn a_power_of_two_is_the_least()
    ensures { PowersAreLeast }
{}

/// A ledger of what is live stays tied to the state, and what it has lies inside and apart.
pub fn a_ledger_stays_tied()
    ensures steps { StepsKeepTied }
    ensures safe { TiedIsAlwaysSafe }
{}

/// The space that is allocated grows by the area that is given, and falls by what a bucket has used when that is
/// emptied.
pub fn each_step_counts_the_space()
    ensures { StepsCountSpace }
{}

/// A size has a reason to be refused exactly where it does not fit, and each of the last three reasons says what would
/// make it fit: an item no wider than the widest room fits; at most one bucket is left, while there is space for
/// a shelf; a bucket that has the width has given the most items.
pub fn a_refusal_has_a_reason()
    ensures exact { RefusesExactly }
    ensures widest { WidestFits }
    ensures few { FewBucketsAreLeft }
    ensures used_up { ABucketIsUsedUp }
{}
