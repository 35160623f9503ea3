//! Laws of the records of a bucketed atlas, each the contract of a function that does nothing.
//!
//! Definitions: `Private/Witnessed`, `Private/Restored`.

ghost use Rattle.bucketed_records.specs.Private.Restored.{StandsWitnessed};
ghost use Rattle.bucketed_records.specs.Private.Witnessed.{WitnessedStands};

/// The records of an atlas keep each rule of a snapshot.
pub fn records_keep_each_rule()
    ensures { WitnessedStands }
{}

/// Records that keep each rule of a snapshot are those of an atlas.
pub fn each_rule_makes_an_atlas()
    ensures { StandsWitnessed }
{}
