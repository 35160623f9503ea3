//! Restoring an atlas from a snapshot: its links are followed, and then its rules are judged over what was met.
//!
//! Definitions: `Snapshots` for the rules by their faults, `Restoring` for what walks have met. Links are
//! followed by `mark_onto` alone, so all walks together are linear.

ghost use Rattle.shelf_records.specs.AtlasRecords.{AtlasRecords};

use etagere_base::Frame;
use shelf_records::Records;
use std::marker::Model;

/// An atlas as a snapshot says it: its links are not followed yet, and its rules not judged.
#[derive(Drop)]
pub struct LoadedAtlas {
    pub frame: Frame,
    pub records: Records,
    pub allocated_space: i32,
}

impl Model for LoadedAtlas {
    ghost Value = { AtlasRecords };

    ghost view = { λ atlas. record {
      frame = atlas.frame;
      records = atlas.records;
      allocated_space = atlas.allocated_space;
    } };
}
