//! A saved atlas, and reading one.
//!
//! Definitions: `Snapshots`. serde reads the text, and what it read is then held against the text.

ghost use Rattle.std.specs.Prelude.{IfOk, IsTrue};
ghost use Rattle.json.specs.Value.{value_view};

use crate::records::Spelled;
use json::{Scratch, Value};
use serde::{Deserialize, Serialize};
use snapshot_records::buckets::BucketedSnapshot;
use snapshot_records::shelves::AtlasSnapshot;
use std::alloc::Global;

/// What a JSON text may hold, under its one key.
#[derive(Drop, Serialize, Deserialize)]
pub enum Saved {
    #[serde(rename = "atlas")]
    Atlas(AtlasSnapshot),
    #[serde(rename = "bucketed")]
    Bucketed(BucketedSnapshot),
}

/// Why no saved atlas was read.
#[derive(Clone, Copy, Debug, PartialEq, Eq)]
pub enum ReadFault {
    /// The bytes aren't the JSON text of a saved atlas, or memory ran out while serde read them.
    Unreadable,
    /// There was no memory to hold what serde read against the text.
    Memory,
}
