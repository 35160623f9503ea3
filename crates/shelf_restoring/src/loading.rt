//! What a snapshot says, once its frame and the counts of its records keep their ranges.
//!
//! Definitions: `Snapshots`.

ghost use Rattle.std.specs.Prelude.{◌≡◌, ◌≤◌, ◌⊎◌, Decides, IfErr, IfOk, OnOk};
ghost use Rattle.etagere_base.specs.declared.faults.RestoreFault.TheVariants as faults;
ghost use Rattle.etagere_base.specs.Frames.{IsFrame, longest_side};
ghost use Rattle.etagere_links.specs.Links.{no_link};
ghost use Rattle.shelf_records.specs.Snapshots as spec;
ghost use Rattle.shelf_records.specs.Snapshots.{IsBroken, snapshot_records};
ghost use Rattle.shelf_records.specs.StandsFor.{HasCounts};

use crate::loaded_atlas::LoadedAtlas;
use etagere_base::{Frame, LONGEST_SIDE, RestoreFault, is_frame, size2};
use etagere_links::Link;
use shelf_records::Records;
use shelf_records::saving::{linked_items, linked_shelves};
use snapshot_records::shelves::AtlasSnapshot;
use std::alloc::{AllocError, Global};

/// No atlas has more records of a kind.
const MOST_RECORDS: usize = 65535;

impl LoadedAtlas {
    /// The atlas that a snapshot says, where its frame and the counts of its records keep their ranges, and there is
    /// memory for the records, which are made anew.
    pub fn of_snapshot(alloc: Global, snapshot: AtlasSnapshot) -> Result<LoadedAtlas, RestoreFault>
        ensures ok { IfOk result (λ atlas. atlas ≡ snapshot_records snapshot) }
        ensures frame { OnOk result (IsFrame longest_side (snapshot_records snapshot).frame) }
        ensures counts { OnOk result (HasCounts (snapshot_records snapshot)) }
        ensures fault { IfErr result (IsBroken (snapshot_records snapshot)) }
        ensures early { IfErr result
            (λ fault. (fault ≡ faults.Frame) ⊎ (fault ≡ faults.Counts) ⊎ (fault ≡ faults.Memory)) }
    {
        let frame = snapshot_frame(&snapshot)?;
        if !has_counts(&snapshot) {
            return Err(RestoreFault::Counts);
        }
        let Ok(records) = linked_records(alloc, &snapshot) else {
            return Err(RestoreFault::Memory);
        };
        Ok(LoadedAtlas {
            frame,
            records,
            allocated_space: snapshot.allocated_space,
        })
    }
}

/// The records that a snapshot says. Takes memory for all of them.
fn linked_records(alloc: Global, snapshot: &AtlasSnapshot) -> Result<Records, AllocError>
    ensures { IfOk result (λ records. records ≡ (snapshot_records snapshot.now).records) }
{
    Ok(Records::of_lists(
        linked_shelves(alloc, &snapshot.shelves)?,
        linked_items(alloc, &snapshot.items)?,
        Link::from_bits(snapshot.first_shelf),
        Link::from_bits(snapshot.free_items),
        Link::from_bits(snapshot.free_shelves),
    ))
}

/// The frame that a snapshot says, where it keeps its ranges.
fn snapshot_frame(snapshot: &AtlasSnapshot) -> Result<Frame, RestoreFault>
    ensures ok { IfOk result (λ frame. frame ≡ spec.snapshot_frame snapshot.now) }
    ensures frame { OnOk result (IsFrame longest_side (spec.snapshot_frame snapshot.now)) }
    ensures fault { IfErr result (IsBroken (snapshot_records snapshot.now)) }
    ensures early { IfErr result (λ fault. fault ≡ faults.Frame) }
{
    let column_width = u32::from(snapshot.shelf_width);
    if column_width == 0 {
        return Err(RestoreFault::Frame);
    }
    let frame = frame_of(snapshot, column_width);
    if !is_frame(LONGEST_SIDE, &frame) {
        return Err(RestoreFault::Frame);
    }
    Ok(frame)
}

/// The frame of a snapshot whose columns have this width, in pixels: it has as many of them as fit.
fn frame_of(snapshot: &AtlasSnapshot, column_width: u32) -> Frame
    requires same { column_width ≡ snapshot.now.shelf_width }
    requires wide { 1 ≤ column_width }
    ensures { result ≡ spec.snapshot_frame snapshot.now }
{
    let size = size2(snapshot.width, snapshot.height);
    let alignment = size2(snapshot.alignment_width, snapshot.alignment_height);
    let frame = Frame::without_columns(size, alignment, snapshot.vertical_shelves);
    Frame {
        column_width,
        columns: frame.along_side() / column_width,
        ..frame
    }
}

/// Whether a snapshot has as many records of each kind as an atlas may have.
fn has_counts(snapshot: &AtlasSnapshot) -> bool
    ensures { Decides result (HasCounts (snapshot_records snapshot.now)) }
{
    if !is_count(snapshot.shelves.len()) {
        return false;
    }
    is_count(snapshot.items.len())
}

fn is_count(count: usize) -> bool
    ensures { Decides result ((1 ≤ count) × (count ≤ no_link)) }
{
    1 <= count && count <= MOST_RECORDS
}
