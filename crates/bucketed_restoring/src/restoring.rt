//! Judges a snapshot that anybody may have written, rule by rule.
//!
//! Definitions: `Restoring`, `StandsFor` for the rules, and `RestoringSteps` for the steps. Time and steps are linear
//! in the number of records.

ghost use Rattle.std.specs.Prelude.{◌≡◌, ◌≤◌, ◌<◌, ◌*◌, ◌^◌, pos, IfErr, IfNone, IfOk, IfSome, OnOk, length};
ghost use Rattle.bucketed_records.specs.Private.Restored.{IsSnapshotJudged, linked_records};
ghost use Rattle.bucketed_records.specs.Restoring as spec;
ghost use Rattle.bucketed_restoring.specs.Private.Judging as judging;
ghost use Rattle.bucketed_restoring.specs.RestoringSteps.{IsRead, links_of_all};

use crate::judging::is_stacked;
use crate::walking::judged_lists;
use bucketed_model::bucketed_frames::LONGEST_BUCKETED_SIDE;
use bucketed_records::records::{KeptShelf, MOST_BUCKETS};
use bucketed_records::saving::LinkedSnapshot;
use etagere_base::{Frame, RestoreFault, is_frame, side, size2};
use std::alloc::Global;

/// What an atlas has beside the records of its snapshot.
#[derive(Drop)]
pub struct JudgedSnapshot {
    pub frame: Frame,
    pub shelves: Vec<KeptShelf>,
    pub in_use: u32,
    pub space: u32,
}

/// The frame that a snapshot says.
fn snapshot_frame(snapshot: &LinkedSnapshot) -> Frame
    ensures value { result ≡ (linked_records snapshot.now).frame }
    ensures column_width { result.column_width < 2 ^ 16 }
    ensures columns { result.columns < 2 ^ 16 }
{
    let size = size2(snapshot.width, snapshot.height);
    let alignment = size2(snapshot.alignment_width, snapshot.alignment_height);
    Frame {
        column_width: u32::from(snapshot.column_width),
        columns: u32::from(snapshot.num_columns),
        ..Frame::without_columns(size, alignment, snapshot.vertical_shelves)
    }
}

/// The allocated space that a snapshot says, in square pixels, if it is this one.
fn told_space(snapshot: &LinkedSnapshot, space: u64) -> Option<u32>
    ensures said { IfSome result (λ _. snapshot.now.allocated_space ≡ pos space) }
    ensures same { IfSome result (λ area. area ≡ space) }
    ensures none { IfNone result (snapshot.now.allocated_space ≡ pos space → ⊥) }
{
    let said = snapshot.allocated_space;
    if 0 <= said && u64::from(side(said)) == space {
        Some(side(said))
    } else {
        None
    }
}

/// Whether nothing of the last shelf is live.
fn ends_idle(shelves: &[KeptShelf]) -> bool
    ensures { result ≡ judging.ends_idle shelves.now }
{
    match shelves.last() {
        Some(last) => last.is_idle(),
        None => false,
    }
}

/// Judges a snapshot, rule by rule, and counts the links that it reads.
pub fn judged_snapshot(
    alloc: Global,
    snapshot: &LinkedSnapshot,
    steps: &mut u64,
) -> Result<JudgedSnapshot, RestoreFault>
    ensures ok { IfOk result (λ judged. IsSnapshotJudged (linked_records snapshot.now)
        judged.frame judged.shelves.items judged.in_use judged.space) }
    ensures fault { IfErr result
        (λ fault. spec.Breaks (linked_records snapshot.now) fault) }
    ensures all { OnOk result (steps.new ≡ links_of_all (linked_records snapshot.now)) }
    ensures until { IfErr result (IsRead (linked_records snapshot.now) steps.new) }
    ensures steps { OnOk result (length snapshot.now.buckets.items ≤ steps.new) }
    ensures bound { steps.new ≤ 2 * length snapshot.now.buckets.items }
{
    *steps = 0;
    let frame = snapshot_frame(snapshot);
    if !is_frame(LONGEST_BUCKETED_SIDE, &frame) {
        return Err(RestoreFault::Frame);
    }
    let most = MOST_BUCKETS as usize;
    if snapshot.shelves.len() > most || snapshot.buckets.len() > most {
        return Err(RestoreFault::Counts);
    }
    if !is_stacked(
        &frame,
        &snapshot.shelves,
        snapshot.current_column,
        snapshot.available_height,
    ) {
        return Err(RestoreFault::Shelves);
    }
    let unused = snapshot.first_unused;
    let lists = judged_lists(
        alloc,
        steps,
        &frame,
        &snapshot.buckets,
        &snapshot.shelves,
        unused,
    )?;
    if ends_idle(&lists.kept.shelves) {
        return Err(RestoreFault::Neighbours);
    }
    let Some(space) = told_space(snapshot, lists.kept.space) else {
        return Err(RestoreFault::Space);
    };
    Ok(JudgedSnapshot {
        frame,
        shelves: lists.kept.shelves,
        in_use: lists.in_use,
        space,
    })
}
