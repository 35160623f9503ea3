//! Follows the lists of a snapshot's buckets, and judges its shelves on the way.
//!
//! Definitions: `Walking`. Links are followed by walks alone, and each link that is read is counted. Records are
//! marked after each walk, so that all walks but the last one met different records.

ghost use Rattle.std.specs.Prelude.{◌≡◌, ◌+◌, ◌*◌, ◌/◌, ◌%◌, ◌<◌, ◌≤◌, ◌^◌, ◌++◌, ℕ, [], List, IfErr, IfOk, OnOk, length};
ghost use Rattle.std.specs.List.{AllByRecursion};
ghost use Rattle.etagere_base.specs.Frames.{alignment_along};
ghost use Rattle.etagere_links.specs.Links.{no_link};
ghost use Rattle.etagere_links.specs.Marks.{IsMarkedBy};
ghost use Rattle.etagere_links.specs.Lists.{HasEachOnce};
ghost use Rattle.etagere_links.specs.Walks.{walk};
ghost use Rattle.bucketed_model.specs.State.{most_buckets};
ghost use Rattle.bucketed_records.specs.BucketRecords.{BucketRecords, bucket_walk};
ghost use Rattle.bucketed_records.specs.Private.Restored.{LinkFits};
ghost use Rattle.bucketed_records.specs.Restoring.{Breaks};
ghost use Rattle.bucketed_records.specs.StandsFor.{live_of, walked_numbers};
ghost use Rattle.bucketed_restoring.specs.Private.Walking as spec;
ghost use Rattle.bucketed_restoring.specs.RestoringSteps.{IsRead};

use crate::judging::{Judged, are_unused, judged_row};
use bucketed_records::records::{KeptShelf, LinkedBucket, LinkedBucketShelf};
use etagere_base::{Frame, RestoreFault};
use etagere_links::{Link, WalkRoom, all_marked, mark_onto, restore_fault, room_and_marks};
use std::alloc::{AllocError, Global};

/// The links of bucket records, in order of their numbers.
pub(crate) fn links_of(alloc: Global, buckets: &[LinkedBucket]) -> Result<Vec<u16>, AllocError>
    ensures links { IfOk result (λ links. links.items ≡ spec.links_of buckets.now) }
    ensures fit { OnOk result (AllByRecursion (λ bucket. LinkFits bucket.next) buckets.now) }
{
    let mut links = Vec::new(alloc);
    for bucket in buckets {
        links.push(bucket.next.bits())?;
    }
    Ok(links)
}

/// Follows the list from a link on, counts the steps and marks what it met, which alone then stands in `met`.
fn walk_list(
    room: &mut WalkRoom,
    links: &[u16],
    marks: &mut [bool],
    met: &mut Vec<u16>,
    first: u16,
    steps: &mut u64,
) -> Result<(), RestoreFault>
    requires few { length links.now ≤ no_link }
    requires room { length links.now ≤ room.old }
    requires marks { length marks.old ≡ length links.now }
    requires steps { steps.old < 2 ^ 32 }
    ensures room { room.new ≡ room.old }
    ensures met { OnOk result (met.new.items ≡ (walk links.now first).met) }
    ensures end { OnOk result ((walk links.now first).end ≡ no_link) }
    ensures marked { OnOk result ((numbers : List ℕ) → IsMarkedBy marks.old numbers
        → IsMarkedBy marks.new (numbers ++ (walk links.now first).met)) }
    ensures fault { IfErr result
        (λ fault. spec.BreaksWalk links.now marks.old (walk links.now first) fault) }
    ensures steps { OnOk result (steps.new ≡ steps.old + length (walk links.now first).met) }
    ensures read { IfErr result
        (spec.StopsAfter (steps.old + length (walk links.now first).met) steps.new) }
    ensures bound { steps.new ≤ steps.old + length links.now }
{
    met.clear();
    match mark_onto(room, marks, met, links, first, steps) {
        Ok(()) => Ok(()),
        Err(fault) => Err(restore_fault(fault)),
    }
}

/// Follows the list of the shelf of a number, and judges the shelf.
fn judged_shelf(
    room: &mut WalkRoom,
    links: &[u16],
    marks: &mut [bool],
    met: &mut Vec<u16>,
    steps: &mut u64,
    frame: &Frame,
    buckets: &[LinkedBucket],
    shelf: &LinkedBucketShelf,
    number: u16,
) -> Result<Judged, RestoreFault>
    requires links { links.now ≡ spec.links_of buckets.now }
    requires buckets { length buckets.now ≤ most_buckets }
    requires room { length buckets.now ≤ room.old }
    requires marks { length marks.old ≡ length buckets.now }
    requires steps { steps.old < 2 ^ 32 }
    requires alignment { 1 ≤ alignment_along frame.now }
    requires narrow { frame.now.column_width < 2 ^ 16 }
    requires along { shelf.now.x % frame.now.column_width ≡ 0 }
    requires column { shelf.now.x / frame.now.column_width < frame.now.columns }
    ensures room { room.new ≡ room.old }
    ensures ok { IfOk result
        (λ told. spec.IsShelfJudged frame.now buckets.now number shelf.now told) }
    ensures marked { OnOk result ((numbers : List ℕ) → IsMarkedBy marks.old numbers
        → IsMarkedBy marks.new
        (numbers ++ (bucket_walk buckets.now shelf.now.first_bucket).met)) }
    ensures small { IfOk result (λ told. told.space
        ≤ length (bucket_walk buckets.now shelf.now.first_bucket).met * 2 ^ 32) }
    ensures fault { IfErr result
        (λ fault. spec.BreaksShelf frame.now buckets.now marks.old number shelf.now fault) }
    ensures steps { OnOk result (steps.new
        ≡ steps.old + length (bucket_walk buckets.now shelf.now.first_bucket).met) }
    ensures read { IfErr result (spec.StopsAfter
        (steps.old + length (bucket_walk buckets.now shelf.now.first_bucket).met) steps.new) }
    ensures bound { steps.new ≤ steps.old + length buckets.now }
{
    let first = shelf.first_bucket.bits();
    walk_list(room, links, marks, met, first, steps)?;
    judged_row(frame, buckets, shelf, number, met)
}

/// What is kept of shelves, and the area that their buckets have used, in square pixels.
#[derive(Drop)]
pub(crate) struct KeptShelves {
    pub shelves: Vec<KeptShelf>,
    pub space: u64,
}

/// Judges shelves one after another, and tells what is kept of them.
pub(crate) fn judged_shelves(
    alloc: Global,
    room: &mut WalkRoom,
    links: &[u16],
    marks: &mut [bool],
    steps: &mut u64,
    frame: &Frame,
    buckets: &[LinkedBucket],
    shelves: &[LinkedBucketShelf],
) -> Result<KeptShelves, RestoreFault>
    requires links { links.now ≡ spec.links_of buckets.now }
    requires buckets { length buckets.now ≤ most_buckets }
    requires shelves { length shelves.now ≤ most_buckets }
    requires room { length buckets.now ≤ room.old }
    requires marks { length marks.old ≡ length buckets.now }
    requires unmarked { IsMarkedBy marks.old [] }
    requires steps { steps.old ≡ 0 }
    requires alignment { 1 ≤ alignment_along frame.now }
    requires narrow { frame.now.column_width < 2 ^ 16 }
    requires along { AllByRecursion (λ shelf. shelf.x % frame.now.column_width ≡ 0) shelves.now }
    requires columns { AllByRecursion (λ shelf. shelf.x / frame.now.column_width < frame.now.columns)
        shelves.now }
    ensures room { room.new ≡ room.old }
    ensures ok { IfOk result (λ kept. spec.AreKeptSoFar frame.now buckets.now shelves.now
        kept.shelves.items marks.new steps.new kept.space) }
    ensures fault { IfErr result (λ fault. (atlas : BucketRecords) → atlas.frame ≡ frame.now
        → atlas.shelves ≡ shelves.now → atlas.buckets ≡ buckets.now → Breaks atlas fault) }
    ensures until { IfErr result (λ fault. (atlas : BucketRecords) → atlas.frame ≡ frame.now
        → atlas.shelves ≡ shelves.now → atlas.buckets ≡ buckets.now → IsRead atlas steps.new fault) }
    ensures few { OnOk result (steps.new ≤ length buckets.now) }
    ensures bound { steps.new ≤ 2 * length buckets.now }
{
    let mut kept = Vec::new(alloc);
    let mut met = Vec::new(alloc);
    let mut space: u64 = 0;
    for number in 0..shelves.len() {
        let shelf = &shelves[number];
        let told = judged_shelf(
            room,
            links,
            marks,
            &mut met,
            steps,
            frame,
            buckets,
            shelf,
            number as u16,
        )?;
        let Ok(()) = kept.push(told.kept) else {
            return Err(RestoreFault::Memory);
        };
        space += told.space;
    }
    Ok(KeptShelves {
        shelves: kept,
        space,
    })
}

/// Follows the list of the unused records, after which all records are marked.
fn judge_unused(
    alloc: Global,
    room: &mut WalkRoom,
    links: &[u16],
    marks: &mut [bool],
    steps: &mut u64,
    buckets: &[LinkedBucket],
    unused: Link,
) -> Result<(), RestoreFault>
    requires links { links.now ≡ spec.links_of buckets.now }
    requires buckets { length buckets.now ≤ most_buckets }
    requires room { length buckets.now ≤ room.old }
    requires marks { length marks.old ≡ length buckets.now }
    requires steps { steps.old < 2 ^ 32 }
    ensures fits { OnOk result (LinkFits unused) }
    ensures ends { OnOk result ((bucket_walk buckets.now unused).end ≡ no_link) }
    ensures once { OnOk result ((numbers : List ℕ) → IsMarkedBy marks.old numbers
        → HasEachOnce (length buckets.now) (numbers ++ (bucket_walk buckets.now unused).met)) }
    ensures idle { OnOk result (AllByRecursion (λ bucket. live_of buckets.now bucket ≡ 0)
        (bucket_walk buckets.now unused).met) }
    ensures fault { IfErr result
        (λ fault. spec.BreaksUnused buckets.now marks.old unused fault) }
    ensures steps { OnOk result
        (steps.new ≡ steps.old + length (bucket_walk buckets.now unused).met) }
    ensures read { IfErr result (spec.StopsAfter
        (steps.old + length (bucket_walk buckets.now unused).met) steps.new) }
    ensures bound { steps.new ≤ steps.old + length buckets.now }
{
    let first = unused.bits();
    let mut met = Vec::new(alloc);
    walk_list(room, links, marks, &mut met, first, steps)?;
    if !all_marked(marks) {
        return Err(RestoreFault::Sharing);
    }
    if !are_unused(buckets, &met) {
        return Err(RestoreFault::Unused);
    }
    Ok(())
}

/// What all lists of a snapshot have: what is kept of the shelves, and how many buckets are in use.
#[derive(Drop)]
pub(crate) struct JudgedLists {
    pub kept: KeptShelves,
    pub in_use: u32,
}

/// Judges all lists, whose links these are, where no record is marked.
fn judged_marking(
    alloc: Global,
    room: &mut WalkRoom,
    links: &[u16],
    marks: &mut [bool],
    steps: &mut u64,
    frame: &Frame,
    buckets: &[LinkedBucket],
    shelves: &[LinkedBucketShelf],
    unused: Link,
) -> Result<JudgedLists, RestoreFault>
    requires links { links.now ≡ spec.links_of buckets.now }
    requires fit { AllByRecursion (λ bucket. LinkFits bucket.next) buckets.now }
    requires room { length buckets.now ≤ room.old }
    requires marks { length marks.old ≡ length buckets.now }
    requires unmarked { IsMarkedBy marks.old [] }
    requires buckets { length buckets.now ≤ most_buckets }
    requires shelves { length shelves.now ≤ most_buckets }
    requires steps { steps.old ≡ 0 }
    requires alignment { 1 ≤ alignment_along frame.now }
    requires narrow { frame.now.column_width < 2 ^ 16 }
    requires along { AllByRecursion (λ shelf. shelf.x % frame.now.column_width ≡ 0) shelves.now }
    requires columns { AllByRecursion (λ shelf. shelf.x / frame.now.column_width < frame.now.columns)
        shelves.now }
    ensures ok { IfOk result (λ lists. spec.AreLists frame.now buckets.now shelves.now unused
        lists.kept.shelves.items lists.in_use lists.kept.space) }
    ensures fault { IfErr result (λ fault. (atlas : BucketRecords) → atlas.frame ≡ frame.now
        → atlas.shelves ≡ shelves.now → atlas.buckets ≡ buckets.now
        → atlas.unused ≡ unused → Breaks atlas fault) }
    ensures all { OnOk result (steps.new ≡ length (walked_numbers buckets.now shelves.now)
        + length (bucket_walk buckets.now unused).met) }
    ensures until { IfErr result (λ fault. (atlas : BucketRecords) → atlas.frame ≡ frame.now
        → atlas.shelves ≡ shelves.now → atlas.buckets ≡ buckets.now
        → atlas.unused ≡ unused → IsRead atlas steps.new fault) }
    ensures steps { OnOk result (length buckets.now ≤ steps.new) }
    ensures bound { steps.new ≤ 2 * length buckets.now }
{
    let kept = judged_shelves(alloc, room, links, marks, steps, frame, buckets, shelves)?;
    let in_use = *steps as u32;
    judge_unused(alloc, room, links, marks, steps, buckets, unused)?;
    Ok(JudgedLists { kept, in_use })
}

/// Follows all lists of a snapshot and judges what they have.
pub(crate) fn judged_lists(
    alloc: Global,
    steps: &mut u64,
    frame: &Frame,
    buckets: &[LinkedBucket],
    shelves: &[LinkedBucketShelf],
    unused: Link,
) -> Result<JudgedLists, RestoreFault>
    requires buckets { length buckets.now ≤ most_buckets }
    requires shelves { length shelves.now ≤ most_buckets }
    requires steps { steps.old ≡ 0 }
    requires alignment { 1 ≤ alignment_along frame.now }
    requires narrow { frame.now.column_width < 2 ^ 16 }
    requires along { AllByRecursion (λ shelf. shelf.x % frame.now.column_width ≡ 0) shelves.now }
    requires columns { AllByRecursion (λ shelf. shelf.x / frame.now.column_width < frame.now.columns)
        shelves.now }
    ensures ok { IfOk result (λ lists. spec.AreLists frame.now buckets.now shelves.now unused
        lists.kept.shelves.items lists.in_use lists.kept.space) }
    ensures fault { IfErr result (λ fault. (atlas : BucketRecords) → atlas.frame ≡ frame.now
        → atlas.shelves ≡ shelves.now → atlas.buckets ≡ buckets.now
        → atlas.unused ≡ unused → Breaks atlas fault) }
    ensures all { OnOk result (steps.new ≡ length (walked_numbers buckets.now shelves.now)
        + length (bucket_walk buckets.now unused).met) }
    ensures until { IfErr result (λ fault. (atlas : BucketRecords) → atlas.frame ≡ frame.now
        → atlas.shelves ≡ shelves.now → atlas.buckets ≡ buckets.now
        → atlas.unused ≡ unused → IsRead atlas steps.new fault) }
    ensures steps { OnOk result (length buckets.now ≤ steps.new) }
    ensures bound { steps.new ≤ 2 * length buckets.now }
{
    let Ok(links) = links_of(alloc, buckets) else {
        return Err(RestoreFault::Memory);
    };
    let Ok((mut room, mut marks)) = room_and_marks(alloc, buckets.len()) else {
        return Err(RestoreFault::Memory);
    };
    judged_marking(
        alloc, &mut room, &links, &mut marks, steps, frame, buckets, shelves, unused,
    )
}
