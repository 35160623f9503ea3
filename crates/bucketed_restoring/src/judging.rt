//! Tests the rules of a snapshot: those of a shelf by one pass over its buckets, each other one by one pass.
//!
//! Definitions: `Judging`. The rules themselves are in `Keeps` of `StandsFor`.

ghost use Rattle.std.specs.Prelude.{◌≡◌, ◌+◌, ◌*◌, ◌<◌, ◌≤◌, ◌^◌, IfErr, IfOk, IfSome, IsTrue, length};
ghost use Rattle.std.specs.List.{AllByRecursion, list_all};
ghost use Rattle.bucketed_model.specs.Frames.{IsBucketedFrame};
ghost use Rattle.bucketed_model.specs.State.{generations, most_buckets};
ghost use Rattle.bucketed_restoring.specs.Private.Judging as spec;

mod buckets;

use bucketed_records::records::{KeptShelf, LinkedBucket, LinkedBucketShelf};
use buckets::judged_buckets;
use etagere_base::{Frame, RestoreFault};
use etagere_links::is_multiple;

/// What is kept of a shelf, and the area that its buckets have used, in square pixels.
#[derive(Clone, Copy)]
pub(crate) struct Judged {
    pub kept: KeptShelf,
    pub space: u64,
}

/// How many columns are opened, and how tall the shelves of the last one are.
#[derive(Clone, Copy)]
pub(crate) struct Stack {
    pub opened: u32,
    pub height: u32,
}

/// Whether the bucket of this number is there and nothing of it is live.
fn is_unused(buckets: &[LinkedBucket], number: u16) -> bool
    ensures { result ≡ spec.is_unused buckets.now number }
{
    match buckets.get(usize::from(number)) {
        Some(bucket) => bucket.refcount == 0,
        None => false,
    }
}

/// Whether nothing of the buckets of these numbers is live.
pub(crate) fn are_unused(buckets: &[LinkedBucket], numbers: &[u16]) -> bool
    ensures { result ≡ list_all (spec.is_unused buckets.now) numbers.now }
{
    for number in numbers {
        if !is_unused(buckets, *number) {
            return false;
        }
    }
    true
}

/// Whether the buckets of a shelf have a width that they may have.
fn has_width(frame: &Frame, shelf: &LinkedBucketShelf) -> bool
    requires { 1 ≤ spec.alignment_along frame.now }
    ensures { result ≡ spec.has_width frame.now shelf.now }
{
    let width = shelf.bucket_width;
    is_multiple(u32::from(width), frame.alignment_along()) && (frame.columns != 1 || 1 <= width)
}

/// Judges the shelf of a number with the buckets of these numbers, and tells what is kept of it.
pub(crate) fn judged_row(
    frame: &Frame,
    buckets: &[LinkedBucket],
    shelf: &LinkedBucketShelf,
    number: u16,
    numbers: &[u16],
) -> Result<Judged, RestoreFault>
    requires alignment { 1 ≤ spec.alignment_along frame.now }
    requires narrow { frame.now.column_width < 2 ^ 16 }
    requires buckets { length buckets.now ≤ most_buckets }
    requires numbers { length numbers.now ≤ most_buckets }
    requires within { AllByRecursion (λ bucket. bucket < length buckets.now) numbers.now }
    ensures ok { IfOk result
        (λ judged. spec.IsRow frame.now buckets.now number shelf.now numbers.now judged) }
    ensures small { IfOk result (λ judged. judged.space ≤ length numbers.now * 2 ^ 32) }
    ensures fault { IfErr result
        (λ fault. spec.BreaksRow frame.now buckets.now number shelf.now numbers.now fault) }
{
    let judged = judged_buckets(frame, buckets, shelf, number, numbers);
    if !judged.are_owned {
        return Err(RestoreFault::Link);
    }
    let has_buckets = has_width(frame, shelf) & judged.are_filled & judged.stand_together;
    if !has_buckets {
        return Err(RestoreFault::Runs);
    }
    Ok(Judged {
        kept: KeptShelf {
            shelf: *shelf,
            live_items: judged.live_items,
            widest_room: judged.widest_room,
        },
        space: u64::from(judged.used_width) * u64::from(shelf.height),
    })
}

/// The stack with one shelf more, if that stands where it must: on the last one, or first in the next column.
fn stacked_on(frame: &Frame, stack: &Stack, shelf: &LinkedBucketShelf) -> Option<Stack>
    requires frame { IsBucketedFrame frame.now }
    requires height { stack.now.height < 2 ^ 16 }
    ensures value { result ≡ spec.stacked_on frame.now stack.now shelf.now }
    ensures height { IfSome result (λ next. next.height < 2 ^ 16) }
{
    let column = u32::from(shelf.x) / frame.column_width;
    let same = column + 1 == stack.opened;
    let below = if same { stack.height } else { 0 };
    let height = u32::from(shelf.height);
    let along = u32::from(shelf.x) % frame.column_width == 0 && column < frame.columns;
    let goes_on = same || (column == stack.opened && 1 <= height);
    let across = u32::from(shelf.y) == below && below + height <= frame.across_side();
    if along && goes_on && across {
        Some(Stack {
            opened: column + 1,
            height: below + height,
        })
    } else {
        None
    }
}

/// The stack of all shelves, if each stands where it must.
fn stack_end(frame: &Frame, shelves: &[LinkedBucketShelf]) -> Option<Stack>
    requires { IsBucketedFrame frame.now }
    ensures { result ≡ spec.stack_end frame.now (record { opened = 0; height = 0 }) shelves.now }
{
    let mut stack = Stack {
        opened: 0,
        height: 0,
    };
    for shelf in shelves {
        stack = stacked_on(frame, &stack, shelf)?;
    }
    Some(stack)
}

/// Whether the shelves stand in the columns as they must, and leave this height in this column.
pub(crate) fn is_stacked(
    frame: &Frame,
    shelves: &[LinkedBucketShelf],
    column: u16,
    height: u16,
) -> bool
    requires { IsBucketedFrame frame.now }
    ensures { result ≡ spec.is_stacked frame.now shelves.now column height }
{
    match stack_end(frame, shelves) {
        Some(stack) => {
            stack.opened.saturating_sub(1) == u32::from(column)
                && frame.across_side().saturating_sub(stack.height) == u32::from(height)
        }
        None => false,
    }
}
