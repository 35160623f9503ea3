//! Merges neighbouring shelves that hold nothing live, so that a taller item fits.
//!
//! Definitions: `Placing` and `StoreEdits`, and `Merging` for what they mean.

ghost use Rattle.std.specs.Prelude.{◌≡◌, ◌+◌, ◌<◌, ◌≤◌, ◌^◌, Some, true, length, drop};
ghost use Rattle.std.specs.List.{list_all};
ghost use Rattle.etagere_links.specs.Edits.{changed_by};
ghost use Rattle.bucketed_model.specs.Picking.{or_else};
ghost use Rattle.bucket_index.specs.Private.Blocks.{AreKnown};
ghost use Rattle.bucketed_store.specs.Private.Placing as spec;
ghost use Rattle.bucketed_store.specs.Private.StoreEdits as edits;

use bucket_index::blocks::{Blocks, SHELVES_OF_BLOCK};
use bucketed_records::records::KeptShelf;
use etagere_base::Sides;
use std::marker::Model;

/// Neighbouring shelves to be merged: the number of the first, and how many stand with it.
#[derive(Clone, Copy)]
pub struct Group {
    pub first: usize,
    pub others: usize,
}

impl Model for Group {
    ghost use Rattle.bucketed_model.specs.Merging as merging;

    ghost Value = { merging.Group };

    ghost view = { λ group. record { first = group.first; others = group.others } };

    ghost inverse = { λ group. record { first = group.first; others = group.others } };
}

/// Whether all of these shelves hold nothing live and stand in the column at a place.
fn are_idle_in(x: u16, shelves: &[KeptShelf]) -> bool
    ensures { result ≡ list_all (spec.is_kept_idle_in x) shelves.now }
{
    for kept in shelves {
        if kept.shelf.x != x || !kept.is_idle() {
            return false;
        }
    }
    true
}

/// The heights of shelves, added up.
fn total_height(shelves: &[KeptShelf]) -> u32
    requires { length shelves.now ≤ 3 }
    ensures value { result ≡ spec.kept_height shelves.now }
    ensures small { result < 2 ^ 18 }
{
    let mut height: u32 = 0;
    for kept in shelves {
        height += u32::from(kept.shelf.height);
    }
    height
}

/// Whether the shelf of a number and as many after it serve these sides.
fn serves(sides: &Sides, shelves: &[KeptShelf], number: usize, others: usize) -> bool
    requires number { number < length shelves.now }
    requires others { others ≤ 2 }
    ensures { result ≡ spec.serves_at sides.now others (drop number shelves.now) }
{
    let rest = &shelves[number + 1..];
    if rest.len() < others {
        return false;
    }
    let next = &rest[..others];
    let kept = &shelves[number];
    kept.is_idle()
        && are_idle_in(kept.shelf.x, next)
        && sides.along <= u32::from(kept.shelf.bucket_width)
        && sides.across <= u32::from(kept.shelf.height) + total_height(next)
}

/// The first shelf that serves these sides with the next one, or with the next two. Where they are few, those before the first
/// one that holds nothing live are passed over one by one.
#[inline(always)]
pub(crate) fn mergeable_shelves(
    sides: Sides,
    shelves: &[KeptShelf],
    blocks: &Blocks,
) -> Option<Group>
    requires across { 0 < sides.across }
    requires known { AreKnown blocks.now shelves.now }
    ensures { result ≡ spec.kept_mergeable sides 0 shelves.now }
{
    if blocks.are_counted {
        return mergeable_by_blocks(sides, shelves, blocks);
    }
    let first = first_idle(shelves);
    if first >= shelves.len() {
        return None;
    }
    mergeable_from(&sides, shelves, first)
}

/// The number of the first shelf that holds nothing live; how many there are where each holds something.
#[inline(always)]
fn first_idle(shelves: &[KeptShelf]) -> usize
    ensures within { result ≤ length shelves.now }
    ensures busy { spec.AreBusyBefore result shelves.now }
{
    for number in 0..shelves.len() {
        if shelves[number].is_idle() {
            return number;
        }
    }
    shelves.len()
}

/// The first shelf from a number on that serves these sides with the next one or two.
#[inline(never)]
fn mergeable_from(sides: &Sides, shelves: &[KeptShelf], from: usize) -> Option<Group>
    requires { from ≤ length shelves.now }
    ensures { result ≡ spec.kept_mergeable sides.now from (drop from shelves.now) }
{
    mergeable_between(sides, shelves, from, shelves.len())
}

/// The same where blocks are counted. They are passed over in which each shelf holds something live or has no height, but for
/// the last two shelves before another block.
#[inline(never)]
fn mergeable_by_blocks(sides: Sides, shelves: &[KeptShelf], blocks: &Blocks) -> Option<Group>
    requires across { 0 < sides.across }
    requires counted { blocks.now.are_counted ≡ true }
    requires known { AreKnown blocks.now shelves.now }
    ensures { result ≡ spec.kept_mergeable sides 0 shelves.now }
{
    let mut from = blocks.behind_busy(0, shelves.len());
    let mut first = from.saturating_sub(2);
    for _block in 0..shelves.len() {
        if from >= shelves.len() {
            break;
        }
        let end = from + SHELVES_OF_BLOCK;
        let group = mergeable_between(&sides, shelves, first, end);
        if group.is_some() {
            return group;
        }
        from = blocks.behind_busy(end, shelves.len());
        first = from.saturating_sub(2).max(end);
    }
    None
}

/// The same where the first shelf has a number from this one up to another one.
fn mergeable_between(sides: &Sides, shelves: &[KeptShelf], from: usize, end: usize) -> Option<Group>
    requires from { from ≤ length shelves.now }
    requires end { from ≤ end }
    ensures { or_else result (spec.kept_mergeable sides.now end (drop end shelves.now))
        ≡ spec.kept_mergeable sides.now from (drop from shelves.now) }
{
    for first in from..shelves.len().min(end) {
        if serves(sides, shelves, first, 1) {
            return Some(Group { first, others: 1 });
        }
        if serves(sides, shelves, first, 2) {
            return Some(Group { first, others: 2 });
        }
    }
    None
}

/// The height of neighbouring shelves together.
fn group_height(shelves: &[KeptShelf], group: &Group) -> u16
    requires { edits.IsGroupIn group.now shelves.now }
    ensures { result ≡ edits.group_height group.now shelves.now }
{
    let end = group.first + 1 + group.others;
    total_height(&shelves[group.first..end]) as u16
}

/// Gives a shelf the height of those merged into it, which stay with none behind it, and answers that height.
pub(crate) fn merge(shelves: &mut [KeptShelf], group: &Group) -> u16
    requires group { edits.IsGroupIn group.now shelves.old }
    ensures shelves { shelves.new ≡ edits.kept_merged group.now shelves.old }
    ensures height { result ≡ edits.group_height group.now shelves.old }
{
    let height = group_height(shelves, group);
    let across = shelves[group.first].shelf.y + height;
    set_height(shelves, group.first, height);
    flatten(shelves, group.first + 1, across);
    if group.others == 2 {
        flatten(shelves, group.first + 2, across);
    }
    height
}

fn set_height(shelves: &mut [KeptShelf], number: usize, height: u16)
    requires { number < length shelves.old }
    ensures { shelves.new ≡ changed_by (Some number) (edits.to_height height) shelves.old }
{
    let kept = &mut shelves[number];
    kept.shelf.height = height;
}

/// Leaves a shelf without a height, at a place across.
fn flatten(shelves: &mut [KeptShelf], number: usize, across: u16)
    requires { number < length shelves.old }
    ensures { shelves.new ≡ changed_by (Some number) (edits.flattened across) shelves.old }
{
    let kept = &mut shelves[number];
    kept.shelf.y = across;
    kept.shelf.height = 0;
}
