//! Following links through records, whatever they are: in linear time, also where links go in circles.
//!
//! Definitions: `Walks`, and `Marks` for what many walks met. A `WalkRoom` is never cleared: what an earlier
//! walk left in it is told apart by what the present one has met.

ghost use Rattle.std.specs.Prelude.{◌≡◌, ℕ, ◌+◌, ◌<◌, ◌≤◌, ◌==◌, ◌++◌, IfOk, OnOk, drop, length, take, vec_len};
ghost use Rattle.std.specs.List.{AllByRecursion, list_any};
ghost use Rattle.etagere_base.specs.Lists.{times};
ghost use Rattle.etagere_links.specs.Links.{no_link};
ghost use Rattle.etagere_links.specs.Walks as spec;
ghost use Rattle.etagere_links.specs.Private.Positions.{ArePositions, rest_of};

pub mod walks;

use std::alloc::{AllocError, Global};
use std::marker::Model;
use walks::Walk;

/// Room for many walks through so many records. Each walk takes time linear in what it meets, however many
/// records there are.
#[derive(Drop)]
pub struct WalkRoom {
    positions: Vec<u16>,
}

impl Model for WalkRoom {
    ghost use Rattle.std.specs.Prelude.{ℕ, vec_len};

    ghost Value = { ℕ };

    ghost view = { λ room. vec_len room.positions };
}

impl WalkRoom {
    /// Room for walks through so many records, at most 65535. Takes two bytes of memory for each.
    pub fn new(alloc: Global, count: usize) -> Result<WalkRoom, AllocError>
        ensures { IfOk result (λ room. room ≡ count) }
    {
        let positions = vec![in alloc; 0u16; count]?;
        Ok(WalkRoom { positions })
    }

    /// Goes on from `at` with a walk that has met what stands in `met` behind so many, and puts what it meets then behind
    /// that. Returns the link at which it stopped.
    ///
    /// Takes memory only where `met` has too little room. The error comes only where there was none.
    #[cold]
    pub(crate) fn walk_on(
        &mut self,
        met: &mut Vec<u16>,
        before: usize,
        links: &[u16],
        at: u16,
    ) -> Result<u16, AllocError>
        requires few { length links.now ≤ no_link }
        requires room { length links.now ≤ self.old }
        requires before { before ≤ length met.old.items }
        requires short { length met.old.items ≤ before + length links.now }
        requires within { AllByRecursion (λ number. number < length links.now) (drop before met.old.items) }
        requires once { (number : ℕ) → times number (drop before met.old.items) ≤ 1 }
        ensures room { self.new ≡ self.old }
        ensures met { OnOk result
            (drop before met.new.items ≡ (rest_of links.now (drop before met.old.items) at).met) }
        ensures end { IfOk result
            (λ end. end ≡ (rest_of links.now (drop before met.old.items) at).end) }
        ensures whole { OnOk result (met.new.items
            ≡ take before met.old.items ++ drop before met.new.items) }
    {
        note_all(&mut self.positions, behind(met, before));
        walk_within(&mut self.positions, met, before, links, at)
    }
}

/// Notes for each of these records, which are distinct, where among them it stands.
fn note_all(positions: &mut [u16], met: &[u16])
    requires few { length met.now ≤ no_link }
    requires within { AllByRecursion (λ number. number < length positions.old) met.now }
    requires once { (number : ℕ) → times number met.now ≤ 1 }
    ensures positions { ArePositions positions.new met.now }
    ensures room { length positions.new ≡ length positions.old }
{
    for position in 0..met.len() {
        positions[usize::from(met[position])] = position as u16;
    }
}

/// Follows links from `start` on: `links` has the link of each record, in order of their numbers, which are
/// at most 65535. The walk stops at none, at a link that is no record's number, and before a record that it has met.
///
/// Takes two bytes of memory for each record and for each record met. The error comes only where there was
/// no memory. The time is linear in the number of records.
pub fn walk(alloc: Global, links: &[u16], start: u16) -> Result<Walk, AllocError>
    requires { length links.now ≤ no_link }
    ensures met { IfOk result (λ walk. walk.met.items ≡ (spec.walk links.now start).met) }
    ensures end { IfOk result (λ walk. walk.end ≡ (spec.walk links.now start).end) }
    ensures steps { IfOk result (λ walk. walk.steps ≡ vec_len walk.met) }
    ensures bound { IfOk result (λ walk. walk.steps ≤ length links.now) }
{
    let mut positions = vec![in alloc; 0u16; links.len()]?;
    let mut met = Vec::new(alloc);
    let end = walk_within(&mut positions, &mut met, 0, links, start)?;
    Ok(Walk {
        steps: met.len() as u32,
        met,
        end,
    })
}

/// Whether a record was met behind so many: the position noted for it is that of one of those, which has it.
fn is_met(positions: &[u16], met: &[u16], before: usize, at: u16) -> bool
    requires within { at < length positions.now }
    requires before { before ≤ length met.now }
    requires at_positions { ArePositions positions.now (drop before met.now) }
    ensures { result ≡ list_any (λ number. number == at) (drop before met.now) }
{
    let position = before + usize::from(positions[usize::from(at)]);
    position < met.len() && met[position] == at
}

/// What stands in a list behind so many.
pub fn behind(met: &[u16], before: usize) -> &[u16]
    requires { before ≤ length met.now }
    ensures { result.now ≡ drop before met.now }
{
    &met[before..]
}

/// Follows links from `start` on, where a walk has met what stands in `met` behind so many, and notes in `positions`
/// where in the walk each record was met.
fn walk_within(
    positions: &mut [u16],
    met: &mut Vec<u16>,
    before: usize,
    links: &[u16],
    start: u16,
) -> Result<u16, AllocError>
    requires few { length links.now ≤ no_link }
    requires room { length links.now ≤ length positions.old }
    requires before { before ≤ length met.old.items }
    requires short { length met.old.items ≤ before + length links.now }
    requires at_positions { ArePositions positions.old (drop before met.old.items) }
    ensures met { OnOk result
        (drop before met.new.items ≡ (rest_of links.now (drop before met.old.items) start).met) }
    ensures end { IfOk result
        (λ end. end ≡ (rest_of links.now (drop before met.old.items) start).end) }
    ensures whole { OnOk result (met.new.items ≡ take before met.old.items ++ drop before met.new.items) }
    ensures bound { OnOk result (length met.new.items ≤ before + length links.now) }
{
    let mut at = start;
    for step in met.len() - before..links.len() {
        let number = usize::from(at);
        if number >= links.len() || is_met(positions, met, before, at) {
            break;
        }
        positions[number] = step as u16;
        met.push(at)?;
        at = links[number];
    }
    Ok(at)
}
