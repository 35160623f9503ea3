//! What a rearrangement answers, and how one rectangle more is added to it.
//!
//! Definitions: `Arranging`, and `Sides` of `Private`.

ghost use Rattle.std.specs.Prelude.{[], ◌∷◌, ◌++◌, List, OnOk};
ghost use Rattle.etagere_base.specs.declared.ids.Allocation as ids;
ghost use Rattle.shelf_model.specs.State as state;
ghost use Rattle.moves.specs.Atlases.Arranging.{Arranges};
ghost use Rattle.moves.specs.Atlases.Private.Sides.{HasSides};

use etagere_shelves::{Allocation, AtlasAllocator};
use std::alloc::AllocError;

/// A rectangle that found a place in the new atlas.
#[derive(Clone, Copy, Debug, PartialEq)]
pub struct Move {
    /// The id in the old atlas, and the rectangle there.
    pub before: Allocation,
    /// The id in the new atlas, and the rectangle there. It is at least as wide and as tall as the old one.
    pub after: Allocation,
}

/// A new atlas, and what of an old one lies where in it.
#[derive(Drop)]
pub struct Rearranged {
    /// The new atlas, which has allocated what moved and nothing else.
    pub atlas: AtlasAllocator,
    /// What moved, the tallest first, and of equally tall ones that of the least id in the old atlas.
    pub moves: Vec<Move>,
    /// What found no place, as it lies in the old atlas, in the same order.
    pub unplaced: Vec<Allocation>,
}

/// Asks the new atlas for a place as large as a rectangle of the old one, and keeps the answer.
pub fn allocate_next(done: &mut Rearranged, before: Allocation) -> Result<(), AllocError>
    requires { HasSides before }
    ensures { OnOk result ((start : state.AtlasState) (asked : List ids.Allocation)
        → Arranges start asked done.old.moves.items done.old.unplaced.items done.old.atlas
        → Arranges start (asked ++ before ∷ []) done.new.moves.items done.new.unplaced.items done.new.atlas) }
{
    match done.atlas.allocate(before.rectangle.size())? {
        Some(after) => done.moves.push(Move { before, after })?,
        None => done.unplaced.push(before)?,
    }
    Ok(())
}
