//! Laws of the model, each the contract of a function that does nothing.
//!
//! Definitions: `Laws` and `RefusalLaws`. A law stands here where no clause of a call states it, and in `laws` if other
//! crates are to cite it. The functions have no callers: they make the check prove the laws.

ghost use Rattle.shelf_model.specs.Laws.{ChoosesAny, ChoosesByRule, FindsAny, FindsFirstLeast, GrowKeepsSpace, GrowUses, MergesAll, MergesOnce, MergingKeepsAllocated, ReturnRestores};
ghost use Rattle.shelf_model.specs.RefusalLaws.{NoRoomExactly, RefusesExactly, WidestFits};

/// The shelf that is chosen is the first of least rank, and there is one wherever any fits.
pub fn the_first_least_is_chosen()
    ensures least { FindsFirstLeast }
    ensures any { FindsAny }
{}

/// In a valid state a place is chosen by the rule, and there is one wherever a shelf fits: among the shelves
/// that fit the good fits come first, by their heights, then the bad ones; equal ones by their position. In
/// the shelf it is the first place in the free list whose item is wide enough.
pub fn a_place_is_chosen_by_the_rule()
    ensures rule { ChoosesByRule }
    ensures any { ChoosesAny }
{}

/// Merging is a normal form: it leaves nothing to merge, so merging twice is merging once, and no allocated
/// rectangle changes by it.
pub fn merging_is_a_normal_form()
    ensures all { MergesAll }
    ensures once { MergesOnce }
    ensures allocated { MergingKeepsAllocated }
{}

/// Taking a place and at once returning it gives back the layout.
pub fn a_return_restores_the_layout()
    ensures { ReturnRestores }
{}

/// A grow keeps the allocated space, and puts just the items to use for which it needs records.
pub fn a_grow_keeps_the_allocated_space()
    ensures space { GrowKeepsSpace }
    ensures uses { GrowUses }
{}

/// In a valid state there is a reason for a refusal exactly where a size has no place. It is want of room exactly where
/// the size may be asked for and no shelf fits it, and the widest free item is as wide as just those widths that a shelf
/// fits.
pub fn a_size_is_refused_for_a_reason()
    ensures exact { RefusesExactly }
    ensures room { NoRoomExactly }
    ensures widest { WidestFits }
{}
