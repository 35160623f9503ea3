//! What allocates sizes, and takes allocations back.
//!
//! The members say what may be said of each by its own model, and the laws what evictions need of it: of what is
//! allocated, and that there is room again once nothing is.

ghost use Rattle.std.specs.Prelude.{◌≡◌, Bool, List, [], ◌∷◌, ◌++◌, true, is_some, IfOk, IfSome, IfNone, OnErr};
ghost use Rattle.etagere_base.specs.declared.geometry.Size as geometry;

use etagere_base::Size;
use std::alloc::AllocError;

/// Something that allocates sizes, as an atlas does.
pub trait Allocates: Drop {
    /// What is allocated, by which it is given back.
    type Allocation: Copy;

    // What holds of each, whatever was called before.
    ghost keeps: { Self → Type 0 };

    // Whether a size has a place, and whether it would have one where nothing is allocated.
    ghost has_place: { Self → geometry.Size → Bool };

    ghost fits: { Self → geometry.Size → Bool };

    // A size may be given this allocation, and leave this; and what is left once it is given back.
    ghost gives: { Self → geometry.Size → Self.Allocation → Self → Type 0 };

    ghost returned: { Self → Self.Allocation → Self };

    // What is left where everything is given back at once.
    ghost cleared: { Self → Self };

    // Something is allocated; and these are all that are.
    ghost is_held: { Self → Self.Allocation → Bool };

    ghost are_held: { Self → List Self.Allocation → Type 0 };

    /// Allocates a size; none where it has no place. An `Err` comes only where it has one, and there was no memory;
    /// then nothing changes.
    fn give(&mut self, size: Size) -> Result<Option<Self::Allocation>, AllocError>
        ensures given { IfOk result
            (λ answer. IfSome answer (λ allocation. gives self.old size allocation self.new)) }
        ensures room { IfOk result (λ answer. is_some answer ≡ has_place self.old size) }
        ensures none { IfOk result (λ answer. IfNone answer (self.new ≡ self.old)) }
        ensures err_room { OnErr result (has_place self.old size ≡ true) }
        ensures err { OnErr result (self.new ≡ self.old) }
        ensures promises { keeps self.new };

    /// Takes an allocation back.
    fn take_back(&mut self, allocation: Self::Allocation)
        requires { is_held self.old allocation ≡ true }
        ensures returned { self.new ≡ returned self.old allocation }
        ensures promises { keeps self.new };

    /// Takes everything back at once.
    fn clear(&mut self)
        ensures cleared { self.new ≡ cleared self.old }
        ensures promises { keeps self.new };

    /// Whether a size would have a place where nothing is allocated.
    fn fits_ever(&self, size: Size) -> bool
        ensures { result ≡ fits self.now size };

    ghost one_more: { (old : Self) (size : geometry.Size) (allocation : Self.Allocation) (new : Self)
        (allocations : List Self.Allocation) → keeps old → keeps new → gives old size allocation new
        → are_held old allocations → are_held new (allocation ∷ allocations) };

    ghost one_less: { (state : Self) (front back : List Self.Allocation) (allocation : Self.Allocation) → keeps state
        → are_held state (front ++ allocation ∷ back) → are_held (returned state allocation) (front ++ back) };

    ghost to_front: { (state : Self) (front back : List Self.Allocation) (allocation : Self.Allocation)
        → are_held state (front ++ allocation ∷ back) → are_held state (allocation ∷ front ++ back) };

    ghost among: { (state : Self) (front back : List Self.Allocation) (allocation : Self.Allocation)
        → are_held state (front ++ allocation ∷ back) → is_held state allocation ≡ true };

    ghost still_keeps: { (state : Self) (allocation : Self.Allocation) → keeps state
        → keeps (returned state allocation) };

    ghost all_cleared: { (state : Self) → keeps state → are_held (cleared state) [] };

    ghost none_held: { (state : Self) (size : geometry.Size) → keeps state → are_held state []
        → fits state size ≡ true → has_place state size ≡ true };

    ghost fits_given: { (old : Self) (size asked : geometry.Size) (allocation : Self.Allocation) (new : Self)
        → gives old asked allocation new → fits new size ≡ fits old size };

    ghost fits_returned: { (state : Self) (size : geometry.Size) (allocation : Self.Allocation)
        → fits (returned state allocation) size ≡ fits state size };
}
