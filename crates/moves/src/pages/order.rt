//! Who asks for a place first: the tallest, as where one atlas moves.
//!
//! Definition: `Order`.

ghost use Rattle.std.specs.List.Sorted.{IsPermutation};
ghost use Rattle.moves.specs.Pages.Order.{AreTallestFirst};

use crate::atlases::height_across;
use atlas_pages::PagedAllocation;
use std::cmp::Reverse;

/// Sorts what is allocated on pages: the tallest first, and of equally tall ones in the order of pages and ids.
///
/// Takes no memory. Makes as many comparisons as a sort.
pub fn sort_tallest_first(allocations: &mut Vec<PagedAllocation>, vertical: bool)
    ensures same { IsPermutation allocations.old.items allocations.new.items }
    ensures ordered { AreTallestFirst vertical allocations.new.items }
{
    allocations.sort_unstable_by_key(|paged| {
        (
            Reverse(height_across(vertical, paged.allocation.rectangle)),
            paged.page,
            paged.allocation.id.serialize(),
        )
    });
}
