//! Links back along lists that walks have met.
//!
//! Definitions: `LeadsBack` of `Chains`.
ghost use Rattle.std.specs.Prelude.{◌≡◌, None, Decides};
ghost use Rattle.shelf_records.specs.Chains.{LeadsBack};
ghost use Rattle.etagere_links.specs.Edits.{link_at};

use etagere_links::Link;
use shelf_records::{Linked, previous_of};

/// Whether a link names this record, or none.
pub fn is_link_to(link: Link, number: Option<usize>) -> bool
    ensures { Decides result (link ≡ number) }
{
    link.number() == number
}

/// Whether each of these records links back to the one before it, and the first to none.
pub fn links_back<List, T: Linked<List>>(records: &[T], numbers: &[u16]) -> bool
    ensures { Decides result
        (LeadsBack (link_at T.family.previous records.now) None numbers.now) }
{
    let mut before = None;
    for number in numbers {
        let here = usize::from(*number);
        if !is_link_to(previous_of::<List, T>(records, here), before) {
            return false;
        }
        before = Some(here);
    }
    true
}
