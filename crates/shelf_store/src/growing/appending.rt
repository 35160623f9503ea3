//! Appends columns after the last one, each with an empty shelf.
//!
//! Definitions: `RecordsGrown`.

ghost use Rattle.std.specs.Prelude.{◌≡◌, ◌-◌, ◌<◌, ◌≤◌, Some, ℕ, IfSome};
ghost use Rattle.etagere_base.specs.Frames.{IsFrame, longest_side};
ghost use Rattle.etagere_links.specs.Links.{no_link};
ghost use Rattle.shelf_store.specs.Private.RecordsGrown as spec;
ghost use Rattle.shelf_store.specs.Private.RecordsGrown.{CanAppend};

use crate::growing::Made;
use crate::growing::inserting::{NewShelf, insert_shelf};
use etagere_base::Frame;
use shelf_records::{Chain, LinkedShelf, Records, next_of};

/// Appends the columns of a frame from this one on, each with an empty shelf.
pub fn append_columns(records: &mut Records, made: &mut Made, frame: &Frame, first: u32)
    requires frame { IsFrame longest_side frame.now }
    requires first { first ≤ frame.now.columns }
    requires appends { (last : ℕ) → spec.last_shelf records.old ≡ Some last
        → CanAppend frame.now (frame.now.columns - first) last first
        (record { records = records.old; made = made.old }) }
    ensures records { records.new
        ≡ (spec.columns_added frame.now first (spec.last_shelf records.old)
        (record { records = records.old; made = made.old })).records }
    ensures made { made.new
        ≡ (spec.columns_added frame.now first (spec.last_shelf records.old)
        (record { records = records.old; made = made.old })).made }
{
    let Some(last) = last_shelf(records) else {
        return;
    };
    let mut previous = last;
    for column in first..frame.columns {
        let added = NewShelf {
            along: (column * frame.column_width) as u16,
            across: 0,
            width: frame.column_width as u16,
            height: frame.across_side() as u16,
        };
        previous = insert_shelf(records, made, previous, added);
    }
}

/// The last shelf of all.
fn last_shelf(records: &Records) -> Option<usize>
    ensures value { result ≡ spec.last_shelf records.now }
    ensures small { IfSome result (λ number. number < no_link) }
{
    let mut last = records.first_shelf().number()?;
    for _step in 0..records.shelves().len() {
        let Some(next) = next_of::<Chain, LinkedShelf>(records.shelves(), last).number() else {
            return Some(last);
        };
        last = next;
    }
    Some(last)
}
