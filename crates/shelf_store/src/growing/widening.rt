//! Adds a width at the end of each shelf: to its last item where that is free, else as an item of its own.
//!
//! Definitions: `RecordsGrown`.

ghost use Rattle.std.specs.Prelude.{◌≡◌, length};
ghost use Rattle.shelf_store.specs.Private.RecordsGrown as spec;
ghost use Rattle.shelf_store.specs.Private.RecordsGrown.{CanWiden, CanWidenAll};

use crate::growing::Made;
use crate::growing::counting::last_item;
use crate::growing::inserting::use_item;
use shelf_records::{Chain, LinkedShelf, Records, fields, next_of};

/// Adds a width at the end of each shelf, which is at this place.
pub fn widen_shelves(records: &mut Records, made: &mut Made, place: u16, width: u16)
    requires { CanWidenAll place width (length records.old.shelves) records.old.first_shelf
        (record { records = records.old; made = made.old }) }
    ensures records { records.new
        ≡ (spec.shelves_widened place width (length records.old.shelves) records.old.first_shelf
        (record { records = records.old; made = made.old })).records }
    ensures made { made.new
        ≡ (spec.shelves_widened place width (length records.old.shelves) records.old.first_shelf
        (record { records = records.old; made = made.old })).made }
{
    let mut at = records.first_shelf().number();
    for _step in 0..records.shelves().len() {
        let Some(shelf) = at else {
            return;
        };
        widen_shelf(records, made, shelf, place, width);
        at = next_of::<Chain, LinkedShelf>(records.shelves(), shelf).number();
    }
}

/// Adds a width at the end of a shelf, which is at this place.
fn widen_shelf(records: &mut Records, made: &mut Made, shelf: usize, place: u16, width: u16)
    requires { CanWiden shelf width (record { records = records.old; made = made.old }) }
    ensures records { records.new
        ≡ (spec.shelf_widened shelf place width
        (record { records = records.old; made = made.old })).records }
    ensures made { made.new
        ≡ (spec.shelf_widened shelf place width
        (record { records = records.old; made = made.old })).made }
{
    let Some(last) = last_item(records, shelf) else {
        return;
    };
    if !fields::is_allocated(records.items(), last) {
        let wider = fields::width(records.items(), last) + width;
        records.set_width(last, wider);
        return;
    }
    let item = use_item(records, made);
    records.start_item(item, place, width, shelf as u16);
    records.insert_item_after(last, item);
    records.insert_free_front(shelf, item);
}
