//! Adds a height at the end of each column: to its last shelf where that is empty, else as a shelf of its own.
//!
//! Definitions: `RecordsGrown`.

ghost use Rattle.std.specs.Prelude.{◌≡◌, true, length};
ghost use Rattle.shelf_store.specs.Private.RecordsGrown as spec;
ghost use Rattle.shelf_store.specs.Private.RecordsGrown.{CanHeighten, CanHeightenAll};

use crate::growing::Made;
use crate::growing::counting::ends_column;
use crate::growing::inserting::{NewShelf, insert_shelf};
use shelf_records::{Chain, LinkedShelf, Records, fields, next_of};

/// Adds a height at the end of each column.
pub fn heighten_columns(records: &mut Records, made: &mut Made, width: u16, height: u16)
    requires { CanHeightenAll width height (length records.old.shelves) records.old.first_shelf
        (record { records = records.old; made = made.old }) }
    ensures records { records.new
        ≡ (spec.columns_heightened width height (length records.old.shelves) records.old.first_shelf
        (record { records = records.old; made = made.old })).records }
    ensures made { made.new
        ≡ (spec.columns_heightened width height (length records.old.shelves) records.old.first_shelf
        (record { records = records.old; made = made.old })).made }
{
    let mut at = records.first_shelf().number();
    for _step in 0..records.shelves().len() {
        let Some(shelf) = at else {
            return;
        };
        at = next_of::<Chain, LinkedShelf>(records.shelves(), shelf).number();
        heighten_end(records, made, width, shelf, at, height);
    }
}

/// Adds a height after a shelf, where it is the last of its column.
fn heighten_end(
    records: &mut Records,
    made: &mut Made,
    width: u16,
    shelf: usize,
    next: Option<usize>,
    height: u16,
)
    requires { spec.ends_column_at records.old.shelves shelf next ≡ true
        → CanHeighten shelf height (record { records = records.old; made = made.old }) }
    ensures records { records.new
        ≡ (spec.end_heightened width shelf height next
        (record { records = records.old; made = made.old })).records }
    ensures made { made.new
        ≡ (spec.end_heightened width shelf height next
        (record { records = records.old; made = made.old })).made }
{
    if ends_column(records.shelves(), shelf, next) {
        heighten_shelf(records, made, width, shelf, height);
    }
}

/// Adds a height after a shelf, in a column of this width.
fn heighten_shelf(records: &mut Records, made: &mut Made, width: u16, shelf: usize, height: u16)
    requires { CanHeighten shelf height (record { records = records.old; made = made.old }) }
    ensures records { records.new
        ≡ (spec.shelf_heightened width shelf height
        (record { records = records.old; made = made.old })).records }
    ensures made { made.new
        ≡ (spec.shelf_heightened width shelf height
        (record { records = records.old; made = made.old })).made }
{
    let own = fields::height(records.shelves(), shelf);
    if fields::is_empty(records.shelves(), shelf) {
        records.set_height(shelf, own + height);
        return;
    }
    let along = fields::along(records.shelves(), shelf);
    let across = fields::across(records.shelves(), shelf) + own;
    let added = NewShelf {
        along,
        across,
        width,
        height,
    };
    insert_shelf(records, made, shelf, added);
}
