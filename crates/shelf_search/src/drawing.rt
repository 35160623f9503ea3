//! What the picture of an atlas shows, as SVG text: one walk over the shelves, and along the items of each.
//!
//! Definitions: `Svg`, and `DrawnRecords` for the same by records. Nothing here changes the records.

ghost use Rattle.std.specs.Prelude.{◌≡◌, ◌≤◌, OnOk, OnErr};
ghost use Rattle.etagere_base.specs.Drawing.{drawn_lines};
ghost use Rattle.pictures.specs.Gathering.{GathersMore, SendsBeginning};
ghost use Rattle.etagere_base.specs.Lists.{times};
ghost use Rattle.shelf_records.specs.RecordLists.{IsLinked, shelf_walk, walked_lists};
ghost use Rattle.shelf_search.specs.Private.DrawnRecords as recorded;
ghost use Rattle.shelf_records.specs.Private.Kept.{AreKept, state_of};
ghost use Rattle.shelf_model.specs.Svg as svg;

use etagere_base::{Colour, Drawn, Frame, Sides};
use pictures::{GatheredText, drawn_at, push_drawn};
use shelf_records::{Chain, LinkedItem, LinkedShelf, Records, fields, next_of};
use std::io::{self, Write};

/// The colour of an item.
fn colour_of(allocated: bool) -> Colour
    ensures { result ≡ recorded.recorded_colour allocated }
{
    if allocated {
        Colour::Allocated
    } else {
        Colour::Free
    }
}

/// The item of this number, in the shelf of this number.
fn drawn_item(frame: &Frame, records: &Records, shelf: usize, number: usize) -> Drawn
    ensures { result ≡ recorded.recorded_drawn frame.now records.now shelf number }
{
    let items = records.items();
    let shelves = records.shelves();
    let colour = colour_of(fields::is_allocated(items, number));
    let place = Sides {
        along: u32::from(fields::place(items, number)),
        across: u32::from(fields::across(shelves, shelf)),
    };
    let sides = Sides {
        along: u32::from(fields::width(items, number)),
        across: u32::from(fields::height(shelves, shelf)),
    };
    drawn_at(frame, colour, place, sides)
}

/// Adds the lines of the items of a shelf.
fn push_items<W: Write>(
    text: &mut GatheredText,
    frame: &Frame,
    records: &Records,
    shelf: usize,
    writer: &mut W,
) -> io::Result<()>
    requires linked { IsLinked records.now (walked_lists records.now) }
    requires stands { 1 ≤ times shelf (shelf_walk records.now).met }
    ensures ok { OnOk result (GathersMore (W.contents writer.old) text.old
        (W.contents writer.new) text.new (recorded.shelf_lines frame.now records.now shelf)) }
    ensures err { OnErr result (SendsBeginning (W.contents writer.old) text.old
        (W.contents writer.new) (recorded.shelf_lines frame.now records.now shelf)) }
{
    let mut at = fields::first_item(records.shelves(), shelf);
    for _step in 0..records.items().len() {
        let Some(number) = at else {
            return Ok(());
        };
        push_drawn(text, &drawn_item(frame, records, shelf, number), writer)?;
        at = next_of::<Chain, LinkedItem>(records.items(), number).number();
    }
    Ok(())
}

/// Adds the lines of every item. After a fault of the writer a beginning of the text has gone out.
pub fn push_shelves<W: Write>(
    text: &mut GatheredText,
    frame: &Frame,
    records: &Records,
    writer: &mut W,
) -> io::Result<()>
    requires { AreKept frame.now records.now }
    ensures ok { OnOk result (GathersMore (W.contents writer.old) text.old
        (W.contents writer.new) text.new
        (drawn_lines (svg.drawn_items (state_of frame.now records.now)))) }
    ensures err { OnErr result (SendsBeginning (W.contents writer.old) text.old
        (W.contents writer.new)
        (drawn_lines (svg.drawn_items (state_of frame.now records.now)))) }
{
    let mut at = records.first_shelf().number();
    for _step in 0..records.shelves().len() {
        let Some(shelf) = at else {
            return Ok(());
        };
        push_items(text, frame, records, shelf, writer)?;
        at = next_of::<Chain, LinkedShelf>(records.shelves(), shelf).number();
    }
    Ok(())
}
