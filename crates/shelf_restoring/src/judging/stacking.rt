//! Whether a shelf stands on those before it, and whether shelves fill all columns.
//!
//! Definitions: `IsNext` and `FollowFrom` of `Rules`: since columns rise, a pass keeps the height of one column alone,
//! and where it starts, so no shelf takes a division.

ghost use Rattle.std.specs.Prelude.{◌≡◌, ◌≤◌, ◌/◌, ◌%◌, List, [], Decides};
ghost use Rattle.etagere_base.specs.Frames.{longest_side};
ghost use Rattle.etagere_links.specs.Links.{no_link};
ghost use Rattle.shelf_records.specs.declared.records.LinkedShelf.{LinkedShelf};
ghost use Rattle.shelf_records.specs.RecordLists.{Entry};
ghost use Rattle.shelf_restoring.specs.Private.Rules.{FollowFrom, IsNext, SaysOf};

use etagere_base::Frame;
use shelf_records::LinkedShelf;

/// Whether a shelf, of which this is the record, stands where so much is filled of the column that starts here, if a
/// column does.
pub fn is_next(frame: &Frame, start: u32, height: u32, shelf: &LinkedShelf) -> bool
    requires wide { 1 ≤ frame.now.column_width }
    requires narrow { frame.now.column_width ≤ longest_side }
    requires small { start ≤ no_link }
    ensures { (shelves : List LinkedShelf) (entry : Entry) → SaysOf shelves entry.number shelf.now
        → start % frame.now.column_width ≡ 0
        → Decides result (IsNext frame.now shelves (start / frame.now.column_width) height entry) }
{
    let along = u32::from(shelf.x);
    if along != start && (height != frame.across_side() || along != start + frame.column_width) {
        return false;
    }
    let below = if along == start { height } else { 0 };
    u32::from(shelf.y) == below && shelf.height >= 1
}

/// Whether no column is left where so much is filled of the one that starts here.
pub fn fills_columns(frame: &Frame, start: u32, height: u32) -> bool
    requires wide { 1 ≤ frame.now.column_width }
    requires small { start ≤ no_link }
    ensures { (shelves : List LinkedShelf) →
        Decides result
        (FollowFrom frame.now shelves (start / frame.now.column_width) height []) }
{
    height == frame.across_side() && start / frame.column_width + 1 == frame.columns
}
