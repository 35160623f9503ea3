//! Laws of the definitions, each the contract of a function that does nothing.
//!
//! Definitions: `Laws`. A law that callers or readers want gets its function here.

ghost use Rattle.shelf_records.specs.Laws.{EditsEachList};

/// Inserting, taking out, making unused and taking what became unused last change a list of records as a list.
pub(crate) fn each_edit_changes_a_list()
    ensures { EditsEachList }
{}
