//! Records that stand in doubly linked lists: which links of a record belong to which list.
//!
//! Definitions: `Families`. A record type that gets lists implements `Linked` once for each.

ghost use Rattle.std.specs.Prelude.{◌≡◌};
ghost use Rattle.shelf_records.specs.Families.{Family};

use etagere_links::Link;

/// The list in which every record that is in use stands.
pub struct Chain;

/// The list of what is free, in the order in which places are looked for.
pub struct FreeList;

/// A record with a link to the next one and one to the previous one of a list. A record may stand in lists
/// of several kinds, each with links of its own: `List` says which kind is meant.
pub trait Linked<List> {
    ghost family: { Family Self };

    /// The record after this one.
    fn next(&self) -> Link
        ensures { result ≡ family.next self.now };

    /// The record before this one.
    fn previous(&self) -> Link
        ensures { result ≡ family.previous self.now };

    /// Changes the link to the next record, and nothing else.
    fn set_next(&mut self, next: Link)
        ensures { self.new ≡ family.with_next next self.old };

    /// Changes the link to the previous record, and nothing else.
    fn set_previous(&mut self, previous: Link)
        ensures { self.new ≡ family.with_previous previous self.old };
}
