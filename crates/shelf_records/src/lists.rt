//! Lists of records linked by number: inserting and taking out. A link that names no record changes
//! nothing. What ends in `present` needs the records there that it changes, and tests no range.
//!
//! Definitions: `ListEdits`, and `Chains` for what they mean. One body serves every list of `Linked`.

ghost use Rattle.std.specs.Prelude.{◌≡◌, ◌<◌, IfSome, length, option_and_then};
ghost use Rattle.etagere_links.specs.Links.{no_link};
ghost use Rattle.etagere_links.specs.Edits.{changed_by, link_at};
ghost use Rattle.shelf_records.specs.ListEdits as spec;
ghost use Rattle.shelf_records.specs.Neighbours.{HasNeighbours, NamesOneOf};

use crate::chained::Linked;
use etagere_links::Link;

/// The link to the record after the one of this number; none where there is no such record.
pub fn next_of<List, T: Linked<List>>(records: &[T], number: usize) -> Link
    ensures { result ≡ link_at T.family.next records.now number }
{
    if number < records.len() {
        records[number].next()
    } else {
        Link::none()
    }
}

/// The link to the record before the one of this number; none where there is no such record.
pub fn previous_of<List, T: Linked<List>>(records: &[T], number: usize) -> Link
    ensures { result ≡ link_at T.family.previous records.now number }
{
    if number < records.len() {
        records[number].previous()
    } else {
        Link::none()
    }
}

/// Changes the link to the next one in the record that `from` names.
fn set_next_of<List, T: Linked<List>>(records: &mut [T], from: Link, next: Link)
    ensures { records.new ≡ changed_by from (T.family.with_next next) records.old }
{
    let Some(number) = from.number() else {
        return;
    };
    if number < records.len() {
        records[number].set_next(next);
    }
}

/// Changes the link to the previous one in the record that `from` names.
fn set_previous_of<List, T: Linked<List>>(records: &mut [T], from: Link, previous: Link)
    ensures { records.new ≡ changed_by from (T.family.with_previous previous) records.old }
{
    let Some(number) = from.number() else {
        return;
    };
    if number < records.len() {
        records[number].set_previous(previous);
    }
}

/// Changes the link to a list's first, where the record with these neighbours was taken out.
fn set_first_without(first: &mut Link, previous: Link, next: Link)
    ensures { first.new ≡ spec.first_without previous next first.old }
{
    if previous.number().is_none() {
        *first = next;
    }
}

/// Changes the link to the next one in the record of this number, which is there.
fn set_next_at<List, T: Linked<List>>(records: &mut [T], number: usize, next: Link)
    requires { number < length records.old }
    ensures { records.new ≡ changed_by (Some number) (T.family.with_next next) records.old }
{
    records[number].set_next(next);
}

/// Changes the link to the previous one in the record of this number, which is there.
fn set_previous_at<List, T: Linked<List>>(records: &mut [T], number: usize, previous: Link)
    requires { number < length records.old }
    ensures { records.new
        ≡ changed_by (Some number) (T.family.with_previous previous) records.old }
{
    records[number].set_previous(previous);
}

/// Changes the link to the next one in the record that `from` names, if any, which is there.
fn set_next_present<List, T: Linked<List>>(records: &mut [T], from: Link, next: Link)
    requires { NamesOneOf records.old from }
    ensures { records.new ≡ changed_by from (T.family.with_next next) records.old }
{
    if let Some(number) = from.number() {
        records[number].set_next(next);
    }
}

/// Changes the link to the previous one in the record that `from` names, if any, which is there.
pub fn set_previous_present<List, T: Linked<List>>(records: &mut [T], from: Link, previous: Link)
    requires { NamesOneOf records.old from }
    ensures { records.new ≡ changed_by from (T.family.with_previous previous) records.old }
{
    if let Some(number) = from.number() {
        records[number].set_previous(previous);
    }
}

/// Takes the record of this number out of its list, whose first record `first` names: its neighbours are linked to each
/// other. Its own links stay. It and its neighbours are there.
pub fn unlink_present<List, T: Linked<List>>(records: &mut [T], first: &mut Link, number: usize)
    requires { HasNeighbours T.family records.old number }
    ensures records { records.new ≡ spec.unlinked T.family number records.old }
    ensures first { first.new
        ≡ spec.first_without
        (link_at T.family.previous records.old number)
        (link_at T.family.next records.old number)
        first.old }
{
    let previous = records[number].previous();
    let next = records[number].next();
    set_next_present::<List, T>(records, previous, next);
    set_previous_present::<List, T>(records, next, previous);
    set_first_without(first, previous, next);
}

/// Puts the record of this number, which stands in no list, between two neighbours.
fn link_between<List, T: Linked<List>>(records: &mut [T], previous: Link, next: Link, number: usize)
    requires { number < no_link }
    ensures { records.new ≡ spec.linked_between T.family previous next number records.old }
{
    let link = Link::to(number);
    set_next_of::<List, T>(records, link, next);
    set_previous_of::<List, T>(records, link, previous);
    set_next_of::<List, T>(records, previous, link);
    set_previous_of::<List, T>(records, next, link);
}

/// Puts the record of this number, which stands in no list, after another one.
pub fn insert_after<List, T: Linked<List>>(records: &mut [T], previous: usize, number: usize)
    requires previous { previous < no_link }
    requires number { number < no_link }
    ensures { records.new
        ≡ spec.linked_between T.family (Some previous)
        (link_at T.family.next records.old previous)
        number records.old }
{
    let next = next_of::<List, T>(records, previous);
    link_between::<List, T>(records, Link::to(previous), next, number);
}

/// Puts a record after another one as `insert_after` does, where both are there, and what comes behind them.
pub fn insert_after_present<List, T: Linked<List>>(
    records: &mut [T],
    previous: usize,
    number: usize,
)
    requires here { number < length records.old }
    requires small { (previous < no_link) × (number < no_link) }
    requires previous { previous < length records.old }
    requires next { NamesOneOf records.old (link_at T.family.next records.old previous) }
    ensures { records.new
        ≡ spec.linked_between T.family (Some previous)
        (link_at T.family.next records.old previous)
        number records.old }
{
    let next = records[previous].next();
    let link = Link::to(number);
    set_next_at::<List, T>(records, number, next);
    set_previous_at::<List, T>(records, number, Link::to(previous));
    set_next_at::<List, T>(records, previous, link);
    set_previous_present::<List, T>(records, next, link);
}

/// Puts the record of this number, which stands in no list, in front of the list whose first record
/// `first` names.
pub fn insert_front<List, T: Linked<List>>(records: &mut [T], first: &mut Link, number: usize)
    requires { number < no_link }
    ensures records { records.new ≡ spec.linked_between T.family None first.old number records.old }
    ensures first { first.new ≡ Some number }
{
    link_between::<List, T>(records, Link::none(), *first, number);
    *first = Link::to(number);
}

/// Makes the record of this number, which is there and stands in no list, the first unused one; `top` names the first.
/// Unused records are linked through `next` alone.
pub fn make_unused_present<List, T: Linked<List>>(records: &mut [T], top: &mut Link, number: usize)
    requires here { number < length records.old }
    requires small { number < no_link }
    ensures records { records.new ≡ spec.made_unused T.family top.old number records.old }
    ensures top { top.new ≡ Some number }
{
    set_next_at::<List, T>(records, number, *top);
    *top = Link::to(number);
}

/// Takes the unused record that `top` names, the one that became unused last; none where none is unused.
pub fn take<List, T: Linked<List>>(records: &[T], top: &mut Link) -> Option<usize>
    ensures number { result ≡ top.old }
    ensures top { top.new ≡ option_and_then (link_at T.family.next records.now) top.old }
    ensures small { IfSome result (λ number. number < no_link) }
{
    let number = top.number()?;
    *top = next_of::<List, T>(records, number);
    Some(number)
}
