//! Holding a saved atlas against its text, token by token: at most one record is kept at a time.
//!
//! Definitions: `Snapshots`, `Private.Held`.

ghost use Rattle.std.specs.Prelude.{◌≡◌, ◌++◌, ◌∷◌, [], None, Some, codes, IfOk, OnOk};
ghost use Rattle.json.specs.Json.{read_key};
ghost use Rattle.json.specs.Value.{members_view, value_view};
ghost use Rattle.saved_json.specs.Private.Held.{IsArray, IsMember, Opens, Passes, PassesItem, PassesMembers, arrays_of};
ghost use Rattle.saved_json.specs.Snapshots.{IsAtlas, IsBucketed, IsSaved, Spells};

use crate::json_fields::field;
use crate::records::Spelled;
use crate::saved::{ReadFault, Saved};
use crate::snapshots::{has_atlas_fields, has_bucketed_fields};
use json::{Invalid, Reader, Scratch, Token, Value};
use snapshot_records::buckets::BucketedSnapshot;
use snapshot_records::shelves::AtlasSnapshot;
use std::alloc::Global;

impl From<Invalid> for ReadFault {
    fn from(_invalid: Invalid) -> ReadFault {
        ReadFault::Unreadable
    }
}

impl From<json::Error> for ReadFault {
    fn from(error: json::Error) -> ReadFault {
        match error {
            json::Error::OutOfMemory => ReadFault::Memory,
            _ => ReadFault::Unreadable,
        }
    }
}

/// How deep values may nest in a record, in an array of records, and in a snapshot.
const ITEM_DEPTH: usize = 125;

const ARRAY_DEPTH: usize = 126;

/// Passes an array, where its items spell these records.
fn pass_records<R: Spelled>(
    alloc: Global,
    reader: &mut Reader<'_>,
    records: &[R],
) -> Result<(), ReadFault>
    ensures { OnOk result (Passes 126 reader.old (λ json. IsArray R.spells json records.now) reader.new) }
{
    let Some(Token::BeginArray) = reader.next() else {
        return Err(ReadFault::Unreadable);
    };
    for record in records {
        pass_item(alloc, reader, record)?;
    }
    if reader.take_end_array() {
        Ok(())
    } else {
        Err(ReadFault::Unreadable)
    }
}

/// Passes the next item of an array, where it spells this record.
fn pass_item<R: Spelled>(alloc: Global, reader: &mut Reader<'_>, item: &R) -> Result<(), ReadFault>
    ensures { OnOk result (PassesItem R.spells 125 reader.old item.now reader.new) }
{
    if reader.take_end_array() {
        return Err(ReadFault::Unreadable);
    }
    let json = Value::read(alloc, reader, ITEM_DEPTH)?;
    if item.is_spelled_by(&json) {
        Ok(())
    } else {
        Err(ReadFault::Unreadable)
    }
}

/// Passes the members of a snapshot that is an object, where its two arrays spell these records; the
/// others are kept, and something for each array.
fn pass_members<'a, S: Spelled, T: Spelled>(
    alloc: Global,
    reader: &mut Reader<'a>,
    shelves: &[S],
    name: &str,
    others: &[T],
) -> Result<Vec<(&'a str, Value<'a>)>, ReadFault>
    ensures { IfOk result (λ kept.
        PassesMembers (arrays_of S.spells shelves.now name.now T.spells others.now)
        126 reader.old (members_view kept.items) reader.new) }
{
    let mut kept = Vec::new(alloc);
    while let Some(key) = reader.next_key()? {
        let value = pass_member(alloc, reader, key, shelves, name, others)?;
        push(&mut kept, (key, value))?;
    }
    Ok(kept)
}

/// Passes one member. What is kept of an array is nothing.
fn pass_member<'a, S: Spelled, T: Spelled>(
    alloc: Global,
    reader: &mut Reader<'a>,
    key: &str,
    shelves: &[S],
    name: &str,
    others: &[T],
) -> Result<Value<'a>, ReadFault>
    ensures { IfOk result (λ kept. Passes 126 reader.old
        (IsMember (arrays_of S.spells shelves.now name.now T.spells others.now)
        key.now (value_view kept)) reader.new) }
{
    if key == "shelves" {
        pass_records(alloc, reader, shelves)?;
        return Ok(Value::Null);
    }
    if key == name {
        pass_records(alloc, reader, others)?;
        return Ok(Value::Null);
    }
    Ok(Value::read(alloc, reader, ARRAY_DEPTH)?)
}

fn push<T: Drop>(items: &mut Vec<T>, item: T) -> Result<(), ReadFault>
    ensures { OnOk result (items.new.items ≡ items.old.items ++ item ∷ []) }
{
    match items.push(item) {
        Ok(()) => Ok(()),
        Err(_) => Err(ReadFault::Memory),
    }
}

/// Passes the snapshot of a shelf atlas, where it is an object that spells this one.
fn pass_atlas(
    alloc: Global,
    reader: &mut Reader<'_>,
    snapshot: &AtlasSnapshot,
) -> Result<(), ReadFault>
    ensures { OnOk result (Passes 127 reader.old (λ json. IsAtlas json snapshot.now) reader.new) }
{
    let Some(Token::BeginObject) = reader.next() else {
        return Err(ReadFault::Unreadable);
    };
    let (shelves, items) = (snapshot.shelves.as_slice(), snapshot.items.as_slice());
    let kept = Value::Object(pass_members(alloc, reader, shelves, "items", items)?);
    let Some(_shelves) = field(&kept, 12, 10, "shelves") else {
        return Err(ReadFault::Unreadable);
    };
    let Some(_items) = field(&kept, 12, 11, "items") else {
        return Err(ReadFault::Unreadable);
    };
    if has_atlas_fields(&kept, snapshot) {
        Ok(())
    } else {
        Err(ReadFault::Unreadable)
    }
}

/// Passes the snapshot of a bucketed atlas, where it is an object that spells this one.
fn pass_bucketed(
    alloc: Global,
    reader: &mut Reader<'_>,
    snapshot: &BucketedSnapshot,
) -> Result<(), ReadFault>
    ensures { OnOk result (Passes 127 reader.old (λ json. IsBucketed json snapshot.now) reader.new) }
{
    let Some(Token::BeginObject) = reader.next() else {
        return Err(ReadFault::Unreadable);
    };
    let (shelves, buckets) = (snapshot.shelves.as_slice(), snapshot.buckets.as_slice());
    let kept = Value::Object(pass_members(alloc, reader, shelves, "buckets", buckets)?);
    let Some(_shelves) = field(&kept, 13, 11, "shelves") else {
        return Err(ReadFault::Unreadable);
    };
    let Some(_buckets) = field(&kept, 13, 12, "buckets") else {
        return Err(ReadFault::Unreadable);
    };
    if has_bucketed_fields(&kept, snapshot) {
        Ok(())
    } else {
        Err(ReadFault::Unreadable)
    }
}

/// Passes a saved atlas, where its snapshot is an object and this one.
fn pass_saved(alloc: Global, reader: &mut Reader<'_>, saved: &Saved) -> Result<(), ReadFault>
    ensures { OnOk result (Passes 128 reader.old (λ json. IsSaved json saved.now) reader.new) }
{
    match saved {
        Saved::Atlas(snapshot) => {
            pass_name(reader, "atlas")?;
            pass_atlas(alloc, reader, snapshot)?;
            pass_end(reader)
        }
        Saved::Bucketed(snapshot) => {
            pass_name(reader, "bucketed")?;
            pass_bucketed(alloc, reader, snapshot)?;
            pass_end(reader)
        }
    }
}

/// Passes the beginning of an object, up to the value of its first member, where that has this name.
fn pass_name(reader: &mut Reader<'_>, name: &str) -> Result<(), ReadFault>
    ensures { OnOk result (Opens reader.old name.now reader.new) }
{
    let Some(Token::BeginObject) = reader.next() else {
        return Err(ReadFault::Unreadable);
    };
    match reader.next_key()? {
        Some(key) if key == name => Ok(()),
        _ => Err(ReadFault::Unreadable),
    }
}

/// Passes the end of an object.
fn pass_end(reader: &mut Reader<'_>) -> Result<(), ReadFault>
    ensures { OnOk result (read_key reader.old ≡ Some (None, reader.new)) }
{
    match reader.next_key()? {
        None => Ok(()),
        Some(_) => Err(ReadFault::Unreadable),
    }
}

/// Holds a saved atlas against a text, in which its snapshot is an object.
pub fn hold(alloc: Global, text: &str, saved: &Saved) -> Result<(), ReadFault>
    ensures { OnOk result (Spells text.now saved.now) }
{
    let mut scratch = Scratch::new(alloc);
    let mut reader = Reader::new(text, &mut scratch).map_err(|_| ReadFault::Memory)?;
    pass_saved(alloc, &mut reader, saved)?;
    if reader.next().is_none() {
        Ok(())
    } else {
        Err(ReadFault::Unreadable)
    }
}
