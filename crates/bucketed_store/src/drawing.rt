//! What the picture of a bucketed atlas shows, as SVG text: the shelves in order, and the buckets of each by
//! their links.
//!
//! Definitions: `Svg`, and `DrawnRecords` for the same by records. Nothing here changes the records.

ghost use Rattle.std.specs.Prelude.{◌≡◌, OnOk, OnErr};
ghost use Rattle.std.specs.List.{AllByRecursion, flat_map};
ghost use Rattle.etagere_base.specs.Drawing.{drawn_lines};
ghost use Rattle.pictures.specs.Gathering.{GathersMore, SendsBeginning};
ghost use Rattle.bucketed_model.specs.Svg as svg;
ghost use Rattle.bucketed_records.specs.Private.Store.{stored_state};
ghost use Rattle.bucketed_store.specs.Private.DrawnRecords as recorded;
ghost use Rattle.bucketed_store.specs.Private.DrawnRecords.{AreKept, FitAlong, FitsIn};

use crate::store::Store;
use bucketed_records::records::{KeptShelf, LinkedBucket, LinkedBucketShelf, MOST_BUCKETS};
use etagere_base::{Colour, Drawn, Frame, Sides};
use pictures::{GatheredText, drawn_at, push_drawn};
use std::io::{self, Write};

/// The used part of a bucket of a shelf.
fn used_part(frame: &Frame, shelf: &LinkedBucketShelf, bucket: &LinkedBucket) -> Drawn
    requires { FitsIn shelf.now bucket.now }
    ensures { result ≡ recorded.recorded_used frame.now shelf.now bucket.now }
{
    let place = Sides {
        along: u32::from(bucket.x),
        across: u32::from(shelf.y),
    };
    let sides = Sides {
        along: u32::from(shelf.bucket_width) - u32::from(bucket.free_space),
        across: u32::from(shelf.height),
    };
    drawn_at(frame, Colour::Allocated, place, sides)
}

/// The free part of a bucket of a shelf.
fn free_part(frame: &Frame, shelf: &LinkedBucketShelf, bucket: &LinkedBucket) -> Drawn
    requires { FitsIn shelf.now bucket.now }
    ensures { result ≡ recorded.recorded_free frame.now shelf.now bucket.now }
{
    let free = u32::from(bucket.free_space);
    let place = Sides {
        along: u32::from(bucket.x) + (u32::from(shelf.bucket_width) - free),
        across: u32::from(shelf.y),
    };
    let sides = Sides {
        along: free,
        across: u32::from(shelf.height),
    };
    drawn_at(frame, Colour::Free, place, sides)
}

/// Adds the line of the used part of a bucket.
fn push_used<W: Write>(
    text: &mut GatheredText,
    frame: &Frame,
    shelf: &LinkedBucketShelf,
    bucket: &LinkedBucket,
    writer: &mut W,
) -> io::Result<()>
    requires { FitsIn shelf.now bucket.now }
    ensures ok { OnOk result (GathersMore (W.contents writer.old) text.old
        (W.contents writer.new) text.new (recorded.used_line frame.now shelf.now bucket.now)) }
    ensures err { OnErr result (SendsBeginning (W.contents writer.old) text.old
        (W.contents writer.new) (recorded.used_line frame.now shelf.now bucket.now)) }
{
    push_drawn(text, &used_part(frame, shelf, bucket), writer)
}

/// Adds the line of the free part of a bucket, where there is some.
fn push_free<W: Write>(
    text: &mut GatheredText,
    frame: &Frame,
    shelf: &LinkedBucketShelf,
    bucket: &LinkedBucket,
    writer: &mut W,
) -> io::Result<()>
    requires { FitsIn shelf.now bucket.now }
    ensures ok { OnOk result (GathersMore (W.contents writer.old) text.old
        (W.contents writer.new) text.new (recorded.free_line frame.now shelf.now bucket.now)) }
    ensures err { OnErr result (SendsBeginning (W.contents writer.old) text.old
        (W.contents writer.new) (recorded.free_line frame.now shelf.now bucket.now)) }
{
    if bucket.free_space == 0 {
        return Ok(());
    }
    push_drawn(text, &free_part(frame, shelf, bucket), writer)
}

/// Adds the lines of a bucket.
fn push_bucket<W: Write>(
    text: &mut GatheredText,
    frame: &Frame,
    shelf: &LinkedBucketShelf,
    bucket: &LinkedBucket,
    writer: &mut W,
) -> io::Result<()>
    requires { FitsIn shelf.now bucket.now }
    ensures ok { OnOk result (GathersMore (W.contents writer.old) text.old
        (W.contents writer.new) text.new (recorded.bucket_lines frame.now shelf.now bucket.now)) }
    ensures err { OnErr result (SendsBeginning (W.contents writer.old) text.old
        (W.contents writer.new) (recorded.bucket_lines frame.now shelf.now bucket.now)) }
{
    push_used(text, frame, shelf, bucket, writer)?;
    push_free(text, frame, shelf, bucket, writer)
}

/// Adds the lines of the buckets of a shelf.
fn push_buckets<W: Write>(
    text: &mut GatheredText,
    frame: &Frame,
    kept: &KeptShelf,
    buckets: &[LinkedBucket],
    writer: &mut W,
) -> io::Result<()>
    requires { FitAlong buckets.now kept.now }
    ensures ok { OnOk result (GathersMore (W.contents writer.old) text.old
        (W.contents writer.new) text.new (recorded.shelf_lines frame.now buckets.now kept.now)) }
    ensures err { OnErr result (SendsBeginning (W.contents writer.old) text.old
        (W.contents writer.new) (recorded.shelf_lines frame.now buckets.now kept.now)) }
{
    let mut at = kept.shelf.first_bucket;
    for _step in 0..MOST_BUCKETS {
        let Some(number) = at.number() else {
            return Ok(());
        };
        if number >= buckets.len() {
            return Ok(());
        }
        let bucket = &buckets[number];
        push_bucket(text, frame, &kept.shelf, bucket, writer)?;
        at = bucket.next;
    }
    Ok(())
}

/// Adds the lines of every bucket. Never inlined: it is called once for a picture, and what draws one is long.
#[inline(never)]
fn push_shelves<W: Write>(
    text: &mut GatheredText,
    frame: &Frame,
    shelves: &[KeptShelf],
    buckets: &[LinkedBucket],
    writer: &mut W,
) -> io::Result<()>
    requires { AllByRecursion (FitAlong buckets.now) shelves.now }
    ensures ok { OnOk result (GathersMore (W.contents writer.old) text.old
        (W.contents writer.new) text.new
        (flat_map (recorded.shelf_lines frame.now buckets.now) shelves.now)) }
    ensures err { OnErr result (SendsBeginning (W.contents writer.old) text.old
        (W.contents writer.new)
        (flat_map (recorded.shelf_lines frame.now buckets.now) shelves.now)) }
{
    for kept in shelves {
        push_buckets(text, frame, kept, buckets, writer)?;
    }
    Ok(())
}

/// Adds the lines of every bucket of the records. After a fault of the writer a beginning of the text has gone out.
pub fn push_store<W: Write>(
    text: &mut GatheredText,
    frame: &Frame,
    store: &Store,
    writer: &mut W,
) -> io::Result<()>
    requires { AreKept frame.now store.now }
    ensures ok { OnOk result (GathersMore (W.contents writer.old) text.old
        (W.contents writer.new) text.new
        (drawn_lines (svg.drawn_buckets (stored_state frame.now store.now)))) }
    ensures err { OnErr result (SendsBeginning (W.contents writer.old) text.old
        (W.contents writer.new)
        (drawn_lines (svg.drawn_buckets (stored_state frame.now store.now)))) }
{
    push_shelves(text, frame, &store.shelves, &store.buckets, writer)
}
