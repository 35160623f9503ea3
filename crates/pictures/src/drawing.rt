//! The SVG text of a picture, piece by piece.
//!
//! Definitions: `Drawing`. What a picture shows is not decided here: each atlas says which rectangles it
//! draws, and in which order, as `Pictured`. Lines are gathered in a buffer of fixed size, so no memory is taken.

ghost use Rattle.std.specs.Prelude.{◌≡◌, ◌≤◌, ◌+◌, ◌++◌, length, Some, OnOk, OnErr};
ghost use Rattle.std.specs.Io.KnownBytes.{Appends};
ghost use Rattle.std.specs.Option.{option_map};
ghost use Rattle.etagere_base.specs.Drawing as spec;
ghost use Rattle.pictures.specs.Gathering.{GathersMore, SendsBeginning};
ghost use Rattle.pictures.specs.Sending.{AppendsBeginning};

use crate::gathering::GatheredText;
use etagere_base::{Colour, Drawn, Frame, Rectangle, Sides, swapped_axes};
use std::io::{self, Write};

/// An atlas that has a picture.
pub trait Pictured {
    ghost use Rattle.std.specs.Prelude.{List};
    ghost use Rattle.etagere_base.specs.declared.drawing.Drawn.{Drawn};
    ghost use Rattle.etagere_base.specs.declared.frames.Frame.{Frame};

    ghost framed: { Self → Frame };

    ghost shown: { Self → List Drawn };

    /// What the atlas keeps of its size and options.
    fn frame(&self) -> &Frame
        ensures { result.now ≡ framed self.now };

    /// Adds the lines of all that the picture shows above the whole atlas.
    fn push_shown<W: Write>(&self, text: &mut GatheredText, writer: &mut W) -> io::Result<()>
        ensures ok { OnOk result (GathersMore (W.contents writer.old) text.old
            (W.contents writer.new) text.new (spec.drawn_lines (shown self.now))) }
        ensures err { OnErr result (SendsBeginning (W.contents writer.old) text.old
            (W.contents writer.new) (spec.drawn_lines (shown self.now))) };
}

/// The whole atlas.
fn background(frame: &Frame) -> Drawn
    ensures { result ≡ spec.background frame.now }
{
    Drawn {
        colour: Colour::Background,
        x: 0,
        y: 0,
        width: frame.width,
        height: frame.height,
    }
}

/// What lies at a place along and across, with these sides along and across.
pub fn drawn_at(frame: &Frame, colour: Colour, place: Sides, sides: Sides) -> Drawn
    ensures { result
        ≡ spec.drawn_at frame.now colour place.along place.across sides.along sides.across }
{
    let place = swapped_axes(frame.vertical, place);
    let sides = swapped_axes(frame.vertical, sides);
    Drawn {
        colour,
        x: place.along,
        y: place.across,
        width: sides.along,
        height: sides.across,
    }
}

/// Adds a name and a number, where there is room for both.
#[inline(always)]
fn append_attribute(text: &mut GatheredText, name: &str, value: u32)
    requires { length text.old + (length name.now + 10) ≤ 4096 }
    ensures text { text.new ≡ text.old ++ spec.attribute name.now value }
    ensures short { length text.new ≤ length text.old + (length name.now + 10) }
{
    text.append(name);
    text.append_number(value);
}

/// Adds a name and a number that may be negative, where there is room for both.
fn append_signed_attribute(text: &mut GatheredText, name: &str, value: i32)
    requires { length text.old + (length name.now + 11) ≤ 4096 }
    ensures text { text.new ≡ text.old ++ spec.signed_attribute name.now value }
    ensures short { length text.new ≤ length text.old + (length name.now + 11) }
{
    text.append(name);
    text.append_signed(value);
}

/// Adds the line of a rectangle, where there is room for it.
#[inline(always)]
fn append_drawn(text: &mut GatheredText, drawn: &Drawn)
    requires { length text.old + 256 ≤ 4096 }
    ensures { text.new ≡ text.old ++ spec.drawn_line drawn.now }
{
    append_attribute(text, "    <rect x=\"", drawn.x);
    append_attribute(text, "\" y=\"", drawn.y);
    append_attribute(text, "\" width=\"", drawn.width);
    append_attribute(text, "\" height=\"", drawn.height);
    text.append(drawn.colour.text());
}

/// Adds the line of a rectangle. Always inlined: the answer of a writer is large, and is seldom asked for.
#[inline(always)]
pub fn push_drawn<W: Write>(
    text: &mut GatheredText,
    drawn: &Drawn,
    writer: &mut W,
) -> io::Result<()>
    ensures ok { OnOk result (GathersMore (W.contents writer.old) text.old
        (W.contents writer.new) text.new (spec.drawn_line drawn.now)) }
    ensures err { OnErr result (SendsBeginning (W.contents writer.old) text.old
        (W.contents writer.new) (spec.drawn_line drawn.now)) }
{
    text.make_room(writer)?;
    append_drawn(text, drawn);
    Ok(())
}

/// Adds what a picture this wide and tall shows of itself, where there is room for it.
fn append_view(text: &mut GatheredText, width: u32, height: u32)
    requires { length text.old + 36 ≤ 4096 }
    ensures text { text.new ≡ text.old ++ spec.view_text width height }
    ensures short { length text.new ≤ length text.old + 36 }
{
    append_attribute(text, "\" viewBox=\"0 0 ", width);
    append_attribute(text, " ", height);
}

/// Adds the first line of a document this wide and tall, where there is room for it.
fn append_document_begin(text: &mut GatheredText, width: u32, height: u32)
    requires { length text.old + 256 ≤ 4096 }
    ensures { text.new ≡ text.old ++ spec.document_begin width height }
{
    append_attribute(
        text,
        "<svg xmlns=\"http://www.w3.org/2000/svg\" width=\"",
        width,
    );
    append_attribute(text, "\" height=\"", height);
    append_view(text, width, height);
    text.append("\">\n");
}

/// Adds the first line of a document this wide and tall.
fn push_document_begin<W: Write>(
    text: &mut GatheredText,
    width: u32,
    height: u32,
    writer: &mut W,
) -> io::Result<()>
    ensures ok { OnOk result (GathersMore (W.contents writer.old) text.old
        (W.contents writer.new) text.new (spec.document_begin width height)) }
    ensures err { OnErr result (SendsBeginning (W.contents writer.old) text.old
        (W.contents writer.new) (spec.document_begin width height)) }
{
    text.make_room(writer)?;
    append_document_begin(text, width, height);
    Ok(())
}

/// How far one place is past another: 0 where it isn't past it.
fn extent(from: i32, to: i32) -> u32
    ensures { result ≡ spec.extent from to }
{
    (i64::from(to) - i64::from(from)).max(0) as u32
}

/// How wide a rectangle is.
fn width_of(rectangle: &Rectangle) -> u32
    ensures { result ≡ spec.width_of rectangle.now }
{
    extent(rectangle.min.x, rectangle.max.x)
}

/// How tall a rectangle is.
fn height_of(rectangle: &Rectangle) -> u32
    ensures { result ≡ spec.height_of rectangle.now }
{
    extent(rectangle.min.y, rectangle.max.y)
}

/// Whether both sides of a rectangle are positive.
fn has_area(rectangle: &Rectangle) -> bool
    ensures { result ≡ spec.has_area rectangle.now }
{
    width_of(rectangle) > 0 && height_of(rectangle) > 0
}

/// Adds where a part of a document lies, and its sides, where there is room for them.
fn append_part_place(text: &mut GatheredText, rectangle: &Rectangle)
    requires { length text.old + 78 ≤ 4096 }
    ensures text { text.new ≡ text.old ++ spec.part_place rectangle.now }
    ensures short { length text.new ≤ length text.old + 78 }
{
    append_signed_attribute(text, "    <svg x=\"", rectangle.min.x);
    append_signed_attribute(text, "\" y=\"", rectangle.min.y);
    append_attribute(text, "\" width=\"", width_of(rectangle));
    append_attribute(text, "\" height=\"", height_of(rectangle));
}

/// Adds the first line of a picture this wide and tall that fills a rectangle of a document, where there is room for it.
fn append_part_begin(text: &mut GatheredText, width: u32, height: u32, rectangle: &Rectangle)
    requires { length text.old + 256 ≤ 4096 }
    ensures { text.new ≡ text.old ++ spec.part_begin width height rectangle.now }
{
    append_part_place(text, rectangle);
    append_view(text, width, height);
    text.append("\" preserveAspectRatio=\"none\">\n");
}

/// Adds the first line of a picture this wide and tall that fills a rectangle of a document.
fn push_part_begin<W: Write>(
    text: &mut GatheredText,
    width: u32,
    height: u32,
    rectangle: &Rectangle,
    writer: &mut W,
) -> io::Result<()>
    ensures ok { OnOk result (GathersMore (W.contents writer.old) text.old
        (W.contents writer.new) text.new (spec.part_begin width height rectangle.now)) }
    ensures err { OnErr result (SendsBeginning (W.contents writer.old) text.old
        (W.contents writer.new) (spec.part_begin width height rectangle.now)) }
{
    text.make_room(writer)?;
    append_part_begin(text, width, height, rectangle);
    Ok(())
}

/// Adds the lines of all that a picture shows.
fn push_picture<P: Pictured, W: Write>(
    text: &mut GatheredText,
    atlas: &P,
    writer: &mut W,
) -> io::Result<()>
    ensures ok { OnOk result (GathersMore (W.contents writer.old) text.old
        (W.contents writer.new) text.new
        (spec.drawn_lines (spec.picture_of (P.framed atlas.now) (P.shown atlas.now)))) }
    ensures err { OnErr result (SendsBeginning (W.contents writer.old) text.old
        (W.contents writer.new)
        (spec.drawn_lines (spec.picture_of (P.framed atlas.now) (P.shown atlas.now)))) }
{
    push_drawn(text, &background(atlas.frame()), writer)?;
    atlas.push_shown(text, writer)
}

/// Adds a document that shows an atlas.
fn push_document<P: Pictured, W: Write>(
    text: &mut GatheredText,
    atlas: &P,
    writer: &mut W,
) -> io::Result<()>
    ensures ok { OnOk result (GathersMore (W.contents writer.old) text.old
        (W.contents writer.new) text.new
        (spec.document (P.framed atlas.now).width (P.framed atlas.now).height
        (spec.picture_of (P.framed atlas.now) (P.shown atlas.now)))) }
    ensures err { OnErr result (SendsBeginning (W.contents writer.old) text.old
        (W.contents writer.new)
        (spec.document (P.framed atlas.now).width (P.framed atlas.now).height
        (spec.picture_of (P.framed atlas.now) (P.shown atlas.now)))) }
{
    let frame = atlas.frame();
    push_document_begin(text, frame.width, frame.height, writer)?;
    push_picture(text, atlas, writer)?;
    text.push("</svg>\n", writer)
}

/// Adds a picture that fills a rectangle of a document.
fn push_part<P: Pictured, W: Write>(
    text: &mut GatheredText,
    atlas: &P,
    rectangle: &Rectangle,
    writer: &mut W,
) -> io::Result<()>
    ensures ok { OnOk result (GathersMore (W.contents writer.old) text.old
        (W.contents writer.new) text.new
        (spec.part (P.framed atlas.now).width (P.framed atlas.now).height
        (spec.picture_of (P.framed atlas.now) (P.shown atlas.now)) rectangle.now)) }
    ensures err { OnErr result (SendsBeginning (W.contents writer.old) text.old
        (W.contents writer.new)
        (spec.part (P.framed atlas.now).width (P.framed atlas.now).height
        (spec.picture_of (P.framed atlas.now) (P.shown atlas.now)) rectangle.now)) }
{
    let frame = atlas.frame();
    push_part_begin(text, frame.width, frame.height, rectangle, writer)?;
    push_picture(text, atlas, writer)?;
    text.push("    </svg>\n", writer)
}

/// Sends a document that shows an atlas. After a fault of the writer a beginning of it has gone out.
pub fn send_document<P: Pictured, W: Write>(atlas: &P, writer: &mut W) -> io::Result<()>
    ensures ok { OnOk result (Appends (W.contents writer.old) (W.contents writer.new)
        (spec.document (P.framed atlas.now).width (P.framed atlas.now).height
        (spec.picture_of (P.framed atlas.now) (P.shown atlas.now)))) }
    ensures err { OnErr result (AppendsBeginning (W.contents writer.old) (W.contents writer.new)
        (spec.document (P.framed atlas.now).width (P.framed atlas.now).height
        (spec.picture_of (P.framed atlas.now) (P.shown atlas.now)))) }
{
    let mut text = GatheredText::new();
    push_document(&mut text, atlas, writer)?;
    text.finish(writer)
}

/// Sends the lines of all that a picture shows.
fn send_picture<P: Pictured, W: Write>(atlas: &P, writer: &mut W) -> io::Result<()>
    ensures ok { OnOk result (Appends (W.contents writer.old) (W.contents writer.new)
        (spec.drawn_lines (spec.picture_of (P.framed atlas.now) (P.shown atlas.now)))) }
    ensures err { OnErr result (AppendsBeginning (W.contents writer.old) (W.contents writer.new)
        (spec.drawn_lines (spec.picture_of (P.framed atlas.now) (P.shown atlas.now)))) }
{
    let mut text = GatheredText::new();
    push_picture(&mut text, atlas, writer)?;
    text.finish(writer)
}

/// Sends a picture that fills a rectangle of a document, where the rectangle has an area.
fn send_part<P: Pictured, W: Write>(
    atlas: &P,
    rectangle: &Rectangle,
    writer: &mut W,
) -> io::Result<()>
    ensures ok { OnOk result (Appends (W.contents writer.old) (W.contents writer.new)
        (spec.document_part (P.framed atlas.now).width (P.framed atlas.now).height
        (spec.picture_of (P.framed atlas.now) (P.shown atlas.now)) (Some rectangle.now))) }
    ensures err { OnErr result (AppendsBeginning (W.contents writer.old) (W.contents writer.new)
        (spec.document_part (P.framed atlas.now).width (P.framed atlas.now).height
        (spec.picture_of (P.framed atlas.now) (P.shown atlas.now)) (Some rectangle.now))) }
{
    if !has_area(rectangle) {
        return Ok(());
    }
    let mut text = GatheredText::new();
    push_part(&mut text, atlas, rectangle, writer)?;
    text.finish(writer)
}

/// Sends the picture of an atlas as a part of a larger document: in its own place, or in a rectangle that has an area.
/// After a fault of the writer a beginning of it has gone out.
pub fn send_into<P: Pictured, W: Write>(
    atlas: &P,
    rectangle: Option<&Rectangle>,
    writer: &mut W,
) -> io::Result<()>
    ensures ok { OnOk result (Appends (W.contents writer.old) (W.contents writer.new)
        (spec.document_part (P.framed atlas.now).width (P.framed atlas.now).height
        (spec.picture_of (P.framed atlas.now) (P.shown atlas.now))
        (option_map (λ rectangle. rectangle.now) rectangle.entry))) }
    ensures err { OnErr result (AppendsBeginning (W.contents writer.old) (W.contents writer.new)
        (spec.document_part (P.framed atlas.now).width (P.framed atlas.now).height
        (spec.picture_of (P.framed atlas.now) (P.shown atlas.now))
        (option_map (λ rectangle. rectangle.now) rectangle.entry))) }
{
    match rectangle {
        None => send_picture(atlas, writer),
        Some(rectangle) => send_part(atlas, rectangle, writer),
    }
}
