//! The picture of pages: side by side, each as an atlas is drawn into a rectangle.
//!
//! Definitions: `Picture`, and `Pieces` of `Private` for a line. Text is gathered in a buffer of fixed size, so no memory
//! is taken.

ghost use Rattle.std.specs.Prelude.{◌≡◌, ◌^◌, ◌<◌, ◌≤◌, OnOk, OnErr, length};
ghost use Rattle.std.specs.Io.KnownBytes.{Appends};
ghost use Rattle.std.specs.List.{AllByRecursion};
ghost use Rattle.etagere_base.specs.Drawing.{document_begin, drawn_lines, part_begin};
ghost use Rattle.etagere_base.specs.Frames.{longest_side};
ghost use Rattle.pictures.specs.Gathering.{GathersMore, SendsBeginning};
ghost use Rattle.pictures.specs.Sending.{AppendsBeginning};
ghost use Rattle.shelf_model.specs.Atlas.{KeepsPromises};
ghost use Rattle.shelf_model.specs.Svg.{picture};
ghost use Rattle.atlas_pages.specs.Picture as spec;
ghost use Rattle.atlas_pages.specs.Picture.{page_area, page_left, pages_width};
ghost use Rattle.atlas_pages.specs.Private.Pieces.{piece_text, text_of};

use etagere_base::{Colour, Drawn, Frame};
use etagere_shelves::AtlasAllocator;
use pictures::{GatheredText, Pictured, push_drawn};
use std::io::{self, Write};

/// How many pixels stay free between two pages.
const GAP: u32 = 16;

/// A piece of a line.
#[derive(Clone, Copy)]
enum Piece<'a> {
    Text(&'a str),
    Number(u64),
}

/// Sends a document that shows pages of a frame side by side. After a fault of the writer a beginning of it has gone out.
pub(crate) fn send_pages<W: Write>(
    frame: &Frame,
    pages: &[AtlasAllocator],
    writer: &mut W,
) -> io::Result<()>
    requires short { frame.now.width ≤ longest_side }
    requires few { length pages.now < 2 ^ 32 }
    requires kept { AllByRecursion KeepsPromises pages.now }
    ensures ok { OnOk result (Appends (W.contents writer.old) (W.contents writer.new)
        (spec.pages_document frame.now pages.now)) }
    ensures err { OnErr result (AppendsBeginning (W.contents writer.old) (W.contents writer.new)
        (spec.pages_document frame.now pages.now)) }
{
    let mut text = GatheredText::new();
    push_document(&mut text, frame, pages, writer)?;
    text.finish(writer)
}

/// Adds a document that shows pages.
fn push_document<W: Write>(
    text: &mut GatheredText,
    frame: &Frame,
    pages: &[AtlasAllocator],
    writer: &mut W,
) -> io::Result<()>
    requires short { frame.now.width ≤ longest_side }
    requires few { length pages.now < 2 ^ 32 }
    requires kept { AllByRecursion KeepsPromises pages.now }
    ensures ok { OnOk result (GathersMore (W.contents writer.old) text.old
        (W.contents writer.new) text.new (spec.pages_document frame.now pages.now)) }
    ensures err { OnErr result (SendsBeginning (W.contents writer.old) text.old
        (W.contents writer.new) (spec.pages_document frame.now pages.now)) }
{
    push_document_begin(text, frame, pages.len() as u32, writer)?;
    push_pages(text, pages, writer)?;
    text.push("</svg>\n", writer)
}

/// Adds the first line of a document that shows so many pages.
fn push_document_begin<W: Write>(
    text: &mut GatheredText,
    frame: &Frame,
    count: u32,
    writer: &mut W,
) -> io::Result<()>
    requires { frame.now.width ≤ longest_side }
    ensures ok { OnOk result (GathersMore (W.contents writer.old) text.old
        (W.contents writer.new) text.new
        (document_begin (pages_width frame.now.width count) frame.now.height)) }
    ensures err { OnErr result (SendsBeginning (W.contents writer.old) text.old
        (W.contents writer.new)
        (document_begin (pages_width frame.now.width count) frame.now.height)) }
{
    let width = left_of(frame, count).saturating_sub(u64::from(GAP));
    let height = u64::from(frame.height);
    let pieces = [
        Piece::Text("<svg xmlns=\"http://www.w3.org/2000/svg\" width=\""),
        Piece::Number(width),
        Piece::Text("\" height=\""),
        Piece::Number(height),
        Piece::Text("\" viewBox=\"0 0 "),
        Piece::Number(width),
        Piece::Text(" "),
        Piece::Number(height),
        Piece::Text("\">\n"),
    ];
    push_pieces(text, &pieces, writer)
}

/// Adds the pictures of pages, each beside the former.
fn push_pages<W: Write>(
    text: &mut GatheredText,
    pages: &[AtlasAllocator],
    writer: &mut W,
) -> io::Result<()>
    requires few { length pages.now < 2 ^ 32 }
    requires kept { AllByRecursion KeepsPromises pages.now }
    ensures ok { OnOk result (GathersMore (W.contents writer.old) text.old
        (W.contents writer.new) text.new (spec.page_texts pages.now)) }
    ensures err { OnErr result (SendsBeginning (W.contents writer.old) text.old
        (W.contents writer.new) (spec.page_texts pages.now)) }
{
    for number in 0..pages.len() {
        push_page(text, &pages[number], number as u32, writer)?;
    }
    Ok(())
}

/// Adds the picture of the page of a number.
fn push_page<W: Write>(
    text: &mut GatheredText,
    page: &AtlasAllocator,
    number: u32,
    writer: &mut W,
) -> io::Result<()>
    requires { KeepsPromises page.now }
    ensures ok { OnOk result (GathersMore (W.contents writer.old) text.old
        (W.contents writer.new) text.new (spec.page_text (number, page.now))) }
    ensures err { OnErr result (SendsBeginning (W.contents writer.old) text.old
        (W.contents writer.new) (spec.page_text (number, page.now))) }
{
    push_page_begin(text, page.frame(), number, writer)?;
    push_picture(text, page, writer)?;
    text.push("    </svg>\n", writer)
}

/// Adds the first line of the picture of the page of a number.
fn push_page_begin<W: Write>(
    text: &mut GatheredText,
    frame: &Frame,
    number: u32,
    writer: &mut W,
) -> io::Result<()>
    requires { frame.now.width ≤ longest_side }
    ensures ok { OnOk result (GathersMore (W.contents writer.old) text.old
        (W.contents writer.new) text.new
        (part_begin frame.now.width frame.now.height (page_area frame.now number))) }
    ensures err { OnErr result (SendsBeginning (W.contents writer.old) text.old
        (W.contents writer.new)
        (part_begin frame.now.width frame.now.height (page_area frame.now number))) }
{
    let (width, height) = (u64::from(frame.width), u64::from(frame.height));
    let pieces = [
        Piece::Text("    <svg x=\""),
        Piece::Number(left_of(frame, number)),
        Piece::Text("\" y=\""),
        Piece::Number(0),
        Piece::Text("\" width=\""),
        Piece::Number(width),
        Piece::Text("\" height=\""),
        Piece::Number(height),
        Piece::Text("\" viewBox=\"0 0 "),
        Piece::Number(width),
        Piece::Text(" "),
        Piece::Number(height),
        Piece::Text("\" preserveAspectRatio=\"none\">\n"),
    ];
    push_pieces(text, &pieces, writer)
}

/// How far from the left the page of a number begins, in pixels.
fn left_of(frame: &Frame, number: u32) -> u64
    requires { frame.now.width ≤ longest_side }
    ensures { result ≡ page_left frame.now.width number }
{
    u64::from(number) * u64::from(frame.width + GAP)
}

/// Adds the lines of all that the picture of a page shows.
fn push_picture<W: Write>(
    text: &mut GatheredText,
    page: &AtlasAllocator,
    writer: &mut W,
) -> io::Result<()>
    ensures ok { OnOk result (GathersMore (W.contents writer.old) text.old
        (W.contents writer.new) text.new (drawn_lines (picture page.now))) }
    ensures err { OnErr result (SendsBeginning (W.contents writer.old) text.old
        (W.contents writer.new) (drawn_lines (picture page.now))) }
{
    let frame = page.frame();
    let background = Drawn {
        colour: Colour::Background,
        x: 0,
        y: 0,
        width: frame.width,
        height: frame.height,
    };
    push_drawn(text, &background, writer)?;
    page.push_shown(text, writer)
}

/// Adds pieces, one after another.
fn push_pieces<W: Write>(
    text: &mut GatheredText,
    pieces: &[Piece<'_>],
    writer: &mut W,
) -> io::Result<()>
    ensures ok { OnOk result (GathersMore (W.contents writer.old) text.old
        (W.contents writer.new) text.new (text_of pieces.now)) }
    ensures err { OnErr result (SendsBeginning (W.contents writer.old) text.old
        (W.contents writer.new) (text_of pieces.now)) }
{
    for piece in pieces {
        push_piece(text, *piece, writer)?;
    }
    Ok(())
}

/// Adds a piece: a number by its decimal digits.
fn push_piece<W: Write>(text: &mut GatheredText, piece: Piece<'_>, writer: &mut W) -> io::Result<()>
    ensures ok { OnOk result (GathersMore (W.contents writer.old) text.old
        (W.contents writer.new) text.new (piece_text piece.entry)) }
    ensures err { OnErr result (SendsBeginning (W.contents writer.old) text.old
        (W.contents writer.new) (piece_text piece.entry)) }
{
    match piece {
        Piece::Text(part) => text.push(part, writer),
        Piece::Number(number) => {
            let mut digits = itoa::Buffer::new();
            text.push(digits.format(number), writer)
        }
    }
}
