//! The text of a reply: one line, of which the keys go out one by one. Nothing here takes memory.
//!
//! Definition: `ReplyText`. A new reply needs its words there and here.

ghost use Rattle.std.specs.Prelude.{◌≡◌, ◌≤◌, ◌++◌, ◌∷◌, [], OnOk, OnErr, length};
ghost use Rattle.std.specs.Io.KnownBytes.{Appends};
ghost use Rattle.pictures.specs.Sending.{AppendsPart};
ghost use Rattle.run_scripts.specs.Lines.{line_feed};
ghost use Rattle.run_scripts.specs.ReplyText.{corners_text};
ghost use Rattle.glyph_run.specs.ReplyText as spec;
ghost use Rattle.glyph_run.specs.ReplyText.{evicted_text, key_text, keys_text};

use crate::commands::GlyphReply;
use etagere::Rectangle;
use itoa::Buffer;
use pictures::send;
use run_scripts::reply_text::put_corners;
use run_scripts::short_text::{ShortText, put_byte, put_word};
use std::io::{self, Write};

/// Writes the line of a reply. What is of a short length is made in `line`.
pub fn send_line<W: Write>(
    reply: &GlyphReply,
    line: &mut ShortText,
    writer: &mut W,
) -> io::Result<()>
    ensures whole { OnOk result (Appends (W.contents writer.old) (W.contents writer.new) (spec.line_of reply.now)) }
    ensures part { OnErr result
        (AppendsPart (W.contents writer.old) (W.contents writer.new) (spec.line_of reply.now)) }
{
    send(words_of(reply, line), writer)?;
    send_end(evicted_by(reply), writer)
}

/// What a reply says, before the keys that were evicted. It is made in `line`, where it isn't always the same.
fn words_of<'a>(reply: &GlyphReply, line: &'a mut ShortText) -> &'a [u8]
    ensures { result.now ≡ spec.words_of reply.now }
{
    match reply {
        GlyphReply::Placed(placed) => with_corners("placed ", &placed.rectangle, line),
        GlyphReply::TooLarge => b"too large",
        GlyphReply::NoMemory(_) => b"no memory",
        GlyphReply::At(rectangle) => with_corners("at ", rectangle, line),
        GlyphReply::Removed(rectangle) => with_corners("removed ", rectangle, line),
        GlyphReply::NotThere => b"none",
        GlyphReply::Cleared => b"cleared",
        GlyphReply::Begun => b"begun",
        GlyphReply::FrameFull => b"frame full",
    }
}

/// A word and the corners of a rectangle, made in `line`.
fn with_corners<'a>(word: &str, rectangle: &Rectangle, line: &'a mut ShortText) -> &'a [u8]
    requires { length word.now ≤ 8 }
    ensures { result.now ≡ word.now ++ corners_text rectangle.now }
{
    let at = put_word(&mut line.bytes, 0, word);
    let end = put_corners(&mut line.bytes, at, rectangle);
    &line.bytes[..end]
}

/// The keys that a reply names as evicted.
fn evicted_by(reply: &GlyphReply) -> &[u64]
    ensures { result.now ≡ spec.evicted_by reply.now }
{
    match reply {
        GlyphReply::Placed(placed) => placed.evicted.as_slice(),
        GlyphReply::NoMemory(evicted) => evicted.as_slice(),
        _ => &[],
    }
}

/// Writes which keys were evicted, if any, and the line feed.
fn send_end<W: Write>(evicted: &[u64], writer: &mut W) -> io::Result<()>
    ensures whole { OnOk result (Appends (W.contents writer.old) (W.contents writer.new)
        (evicted_text evicted.now ++ line_feed ∷ [])) }
    ensures part { OnErr result (AppendsPart (W.contents writer.old) (W.contents writer.new)
        (evicted_text evicted.now ++ line_feed ∷ [])) }
{
    send_evicted(evicted, writer)?;
    send(b"\n", writer)
}

/// Writes which keys were evicted, if any.
fn send_evicted<W: Write>(evicted: &[u64], writer: &mut W) -> io::Result<()>
    ensures whole { OnOk result (Appends (W.contents writer.old) (W.contents writer.new)
        (evicted_text evicted.now)) }
    ensures part { OnErr result (AppendsPart (W.contents writer.old) (W.contents writer.new)
        (evicted_text evicted.now)) }
{
    if evicted.is_empty() {
        return Ok(());
    }
    send(b" evicted", writer)?;
    send_keys(evicted, writer)
}

/// Writes keys, a space before each.
fn send_keys<W: Write>(keys: &[u64], writer: &mut W) -> io::Result<()>
    ensures whole { OnOk result (Appends (W.contents writer.old) (W.contents writer.new) (keys_text keys.now)) }
    ensures part { OnErr result (AppendsPart (W.contents writer.old) (W.contents writer.new) (keys_text keys.now)) }
{
    for index in 0..keys.len() {
        send_key(keys[index], writer)?;
    }
    Ok(())
}

/// Writes a space and a key.
fn send_key<W: Write>(key: u64, writer: &mut W) -> io::Result<()>
    ensures whole { OnOk result (Appends (W.contents writer.old) (W.contents writer.new) (key_text key)) }
    ensures part { OnErr result (AppendsPart (W.contents writer.old) (W.contents writer.new) (key_text key)) }
{
    let mut digits = Buffer::new();
    let mut line = ShortText::new();
    let at = put_byte(&mut line.bytes, 0, b' ');
    let end = put_word(&mut line.bytes, at, digits.format(key));
    send(&line.bytes[..end], writer)
}
