//! Writing a line: by one call of `write` where the writer takes all of it.
//!
//! Definitions: `Sending` of `etagere_base`. What a writer leaves is sent by `send`.

ghost use Rattle.std.specs.Prelude.{◌<◌, OnOk, OnErr, drop, length};
ghost use Rattle.std.specs.Io.KnownBytes.{Appends};
ghost use Rattle.pictures.specs.Sending.{AppendsBeginning, AppendsPart};

use pictures::send;
use std::io::{ErrorKind, Write};

/// Writes a line that has bytes, as `send` does, of whose error it gives the kind. Always inlined: a writer that takes
/// all of it costs its own instructions and a test, since a kind is small enough to be returned in a register.
#[inline(always)]
pub fn send_line<W: Write>(line: &[u8], writer: &mut W) -> Result<(), ErrorKind>
    requires { 0 < length line.now }
    ensures whole { OnOk result (Appends (W.contents writer.old) (W.contents writer.new) line.now) }
    ensures beginning { OnErr result
        (AppendsBeginning (W.contents writer.old) (W.contents writer.new) line.now) }
    ensures part { OnErr result
        (AppendsPart (W.contents writer.old) (W.contents writer.new) line.now) }
{
    match writer.write(line) {
        Ok(sent) if sent == line.len() => Ok(()),
        Ok(sent) => send_rest(line, sent, writer),
        Err(error) => Err(error.kind()),
    }
}

/// Writes what is left of a line of which so many bytes went out. It stands apart, so that the test for it is inlined.
#[cold]
#[inline(never)]
fn send_rest<W: Write>(line: &[u8], sent: usize, writer: &mut W) -> Result<(), ErrorKind>
    requires { sent < length line.now }
    ensures whole { OnOk result
        (Appends (W.contents writer.old) (W.contents writer.new) (drop sent line.now)) }
    ensures part { OnErr result
        (AppendsPart (W.contents writer.old) (W.contents writer.new) (drop sent line.now)) }
{
    if sent == 0 {
        return Err(ErrorKind::WriteZero);
    }
    send(&line[sent..], writer).map_err(|error| error.kind())
}
