//! Writing a whole text to a writer that may take less at a time, or fail.
//!
//! Definitions: `Sending`. Nothing is retried: one fault of the writer ends the call.

ghost use Rattle.std.specs.Prelude.{OnOk, OnErr};
ghost use Rattle.std.specs.Io.KnownBytes.{Appends};
ghost use Rattle.pictures.specs.Sending.{AppendsBeginning, AppendsPart};

use std::io::{self, ErrorKind, Write};

/// Writes a whole text, by one call of `write` where the writer takes all of it. After a fault of the writer a
/// beginning of the text went out, and not all of it; a write that accepts no byte is answered as `WriteZero`.
pub fn send<W: Write>(text: &[u8], writer: &mut W) -> io::Result<()>
    ensures whole { OnOk result (Appends (W.contents writer.old) (W.contents writer.new) text.now) }
    ensures beginning { OnErr result
        (AppendsBeginning (W.contents writer.old) (W.contents writer.new) text.now) }
    ensures part { OnErr result
        (AppendsPart (W.contents writer.old) (W.contents writer.new) text.now) }
{
    let mut sent = 0;
    while sent < text.len() {
        let count = writer.write(&text[sent..])?;
        if count == 0 {
            return Err(ErrorKind::WriteZero.into());
        }
        sent += count;
    }
    Ok(())
}
