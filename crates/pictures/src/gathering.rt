//! Text that is gathered in a buffer of fixed size, so that small pieces go out in few writes.
//!
//! Definitions: `Gathering`. No memory is taken. What goes out, and in how many writes, may change; that it
//! is a beginning of the text, and after `finish` all of it, may not. A line first makes room for all of it, and
//! then its pieces are added without a test or a fault of their own.

ghost use Rattle.std.specs.Prelude.{[], ◌≡◌, ◌≤◌, ◌+◌, ◌++◌, OnOk, OnErr, decimal, length};
ghost use Rattle.std.specs.Fmt.{signed_decimal};
ghost use Rattle.std.specs.Io.KnownBytes.{Appends};
ghost use Rattle.pictures.specs.Gathering.{GathersMore, SendsBeginning, SendsWhole};
ghost use Rattle.pictures.specs.Sending.{AppendsBeginning};

use crate::sending::send;
use itoa::write_digits;
use std::io::{self, Write};
use std::marker::Model;

/// How many bytes are gathered at most.
const CAPACITY: usize = 4096;

/// How many bytes a line has at most that is added without a test for each piece.
const LINE_CAPACITY: usize = 256;

/// The end of a text, which was not sent yet.
#[derive(Drop)]
pub struct GatheredText {
    bytes: [u8; CAPACITY],
    length: usize,
}

impl Model for GatheredText {
    ghost use Rattle.std.specs.Prelude.{ℕ, ◌≤◌, List, take};

    ghost Value = { List ℕ };

    ghost invariant = { λ text. text.length ≤ 4096 };

    ghost view = { λ text. take text.length text.bytes };
}

impl GatheredText {
    /// No text.
    pub fn new() -> GatheredText
        ensures { result ≡ [] }
    {
        GatheredText {
            bytes: [0; CAPACITY],
            length: 0,
        }
    }

    /// Adds a piece, and sends all where there is no room for it. After a fault of the writer a beginning of
    /// the text has gone out.
    pub fn push<W: Write>(&mut self, piece: &str, writer: &mut W) -> io::Result<()>
        ensures ok { OnOk result (GathersMore
            (W.contents writer.old) self.old (W.contents writer.new) self.new piece.now) }
        ensures err { OnErr result (SendsBeginning
            (W.contents writer.old) self.old (W.contents writer.new) piece.now) }
    {
        if piece.len() <= CAPACITY - self.length {
            self.append(piece);
            return Ok(());
        }
        send_both(self.as_bytes(), piece.as_bytes(), writer)?;
        self.clear();
        Ok(())
    }

    /// Sends all where there is no room for a line. After a fault of the writer a beginning of the text has gone out.
    pub(crate) fn make_room<W: Write>(&mut self, writer: &mut W) -> io::Result<()>
        ensures room { OnOk result (length self.new + 256 ≤ 4096) }
        ensures ok { OnOk result (GathersMore
            (W.contents writer.old) self.old (W.contents writer.new) self.new []) }
        ensures err { OnErr result (SendsBeginning
            (W.contents writer.old) self.old (W.contents writer.new) []) }
    {
        if self.length <= CAPACITY - LINE_CAPACITY {
            return Ok(());
        }
        self.send_all(writer)
    }

    /// Sends all. After a fault of the writer a beginning of the text has gone out. It is called once in 4096 bytes, and
    /// lines needn't pay for it.
    #[inline(never)]
    fn send_all<W: Write>(&mut self, writer: &mut W) -> io::Result<()>
        ensures empty { OnOk result (self.new ≡ []) }
        ensures ok { OnOk result (GathersMore
            (W.contents writer.old) self.old (W.contents writer.new) self.new []) }
        ensures err { OnErr result (SendsBeginning
            (W.contents writer.old) self.old (W.contents writer.new) []) }
    {
        send(self.as_bytes(), writer)?;
        self.clear();
        Ok(())
    }

    /// Adds a piece for which there is room.
    #[inline(always)]
    pub(crate) fn append(&mut self, piece: &str)
        requires { length self.old + length piece.now ≤ 4096 }
        ensures { self.new ≡ self.old ++ piece.now }
    {
        let at = self.length;
        let end = at + piece.len();
        self.bytes[at..end].copy_from_slice(piece.as_bytes());
        self.length = end;
    }

    /// Adds the decimal digits of a number, where there is room for ten bytes.
    #[inline(always)]
    pub(crate) fn append_number(&mut self, number: u32)
        requires { length self.old + 10 ≤ 4096 }
        ensures text { self.new ≡ self.old ++ decimal number }
        ensures short { length self.new ≤ length self.old + 10 }
    {
        let end = self.length + digits_of(number);
        write_digits(number as u64, &mut self.bytes, end);
        self.length = end;
    }

    /// Adds the decimal digits of a number, after a minus sign where it is negative, where there is room for 11 bytes.
    pub(crate) fn append_signed(&mut self, number: i32)
        requires { length self.old + 11 ≤ 4096 }
        ensures text { self.new ≡ self.old ++ signed_decimal number }
        ensures short { length self.new ≤ length self.old + 11 }
    {
        if number < 0 {
            self.append("-");
        }
        self.append_number(number.unsigned_abs());
    }

    /// Makes the text empty.
    fn clear(&mut self)
        ensures { self.new ≡ [] }
    {
        self.length = 0;
    }

    /// The text.
    fn as_bytes(&self) -> &[u8]
        ensures { result.now ≡ self.now }
    {
        &self.bytes[..self.length]
    }

    /// Sends what is left.
    pub fn finish<W: Write>(self, writer: &mut W) -> io::Result<()>
        ensures ok { OnOk result (SendsWhole
            (W.contents writer.old) self (W.contents writer.new)) }
        ensures err { OnErr result (SendsBeginning
            (W.contents writer.old) self (W.contents writer.new) []) }
    {
        send(self.as_bytes(), writer)
    }
}

/// How many decimal digits a number has.
#[inline(always)]
fn digits_of(number: u32) -> usize
    ensures count { result ≡ length (decimal number) }
    ensures short { result ≤ 10 }
{
    if number < 10 {
        return 1;
    }
    number.ilog10() as usize + 1
}

/// Sends two texts, one after the other. It is called once in 4096 bytes, and small pieces needn't pay for it.
#[inline(never)]
fn send_both<W: Write>(first: &[u8], second: &[u8], writer: &mut W) -> io::Result<()>
    ensures whole { OnOk result (Appends
        (W.contents writer.old) (W.contents writer.new) (first.now ++ second.now)) }
    ensures beginning { OnErr result (AppendsBeginning
        (W.contents writer.old) (W.contents writer.new) (first.now ++ second.now)) }
{
    send(first, writer)?;
    send(second, writer)
}
