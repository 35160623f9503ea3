//! The lines of a list of sizes: `W H`, `W,H` or `NAME,W,H`.

use etagere::{Size, size2};
use run_scripts::lines::{first_line, split_word};
use run_scripts::numbers::number_of;
use run_scripts::script::ScriptFault;
use std::alloc::Global;
use std::str;

/// A size that is wanted, the number of its line, from 1, and its name, which is empty where the line has none.
#[derive(Clone, Copy)]
pub struct Wanted<'a> {
    pub line: u64,
    pub name: &'a str,
    pub size: Size,
}

/// All that is wanted, in order. Empty lines are passed over; a byte order mark may stand first, and a carriage return at
/// the end of a line.
pub fn wanted_in(alloc: Global, list: &[u8]) -> Result<Vec<Wanted<'_>>, ScriptFault> {
    let mut wanted = Vec::new(alloc);
    let mut rest = without_mark(list);
    for before in 0..list.len() {
        if rest.is_empty() {
            break;
        }
        let (line, after) = first_line(rest);
        push_wanted(&mut wanted, before as u64 + 1, line)?;
        rest = after;
    }
    Ok(wanted)
}

fn without_mark(list: &[u8]) -> &[u8] {
    match list {
        [0xef, 0xbb, 0xbf, rest @ ..] => rest,
        _ => list,
    }
}

/// Adds what is wanted on a line, unless that is empty.
fn push_wanted<'a>(
    wanted: &mut Vec<Wanted<'a>>,
    number: u64,
    line: &'a [u8],
) -> Result<(), ScriptFault> {
    let Some(text) = text_of(line) else {
        return Ok(());
    };
    let one = wanted_on(number, text).ok_or(ScriptFault::BadLine(number))?;
    wanted.push(one).map_err(|_| ScriptFault::Memory)
}

/// A line without a carriage return at its end; none where it is empty.
fn text_of(line: &[u8]) -> Option<&[u8]> {
    let text = match line {
        [text @ .., b'\r'] => text,
        text => text,
    };
    if text.is_empty() { None } else { Some(text) }
}

/// What is wanted on a line; none where it isn't good.
fn wanted_on(line: u64, text: &[u8]) -> Option<Wanted<'_>> {
    let Some((front, height)) = split_last(text, b',') else {
        let (width, height) = split_word(text)?;
        return wanted_of(line, &[], width, height);
    };
    match split_last(front, b',') {
        Some((name, width)) => wanted_of(line, name, width, height),
        None => wanted_of(line, &[], front, height),
    }
}

fn wanted_of<'a>(line: u64, name: &'a [u8], width: &[u8], height: &[u8]) -> Option<Wanted<'a>> {
    Some(Wanted {
        line,
        name: str::from_utf8(name).ok()?,
        size: size2(number_of(width)?, number_of(height)?),
    })
}

/// The bytes before the last separator and those after it, if there is one.
fn split_last(bytes: &[u8], separator: u8) -> Option<(&[u8], &[u8])> {
    let after = count_after(bytes, separator);
    let position = bytes.len().checked_sub(after)?.checked_sub(1)?;
    Some((&bytes[..position], &bytes[position + 1..]))
}

/// How many bytes are after the last separator; all where there is none.
fn count_after(bytes: &[u8], separator: u8) -> usize {
    bytes
        .iter()
        .rev()
        .take_while(|byte| **byte != separator)
        .count()
}
