//! Scripts and commands, or what was expected on their first line that isn't good.

use crate::ending::Failure;
use crate::script_lines::{header_line, line_at};
use run_scripts::commands::AtlasCommand;
use run_scripts::faults::ReplayFault;
use run_scripts::lines::split_word;
use run_scripts::numbers::{number_of, position_of};
use run_scripts::script::{Script, ScriptFault, commands_of, read_script};
use run_scripts::words::header_of;
use std::alloc::Global;

/// The script that an input is.
pub fn script_in(alloc: Global, input: &[u8]) -> Result<Script, Failure> {
    match read_script(alloc, input) {
        Ok(script) => Ok(script),
        Err(ScriptFault::BadLine(number)) => Err(bad_line(input, number)),
        Err(ScriptFault::Memory) => Err(Failure::Fault(ReplayFault::Memory)),
    }
}

/// The commands that an input is, for a shelf atlas and without a header.
pub fn commands_in(alloc: Global, input: &[u8]) -> Result<Vec<AtlasCommand>, Failure> {
    match commands_of(alloc, 0, input) {
        Ok(commands) => Ok(commands),
        Err(ScriptFault::BadLine(number)) => Err(Failure::BadLine {
            number,
            expected: expected_command(line_at(input, number), b"atlas".as_slice()),
        }),
        Err(ScriptFault::Memory) => Err(Failure::Fault(ReplayFault::Memory)),
    }
}

/// What was expected on the first bad line of a script, which has this number.
pub fn bad_line(script: &[u8], number: u64) -> Failure {
    let line = line_at(script, number);
    let header = header_line(script);
    // A header that isn't good is the first bad line: no command was read.
    let expected = if header_of(header).is_none() {
        expected_header(line)
    } else {
        expected_command(line, header)
    };
    Failure::BadLine { number, expected }
}

fn expected_header(line: &[u8]) -> &'static str {
    let Some((name, words)) = split_word(line) else {
        return "a header is expected: atlas or bucketed, then W H AW AH N, then h or v";
    };
    if name != b"atlas".as_slice() && name != b"bucketed".as_slice() {
        return "the first line is a header, which begins with atlas or bucketed";
    }
    if words_in(words) != 6 {
        return "six words are expected behind the kind: W H AW AH N, then h or v, one space apart";
    }
    if !ends_with_direction(words) {
        return "the last word of a header is h or v";
    }
    "W H AW AH N are whole numbers of 32 bits, in digits, also behind a -"
}

fn ends_with_direction(words: &[u8]) -> bool {
    matches!(words, [.., b' ', b'h' | b'v'])
}

/// How many words a line has: one space parts them, and what it parts may be empty.
fn words_in(line: &[u8]) -> usize {
    line.iter()
        .filter(|byte| **byte == b' ')
        .count()
        .saturating_add(1)
}

fn expected_command(line: &[u8], header: &[u8]) -> &'static str {
    if matches!(line, [.., b'\r']) {
        return "a line ends with a line feed alone, without a carriage return";
    }
    expected_by_letter(line, is_of_shelves(header))
}

fn expected_by_letter(line: &[u8], is_of_shelves: bool) -> &'static str {
    match line {
        [b'a' | b'g', b' ', words @ ..] => expected_size(words),
        [b'r', b' ', words @ ..] => expected_position(words),
        [b'l', b' ', words @ ..] if is_of_shelves => expected_position(words),
        _ => expected_letter(line, is_of_shelves),
    }
}

/// What was expected on a line that isn't a letter with the words that it takes.
fn expected_letter(line: &[u8], is_of_shelves: bool) -> &'static str {
    match line {
        [b'l', ..] if !is_of_shelves => "an atlas of buckets knows no l",
        [b'a' | b'g'] => "a width and a height are expected behind a or g",
        [b'r' | b'l'] => "the position of a command is expected behind r or l",
        [b'c', ..] => "c, which clears, stands alone",
        [b' ', ..] => "a line doesn't begin with a space",
        _ if is_of_shelves => "a W H, r K, l K, g W H or c is expected",
        _ => "a W H, r K, g W H or c is expected",
    }
}

fn is_of_shelves(header: &[u8]) -> bool {
    matches!(header, [b'a', ..])
}

fn expected_size(words: &[u8]) -> &'static str {
    let Some((width, height)) = split_word(words) else {
        return "a width and a height are expected, one space apart";
    };
    if words_in(words) != 2 {
        return "just a width and a height are expected, one space apart";
    }
    if number_of(width).is_none() {
        return "the width is a whole number of 32 bits, in digits, also behind a -";
    }
    if number_of(height).is_none() {
        return "the height is a whole number of 32 bits, in digits, also behind a -";
    }
    "a width and a height are expected"
}

fn expected_position(words: &[u8]) -> &'static str {
    if words_in(words) != 1 {
        return "just the position of a command is expected";
    }
    if position_of(words).is_none() {
        return "the position is digits, for at most 4294967295";
    }
    "the position of a command is expected"
}
