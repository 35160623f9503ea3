//! Where the lines of a script are.

use run_scripts::lines::first_line;
use std::alloc::{AllocError, Global};

/// The numbers, from 1, of the lines with bytes: that of the header, and then those of the commands.
pub fn line_numbers(alloc: Global, script: &[u8]) -> Result<Vec<usize>, AllocError> {
    let mut numbers = Vec::new(alloc);
    let mut rest = script;
    for before in 0..script.len() {
        if rest.is_empty() {
            break;
        }
        let (line, after) = first_line(rest);
        if !line.is_empty() {
            numbers.push(before + 1)?;
        }
        rest = after;
    }
    Ok(numbers)
}

/// The number of the line of the command at a position; 0 where there is none.
pub fn line_of_command(numbers: &[usize], position: usize) -> usize {
    match numbers.get(position.saturating_add(1)) {
        Some(number) => *number,
        None => 0,
    }
}

/// The line of this number, from 1; no bytes where there is none.
pub fn line_at(script: &[u8], number: u64) -> &[u8] {
    let mut rest = script;
    for _ in 1..number {
        if rest.is_empty() {
            break;
        }
        rest = first_line(rest).1;
    }
    first_line(rest).0
}

/// The first line with bytes; none where there is none.
pub fn header_line(script: &[u8]) -> &[u8] {
    let mut rest = script;
    for _ in 0..script.len() {
        let (line, after) = first_line(rest);
        if !line.is_empty() {
            return line;
        }
        rest = after;
    }
    &[]
}
