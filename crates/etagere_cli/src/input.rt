//! What the program reads: a file or standard input, and whether that is a script or a snapshot.

use crate::progress::Progress;
use clap::ArgMatches;
use std::alloc::{AllocError, Global};
use std::fs;
use std::io::{self, Read};
use std::rt::{Clock, Files};
use tool_answers::ending::Failure;

/// How many bytes are asked of a reader at once.
const CHUNK: usize = 4096;

/// All that the file which an argument names has, or standard input where none is named, or `-` is.
pub fn read_named<R: Clock + Eprint>(
    rt: &(impl Files + Input + AllocGlobal),
    matches: &ArgMatches<'_>,
    name: &str,
    progress: &mut Progress<'_, R>,
) -> Result<Vec<u8>, Failure> {
    match matches.get_str(name) {
        None | Some("-") => read_all(rt.alloc(), &mut rt.reader(), progress),
        Some(path) => read_file(rt, path, progress),
    }
}

fn read_file<R: Clock + Eprint>(
    rt: &(impl Files + AllocGlobal),
    path: &str,
    progress: &mut Progress<'_, R>,
) -> Result<Vec<u8>, Failure> {
    match fs::open(rt, path) {
        Ok(mut file) => read_all(rt.alloc(), &mut file, progress),
        Err(why) => Err(unopened(rt.alloc(), path, why)?),
    }
}

/// Why there is no answer, where a file can't be opened.
fn unopened(alloc: Global, path: &str, why: io::Error) -> Result<Failure, AllocError> {
    let text = format!(in alloc; "{path}: can't be opened: {why}")?;
    Ok(Failure::File(text))
}

/// All that a reader has.
fn read_all<R: Clock + Eprint>(
    alloc: Global,
    reader: &mut impl Read,
    progress: &mut Progress<'_, R>,
) -> Result<Vec<u8>, Failure> {
    let mut input = Vec::new(alloc);
    let mut buffer = [0u8; CHUNK];
    for _ in 0..u64::MAX {
        let count = reader.read(&mut buffer)?;
        if count == 0 {
            break;
        }
        input.extend_from_slice(&buffer[..count])?;
        progress.count(&buffer[..count]);
    }
    progress.run();
    Ok(input)
}

/// The text of a snapshot, where the input is one: it begins with `{`, behind white space and a byte order mark.
pub fn snapshot_text(input: &[u8]) -> Option<&[u8]> {
    let text = match input {
        [0xef, 0xbb, 0xbf, rest @ ..] => rest,
        _ => input,
    };
    let blanks = text
        .iter()
        .take_while(|byte| matches!(**byte, b' ' | b'\t' | b'\r' | b'\n'))
        .count();
    match &text[blanks..] {
        [b'{', ..] => Some(&text[blanks..]),
        _ => None,
    }
}
