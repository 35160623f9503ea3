//! A page for a browser, which shows the atlas after each command of a script.
//!
//! A script that runs has letters, digits, `-`, spaces and line feeds alone, and so have its replies: nothing of them has
//! to be escaped in the page.

use crate::bad_lines::bad_line;
use crate::ending::{Answer, Failure};
use crate::watch_page::{HEAD, MIDDLE, TAIL};
use etagere_run::replay;
use run_scripts::faults::{Outcome, ReplayFault};
use std::alloc::{AllocError, Global};

/// The page of a script.
pub fn watch(alloc: Global, script: &[u8]) -> Result<Answer, Failure> {
    let mut replies: Vec<u8> = Vec::new(alloc);
    // The slice can't fail to be read, and the replies only where memory runs out.
    let mut reader = script;
    let outcome = replay(alloc, &mut reader, &mut replies).map_err(|_| Failure::Fault(
        ReplayFault::Memory,
    ))?;
    match outcome {
        Outcome::Done => Ok(Answer::made(page(alloc, script, replies.as_slice())?)),
        Outcome::BadLine(number) => Err(bad_line(script, number)),
        Outcome::Options(number) => Err(Failure::Options(number)),
    }
}

/// The bytes of the whole page.
fn page(alloc: Global, script: &[u8], replies: &[u8]) -> Result<Vec<u8>, AllocError> {
    let mut bytes = Vec::new(alloc);
    for part in [
        HEAD.as_bytes(),
        script,
        MIDDLE.as_bytes(),
        replies,
        TAIL.as_bytes(),
    ] {
        bytes.extend_from_slice(part)?;
    }
    Ok(bytes)
}
