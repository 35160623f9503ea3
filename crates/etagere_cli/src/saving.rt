//! `etagere save`: the snapshot of the atlas that a script leaves.

use crate::counting::saved_of;
use run_scripts::script::Script;
use saved_json::{Saved, write_saved};
use std::alloc::{AllocError, Global};
use tool_answers::bad_lines::script_in;
use tool_answers::ending::{Answer, Failure};

/// The JSON text of the snapshot that a script leaves.
pub fn save(alloc: Global, input: &[u8]) -> Result<Answer, Failure> {
    let script = script_in(alloc, input)?;
    save_script(alloc, &script)
}

fn save_script(alloc: Global, script: &Script) -> Result<Answer, Failure> {
    let saved = saved_of(alloc, script)?;
    let bytes = saved_bytes(alloc, &saved)?;
    Ok(Answer::made(bytes))
}

fn saved_bytes(alloc: Global, saved: &Saved) -> Result<Vec<u8>, AllocError> {
    let mut bytes = write_saved(alloc, saved)?;
    bytes.push(b'\n')?;
    Ok(bytes)
}
