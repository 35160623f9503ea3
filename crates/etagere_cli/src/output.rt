//! Where what was made goes: to standard output, or to a file, which then has all of it or is as it was.

use run_scripts::faults::ReplayFault;
use std::fs::{self, File};
use std::io::{self, Write};
use std::rt::Files;
use tool_answers::ending::Failure;

/// Where what was made goes: to the file at a path, by way of a new one beside it that has the number of this process in
/// its name; to standard output where there is no path, or it is `-`.
#[derive(Clone, Copy)]
pub struct Target<'a> {
    pub path: Option<&'a str>,
    pub process: u32,
}

/// Writes everything to where it goes.
pub fn write_to(
    rt: &(impl Files + Print + AllocGlobal),
    target: Target<'_>,
    bytes: &[u8],
) -> Result<(), Failure> {
    match target.path {
        None | Some("-") => {
            let written = io::writer(rt).write_all(bytes);
            written.map_err(|_| Failure::Fault(ReplayFault::Write))
        }
        Some(path) => write_file(rt, path, target.process, bytes),
    }
}

fn write_file(
    rt: &(impl Files + AllocGlobal),
    path: &str,
    process: u32,
    bytes: &[u8],
) -> Result<(), Failure> {
    let alloc = rt.alloc();
    let beside = format!(in alloc; "{path}.{process}.new")?;
    let written = if is_kept(rt, path) {
        fs::write(rt, path, bytes)
    } else {
        replace(rt, path, beside.as_str(), bytes)
    };
    match written {
        Ok(()) => Ok(()),
        Err(why) => Err(Failure::File(format!(in alloc; "{path}: can't be written: {why}")?)),
    }
}

/// Whether something stands at a path that no file may take the place of: a device, a pipe, a link, a folder.
fn is_kept(rt: &impl Files, path: &str) -> bool {
    match fs::symlink_metadata(rt, path) {
        Ok(found) => !found.is_file(),
        Err(_) => false,
    }
}

/// Writes to a new file, and moves it to the path once it has everything; it is removed where that fails.
fn replace(rt: &impl Files, path: &str, beside: &str, bytes: &[u8]) -> io::Result<()> {
    let moved = match write_new(rt, beside, bytes) {
        Ok(()) => fs::rename(rt, beside, path),
        Err(why) => Err(why),
    };
    if moved.is_err() {
        let _ = fs::remove_file(rt, beside);
    }
    moved
}

/// Writes to a file that wasn't there. One of its name can only be left from a process of the same number that was
/// killed, and goes.
fn write_new(rt: &impl Files, path: &str, bytes: &[u8]) -> io::Result<()> {
    let made = match File::create_new(rt, path) {
        Err(why) if why.kind() == io::ErrorKind::AlreadyExists => make_anew(rt, path),
        made => made,
    };
    made?.write_all(bytes)
}

/// A new file in the place of one that was left.
fn make_anew<F: Files>(rt: &F, path: &str) -> io::Result<F::File> {
    fs::remove_file(rt, path)?;
    File::create_new(rt, path)
}
