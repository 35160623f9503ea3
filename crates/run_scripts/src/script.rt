//! Reads a script: a header, then a command on each line with bytes, or the number of the first
//! line that isn't good.
//!
//! Definitions: `Script`, over `Lines` and `Words`; what reading answers is `ScriptReading`. A new kind of line goes into
//! `Words`.

ghost use Rattle.std.specs.Prelude.{◌≡◌, ◌<◌, ◌+◌, ◌^◌, length};
ghost use Rattle.run_scripts.specs.Lines.{filled_from, lines_of};
ghost use Rattle.run_scripts.specs.Script as spec;
ghost use Rattle.run_scripts.specs.Script.{script_of};
ghost use Rattle.run_scripts.specs.ScriptReading.{Gives, commands_in};
ghost use Rattle.run_scripts.specs.Words as words;

use crate::commands::{AtlasCommand, BucketedCommand};
use crate::lines::{blank_lines, first_line, line_feeds};
use crate::plain_lines::plain_command;
use crate::words::{AtlasKind, LetteredCommand, command_of, header_of};
use etagere_base::{AllocatorOptions, Size};
use std::alloc::Global;
use std::marker::Model;

/// A run as a script spells it.
#[derive(Drop)]
pub struct Script {
    pub size: Size,
    pub options: AllocatorOptions,
    pub commands: Commands,
}

impl Model for Script {
    ghost use Rattle.run_scripts.specs.Script.{Request};
    ghost use Rattle.run_scripts.specs.ScriptReading.{commands_in};

    ghost Value = { Request };

    ghost view = { λ script. record {
      size = script.size;
      options = script.options;
      commands = commands_in script.commands;
    } };
}

/// The commands of a script, by the atlas that they are for.
#[derive(Drop)]
pub enum Commands {
    OfShelves(Vec<AtlasCommand>),
    OfBuckets(Vec<BucketedCommand>),
}

/// Why a script isn't read.
#[derive(Clone, Copy, Debug, PartialEq, Eq)]
pub enum ScriptFault {
    /// The line of this number, from 1, is the first that isn't good.
    BadLine(u64),
    /// There was no memory for the commands.
    Memory,
}

/// Reads a script: its first line with bytes is the header, each later one a command. Takes memory
/// for a command a line, at once, and two passes over the bytes.
pub fn read_script(alloc: Global, bytes: &[u8]) -> Result<Script, ScriptFault>
    ensures { Gives (λ script. script) result (script_of bytes.now) }
{
    let blanks = blank_lines(bytes);
    let (line, rest) = first_line(&bytes[blanks..]);
    let number = blanks as u64 + 1;
    let Some(header) = header_of(line) else {
        return Err(ScriptFault::BadLine(number));
    };
    let commands = commands_to(alloc, header.kind, number, rest)?;
    Ok(Script {
        size: header.size,
        options: header.options,
        commands,
    })
}

/// The commands of the lines after line number `before`, for an atlas of a kind.
fn commands_to(
    alloc: Global,
    kind: AtlasKind,
    before: u64,
    bytes: &[u8],
) -> Result<Commands, ScriptFault>
    requires { before + length bytes.now < 2 ^ 64 }
    ensures { Gives commands_in result
        (spec.commands_to kind (filled_from (before + 1) (lines_of bytes.now))) }
{
    Ok(match kind {
        AtlasKind::Shelves => Commands::OfShelves(commands_of(alloc, before, bytes)?),
        AtlasKind::Buckets => Commands::OfBuckets(commands_of(alloc, before, bytes)?),
    })
}

/// The commands of the lines after line number `before`. Takes memory for a command a line, at once, and two passes over
/// the bytes. That there is room is tested for each line, though it always is: so nothing here has the vector grow, and
/// its length needn't be in memory. Never inlined: it has the processor's registers to itself.
#[inline(never)]
pub fn commands_of<C: LetteredCommand>(
    alloc: Global,
    before: u64,
    bytes: &[u8],
) -> Result<Vec<C>, ScriptFault>
    requires { before + length bytes.now < 2 ^ 64 }
    ensures { Gives (λ commands. commands.items) result
        (spec.commands_of (words.command_of C.cleared C.meaning)
        (filled_from (before + 1) (lines_of bytes.now))) }
{
    let Ok(mut commands) = Vec::with_capacity(alloc, line_feeds(bytes) + 1) else {
        return Err(ScriptFault::Memory);
    };
    let mut number = before;
    let mut rest = bytes;
    while !rest.is_empty() {
        number += 1;
        if commands.len() == commands.capacity() {
            return Err(ScriptFault::Memory);
        }
        if let Some((command, after)) = plain_command(rest) {
            commands.push_reserved(command);
            rest = after;
            continue;
        }
        let (line, after) = first_line(rest);
        if !line.is_empty() {
            let Some(command) = command_of(line) else {
                return Err(ScriptFault::BadLine(number));
            };
            commands.push_reserved(command);
        }
        rest = after;
    }
    Ok(commands)
}
