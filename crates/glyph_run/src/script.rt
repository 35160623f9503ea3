//! Reads a script: a header, then a command on each line with bytes, or the number of the first line that isn't good.
//!
//! Definition: `Script`. A new kind of line goes into `Words`.

ghost use Rattle.run_scripts.specs.ScriptReading.{Gives};
ghost use Rattle.glyph_run.specs.Script.{script_of};

use crate::commands::GlyphCommand;
use crate::words::{Header, header_of};
use run_scripts::lines::{blank_lines, first_line};
use run_scripts::script::{ScriptFault, commands_of};
use std::alloc::Global;
use std::marker::Model;

/// A run as a script spells it.
#[derive(Drop)]
pub struct Script {
    pub header: Header,
    pub commands: Vec<GlyphCommand>,
}

impl Model for Script {
    ghost use Rattle.glyph_run.specs.Script.{Request};
    ghost use Rattle.glyph_run.specs.Setups.{setup_in};

    ghost Value = { Request };

    ghost view = { λ script. record { setup = setup_in script.header; commands = script.commands.items } };
}

/// Reads a script: its first line with bytes is the header, each later one a command. Takes memory for the commands, and
/// one pass over the bytes.
pub fn read_script(alloc: Global, bytes: &[u8]) -> Result<Script, ScriptFault>
    ensures { Gives (λ script. script) result (script_of bytes.now) }
{
    let blanks = blank_lines(bytes);
    let (line, rest) = first_line(&bytes[blanks..]);
    let number = blanks as u64 + 1;
    let Some(header) = header_of(line) else {
        return Err(ScriptFault::BadLine(number));
    };
    let commands = commands_of(alloc, number, rest)?;
    Ok(Script { header, commands })
}
