//! What the words of a line stand for: a header, or a command for a cache.
//!
//! Definitions: `Words`, over `Lines` and `Words` of `run_scripts`. A new command goes into the table here, its
//! `LetteredCommand`, and into the one there.

ghost use Rattle.std.specs.Prelude.{◌≡◌, option_map};
ghost use Rattle.run_scripts.specs.Lines.{words_of};
ghost use Rattle.glyph_run.specs.Words as spec;
ghost use Rattle.glyph_run.specs.Setups.{setup_in};

use crate::commands::GlyphCommand;
use crate::keys::capacity_of;
use etagere::{AllocatorOptions, Size};
use run_scripts::lines::split_word;
use run_scripts::numbers::number_of;
use run_scripts::words::{LetteredCommand, direction_of, size_of};
use std::num::NonZeroUsize;

/// The cache of a script.
#[derive(Clone, Copy)]
pub struct Header {
    pub size: Size,
    pub options: AllocatorOptions,
    pub capacity: NonZeroUsize,
}

/// The cache of a header.
pub fn header_of(line: &[u8]) -> Option<Header>
    ensures { option_map setup_in result ≡ spec.header_of (words_of line.now) }
{
    let (name, words) = split_word(line)?;
    if name == b"cache".as_slice() {
        cache_in(words)
    } else {
        None
    }
}

/// The cache of the seven words after the name.
#[tactic(auto, using(crate::proofs::LastWord::last_words))]
fn cache_in(words: &[u8]) -> Option<Header>
    ensures { option_map setup_in result ≡ spec.cache_in (words_of words.now) }
{
    let (width, words) = split_word(words)?;
    let (height, words) = split_word(words)?;
    let (alignment_width, words) = split_word(words)?;
    let (alignment_height, words) = split_word(words)?;
    let (columns, words) = split_word(words)?;
    let (direction, capacity) = split_word(words)?;
    cache_of(
        width,
        height,
        alignment_width,
        alignment_height,
        columns,
        direction,
        capacity,
    )
}

/// The cache of these words.
fn cache_of(
    width: &[u8],
    height: &[u8],
    alignment_width: &[u8],
    alignment_height: &[u8],
    columns: &[u8],
    direction: &[u8],
    capacity: &[u8],
) -> Option<Header>
    ensures { option_map setup_in result ≡ spec.cache_of width.now height.now alignment_width.now alignment_height.now
        columns.now direction.now capacity.now }
{
    Some(Header {
        size: size_of(width, height)?,
        options: AllocatorOptions {
            alignment: size_of(alignment_width, alignment_height)?,
            vertical_shelves: direction_of(direction)?,
            num_columns: number_of(columns)?,
        },
        capacity: capacity_of(capacity)?,
    })
}

impl LetteredCommand for GlyphCommand {
    ghost use Rattle.glyph_run.specs.declared.commands.GlyphCommand.TheVariants.{Clear};

    ghost cleared = { Clear };

    ghost meaning = { spec.glyph_command_named };

    fn alone(letter: u8) -> Option<GlyphCommand> {
        match letter {
            b'f' => Some(GlyphCommand::BeginFrame),
            b'c' => Some(GlyphCommand::Clear),
            _ => None,
        }
    }

    fn with_number(letter: u8, number: u64) -> Option<GlyphCommand> {
        match letter {
            b'g' => Some(GlyphCommand::Get(number)),
            b'r' => Some(GlyphCommand::Remove(number)),
            _ => None,
        }
    }

    fn with_size(_letter: u8, _size: Size) -> Option<GlyphCommand> {
        None
    }

    fn with_number_and_size(letter: u8, number: u64, size: Size) -> Option<GlyphCommand> {
        match letter {
            b'p' => Some(GlyphCommand::Place(number, size)),
            _ => None,
        }
    }

    #[tactic(auto, using(crate::proofs::LetteredCommands::lettered_commands))]
    fn lettered() {}
}
