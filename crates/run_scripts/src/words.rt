//! What the words of a line stand for: a header, or a command for an atlas of one kind.
//!
//! Definitions: `Words`, over `Lines` and `Numbers`. A new command goes into the table of its atlas here and there: here that
//! is its `LetteredCommand`, by which lines are read in one pass and word by word.

ghost use Rattle.std.specs.Prelude.{◌≡◌, ◌≢◌, ℕ, List, [], ◌∷◌, Option, IfNone, IfSome, length};
ghost use Rattle.run_scripts.specs.Lines.{words_of};
ghost use Rattle.run_scripts.specs.Words as spec;
ghost use Rattle.run_scripts.specs.Private.Arguments.{AreLettered, IsSpelled, Nothing, Number, NumberAndSize, Sized};

use crate::commands::{AtlasCommand, BucketedCommand};
use crate::lines::split_word;
use crate::numbers::{natural_of, number_of, position};
use etagere_base::{AllocatorOptions, Size};

/// What kind of atlas a script is for.
#[derive(Clone, Copy, Debug, PartialEq, Eq)]
pub enum AtlasKind {
    /// An atlas of shelves.
    Shelves,
    /// An atlas of buckets.
    Buckets,
}

/// The atlas of a script.
#[derive(Clone, Copy)]
pub struct Header {
    pub kind: AtlasKind,
    pub size: Size,
    pub options: AllocatorOptions,
}

/// The atlas of a header.
pub fn header_of(line: &[u8]) -> Option<Header>
    ensures { result ≡ spec.header_of (words_of line.now) }
{
    let (name, words) = split_word(line)?;
    atlas_in(kind_of(name)?, words)
}

fn kind_of(name: &[u8]) -> Option<AtlasKind>
    ensures { result ≡ spec.kind_of name.now }
{
    if name == b"atlas".as_slice() {
        Some(AtlasKind::Shelves)
    } else if name == b"bucketed".as_slice() {
        Some(AtlasKind::Buckets)
    } else {
        None
    }
}

/// The atlas of the six words after the name of its kind.
#[tactic(auto, using(crate::proofs::LastWord::last_words))]
fn atlas_in(kind: AtlasKind, words: &[u8]) -> Option<Header>
    ensures { result ≡ spec.atlas_in kind (words_of words.now) }
{
    let (width, words) = split_word(words)?;
    let (height, words) = split_word(words)?;
    let (alignment_width, words) = split_word(words)?;
    let (alignment_height, words) = split_word(words)?;
    let (columns, direction) = split_word(words)?;
    Some(Header {
        kind,
        size: size_of(width, height)?,
        options: AllocatorOptions {
            alignment: size_of(alignment_width, alignment_height)?,
            vertical_shelves: direction_of(direction)?,
            num_columns: number_of(columns)?,
        },
    })
}

/// Whether shelves are vertical, as a word tells: `v` for vertical ones, `h` for horizontal ones.
pub fn direction_of(direction: &[u8]) -> Option<bool>
    ensures { result ≡ spec.direction_of direction.now }
{
    match direction {
        b"h" => Some(false),
        b"v" => Some(true),
        _ => None,
    }
}

/// The commands for one kind of atlas, as lines spell them: each is a letter, and what may stand behind one.
///
/// This is the table of the commands: in one pass and word by word, lines are read by it alone.
pub trait LetteredCommand: Copy {
    ghost cleared: { Self };

    ghost meaning: { List ℕ → List (List ℕ) → Option Self };

    /// The command of a letter alone.
    fn alone(letter: u8) -> Option<Self>
        ensures { IsSpelled cleared meaning letter Nothing result };

    /// The command of a letter and a number.
    fn with_number(letter: u8, number: u64) -> Option<Self>
        ensures { IsSpelled cleared meaning letter (Number number) result };

    /// The command of a letter and a size.
    fn with_size(letter: u8, size: Size) -> Option<Self>
        ensures { IsSpelled cleared meaning letter (Sized size) result };

    /// The command of a letter, a number and a size.
    fn with_number_and_size(letter: u8, number: u64, size: Size) -> Option<Self>
        ensures { IsSpelled cleared meaning letter (NumberAndSize number size) result };

    /// Does nothing: there is no command but of a letter and what may stand behind one.
    fn lettered()
        ensures { AreLettered cleared meaning };
}

/// The command that a line spells.
pub fn command_of<C: LetteredCommand>(line: &[u8]) -> Option<C>
    ensures { result ≡ spec.command_of C.cleared C.meaning (words_of line.now) }
{
    C::lettered();
    match split_word(line) {
        Some((name, words)) => command_with(letter_of(name)?, words),
        None => C::alone(letter_of(line)?),
    }
}

/// The letter that a name is, if it is one.
fn letter_of(name: &[u8]) -> Option<u8>
    ensures letter { IfSome result (λ letter. name.now ≡ letter ∷ []) }
    ensures none { IfNone result (length name.now ≢ 1) }
{
    match name {
        [letter] => Some(*letter),
        _ => None,
    }
}

/// The command of a letter and the words behind it.
fn command_with<C: LetteredCommand>(letter: u8, words: &[u8]) -> Option<C>
    ensures { result ≡ spec.command_of C.cleared C.meaning ((letter ∷ []) ∷ words_of words.now) }
{
    C::lettered();
    let Some((first, words)) = split_word(words) else {
        return C::with_number(letter, natural_of(words)?);
    };
    match split_word(words) {
        Some((width, height)) => {
            let number = natural_of(first)?;
            C::with_number_and_size(letter, number, size_of(width, height)?)
        }
        None => C::with_size(letter, size_of(first, words)?),
    }
}

impl LetteredCommand for AtlasCommand {
    ghost use Rattle.run_scripts.specs.declared.commands.AtlasCommand.TheVariants.{Clear};

    ghost cleared = { Clear };

    ghost meaning = { spec.atlas_command_named };

    fn alone(letter: u8) -> Option<AtlasCommand> {
        match letter {
            b'c' => Some(AtlasCommand::Clear),
            _ => None,
        }
    }

    fn with_number(letter: u8, number: u64) -> Option<AtlasCommand> {
        match letter {
            b'r' => Some(AtlasCommand::Return(position(number)?)),
            b'l' => Some(AtlasCommand::Look(position(number)?)),
            _ => None,
        }
    }

    fn with_size(letter: u8, size: Size) -> Option<AtlasCommand> {
        match letter {
            b'a' => Some(AtlasCommand::Allocate(size)),
            b'g' => Some(AtlasCommand::Grow(size)),
            _ => None,
        }
    }

    fn with_number_and_size(_letter: u8, _number: u64, _size: Size) -> Option<AtlasCommand> {
        None
    }

    #[tactic(auto, using(crate::proofs::LetteredCommands::lettered_commands))]
    fn lettered() {}
}

impl LetteredCommand for BucketedCommand {
    ghost use Rattle.run_scripts.specs.declared.commands.BucketedCommand.TheVariants.{Clear};

    ghost cleared = { Clear };

    ghost meaning = { spec.bucketed_command_named };

    fn alone(letter: u8) -> Option<BucketedCommand> {
        match letter {
            b'c' => Some(BucketedCommand::Clear),
            _ => None,
        }
    }

    fn with_number(letter: u8, number: u64) -> Option<BucketedCommand> {
        match letter {
            b'r' => Some(BucketedCommand::Return(position(number)?)),
            _ => None,
        }
    }

    fn with_size(letter: u8, size: Size) -> Option<BucketedCommand> {
        match letter {
            b'a' => Some(BucketedCommand::Allocate(size)),
            b'g' => Some(BucketedCommand::Grow(size)),
            _ => None,
        }
    }

    fn with_number_and_size(_letter: u8, _number: u64, _size: Size) -> Option<BucketedCommand> {
        None
    }

    #[tactic(auto, using(crate::proofs::LetteredCommands::lettered_commands))]
    fn lettered() {}
}

/// The size that a word for the width and one for the height spell.
pub fn size_of(width: &[u8], height: &[u8]) -> Option<Size>
    ensures { result ≡ spec.size_of width.now height.now }
{
    Some(Size {
        width: number_of(width)?,
        height: number_of(height)?,
    })
}
