//! Texts that are made of words and numbers.

use std::alloc::AllocError;
use std::fmt::Write;

/// A piece of a text.
#[derive(Clone, Copy)]
pub enum Piece<'a> {
    Words(&'a str),
    Number(i32),
    Count(u128),
}

/// Adds pieces to a text, one behind another.
pub fn push_pieces(text: &mut String, pieces: &[Piece<'_>]) -> Result<(), AllocError> {
    for piece in pieces {
        match piece {
            Piece::Words(words) => text.push_str(words)?,
            Piece::Number(number) => write!(text, "{number}")?,
            Piece::Count(count) => write!(text, "{count}")?,
        }
    }
    Ok(())
}
