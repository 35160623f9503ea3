//! Of each shelf a width that no more than one of its free items passes. Where that one goes, the width tells how wide the
//! others are, which no search has to find out.
//!
//! Definition: `SecondWidths`, by the numbers of shelf records. What they are kept for is `SecondWidths` of `shelf_store`.

ghost use Rattle.std.specs.Prelude.{◌≡◌, ◌≤◌, ℕ, IfOk, OnOk, length, max, min, set};
ghost use Rattle.shelf_notes.specs.Private.SecondWidths.{second_at, second_freed};

use std::alloc::{AllocError, Global};
use std::marker::Model;

/// What is kept of a shelf of which nothing is known: no item is wider.
const UNKNOWN: u16 = u16::MAX;

/// The widths of shelves, by the numbers of their records.
#[derive(Drop)]
pub struct SecondWidths {
    widths: Vec<u16>,
}

impl Model for SecondWidths {
    ghost use Rattle.std.specs.Prelude.{ℕ, List};

    ghost Value = { List ℕ };

    ghost view = { λ seconds. seconds.widths.items };
}

impl SecondWidths {
    /// Of so many shelves, of which nothing is known.
    pub fn with_room(alloc: Global, room: usize) -> Result<SecondWidths, AllocError>
        ensures unknown { IfOk result (λ seconds. (k : ℕ) → second_at seconds k ≡ 65535) }
        ensures room { IfOk result (λ seconds. room ≤ length seconds) }
    {
        let mut widths = Vec::new(alloc);
        widths.resize(room, UNKNOWN)?;
        Ok(SecondWidths { widths })
    }

    /// Makes room for so many shelves in all.
    pub fn reserve(&mut self, room: usize) -> Result<(), AllocError>
        ensures kept { (k : ℕ) → second_at self.new k ≡ second_at self.old k }
        ensures room { OnOk result (room ≤ length self.new) }
    {
        if self.widths.len() < room {
            self.widths.resize(room, UNKNOWN)?;
        }
        Ok(())
    }

    /// Equal widths that share nothing with these.
    pub fn copied(&self) -> Result<SecondWidths, AllocError>
        ensures { IfOk result (λ seconds. seconds ≡ self.now) }
    {
        Ok(SecondWidths {
            widths: self.widths.clone()?,
        })
    }

    /// A width that no more than one free item of a shelf passes.
    pub fn second(&self, shelf: usize) -> u16
        ensures { result ≡ second_at self.now shelf }
    {
        if shelf < self.widths.len() {
            self.widths[shelf]
        } else {
            UNKNOWN
        }
    }

    /// Raises the width of a shelf to this one, where it is less, so that an item as wide that became free doesn't pass it.
    pub fn raise(&mut self, shelf: usize, width: u16)
        ensures { self.new ≡ set self.old shelf (max (second_at self.old shelf) width) }
    {
        if shelf < self.widths.len() {
            let second = &mut self.widths[shelf];
            *second = (*second).max(width);
        }
    }

    /// Keeps another width of a shelf of which this was the bound, where an item as wide as this became free.
    pub fn follow_return(&mut self, shelf: usize, width: u16, bound: u16)
        ensures { self.new ≡ set self.old shelf (second_freed bound width (second_at self.old shelf)) }
    {
        if shelf < self.widths.len() {
            let second = &mut self.widths[shelf];
            *second = if bound < width {
                bound
            } else {
                (*second).max(width)
            };
        }
    }

    /// Forgets all that was known. Room for so many shelves stays.
    pub fn restart(&mut self, count: usize)
        ensures unknown { (k : ℕ) → second_at self.new k ≡ 65535 }
        ensures room { length self.new ≡ min count (length self.old) }
    {
        self.widths.truncate(count);
        self.widths.fill(UNKNOWN);
    }
}
