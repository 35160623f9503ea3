//! All that is found out of the place of a size, for those who take it.
//!
//! Definitions: `Placement` of `Choice`. What is split and how much is given is decided once, in
//! `choosing`; what is found out beside that gets a field here.

ghost use Rattle.std.specs.Prelude.{◌≡◌, ◌+◌, ◌≤◌};
ghost use Rattle.etagere_base.specs.Frames.{longest_side};
ghost use Rattle.shelf_model.specs.Choice as choice;
ghost use Rattle.shelf_model.specs.Choice.{rectangle_of_placement};

use etagere_base::{Frame, Rectangle, rectangle_at};
use std::marker::Model;

/// All that was found out of the place of a size: the numbers of the records of its shelf and its item, where they
/// begin, the width and the height that are given, and which of the two is split for it.
#[derive(Clone, Copy)]
pub struct Placement {
    pub shelf: usize,
    pub item: usize,
    pub along: u32,
    pub across: u32,
    pub width: u32,
    pub height: u32,
    pub splits_shelf: bool,
    pub splits_item: bool,
}

impl Model for Placement {
    ghost use Rattle.shelf_model.specs.Choice.{Placement};

    ghost Value = { Placement };

    ghost view = { λ placement. record {
      shelf = placement.shelf;
      item = placement.item;
      along = placement.along;
      across = placement.across;
      width = placement.width;
      height = placement.height;
      splits_shelf = placement.splits_shelf;
      splits_item = placement.splits_item;
    } };

    ghost inverse = { λ placement. record {
      shelf = placement.shelf;
      item = placement.item;
      along = placement.along;
      across = placement.across;
      width = placement.width;
      height = placement.height;
      splits_shelf = placement.splits_shelf;
      splits_item = placement.splits_item;
    } };
}

impl Placement {
    /// The rectangle that is given.
    pub fn rectangle(&self, frame: &Frame) -> Rectangle
        requires right { self.now.along + self.now.width ≤ longest_side }
        requires bottom { self.now.across + self.now.height ≤ longest_side }
        ensures { result ≡ rectangle_of_placement frame.now self.now }
    {
        rectangle_at(frame, self.along, self.across, self.width, self.height)
    }

    /// The area that is given.
    pub fn area(&self) -> u32
        requires { (self.now.width ≤ longest_side) × (self.now.height ≤ longest_side) }
        ensures { result ≡ choice.area self.now }
    {
        self.width * self.height
    }

    /// How many splits there are.
    pub fn splits(&self) -> u32
        ensures value { result ≡ choice.splits self.now }
        ensures few { result ≤ 2 }
    {
        u32::from(self.splits_shelf) + u32::from(self.splits_item)
    }
}
