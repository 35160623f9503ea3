//! The link from one record to another, by number.
//!
//! Definitions: `Links`. Its 16 bits are what a snapshot writes, so they don't change.

ghost use Rattle.std.specs.Prelude.{◌≡◌, ℕ, ◌<◌, Option, IfSome};
ghost use Rattle.etagere_links.specs.Links.{no_link, link_of, bits_of};

use std::marker::Model;

/// Names a record by its number, which is below 65535, or names none. It is saved as 16 bits, which are 65535
/// where it names none.
#[derive(Clone, Copy, Debug, PartialEq, Eq)]
pub struct Link {
    bits: u16,
}

impl Model for Link {
    ghost Value = { Option ℕ };

    ghost view = { λ link. link_of link.bits };

    ghost inverse = { λ link. record { bits = bits_of link } };
}

const NO_LINK: u16 = u16::MAX;

impl Link {
    /// The link that names no record.
    pub fn none() -> Link
        ensures { result ≡ None }
    {
        Link { bits: NO_LINK }
    }

    /// The link to the record of this number, which is below 65535.
    pub fn to(number: usize) -> Link
        requires { number < no_link }
        ensures { result ≡ Some number }
    {
        Link {
            bits: number as u16,
        }
    }

    /// The number of the record that the link names.
    pub fn number(self) -> Option<usize>
        ensures value { result ≡ self }
        ensures small { IfSome result (λ number. number < no_link) }
    {
        if self.bits == NO_LINK {
            None
        } else {
            Some(usize::from(self.bits))
        }
    }

    /// The link that these bits stand for: to the record of this number, or to none at 65535.
    pub fn from_bits(bits: u16) -> Link
        ensures { result ≡ link_of bits }
    {
        Link { bits }
    }

    /// The bits that stand for the link.
    pub fn bits(self) -> u16
        ensures value { result ≡ bits_of self }
        ensures link { link_of result ≡ self }
    {
        self.bits
    }
}
