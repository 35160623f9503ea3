//! What a picture shows: rectangles of three colours.
//!
//! Definitions: `Drawing`. Each atlas says which rectangles it draws, and in which order; `pictures` has their text.

ghost use Rattle.std.specs.Prelude.{◌≡◌};
ghost use Rattle.etagere_base.specs.Drawing as spec;

/// What a rectangle of a picture shows.
#[derive(Clone, Copy, Debug, PartialEq, Eq)]
pub enum Colour {
    /// The whole atlas.
    Background,
    /// What is allocated.
    Allocated,
    /// What is free.
    Free,
}

impl Colour {
    /// The end of a line of this colour.
    pub fn text(self) -> &'static str
        ensures { result.now ≡ spec.colour_text self }
    {
        match self {
            Colour::Background => {
                "\" fill=\"rgb(40,40,40)\" stroke=\"rgb(0,0,0)\" stroke-width=\"1\"/>\n"
            }
            Colour::Allocated => {
                "\" fill=\"rgb(70,70,180)\" stroke=\"rgb(0,0,0)\" stroke-width=\"1\"/>\n"
            }
            Colour::Free =>
                "\" fill=\"rgb(50,50,50)\" stroke=\"rgb(0,0,0)\" stroke-width=\"1\"/>\n",
        }
    }
}

/// A rectangle of a picture: where it begins and its sides, in pixels.
#[derive(Clone, Copy, Debug, PartialEq, Eq)]
pub struct Drawn {
    pub colour: Colour,
    pub x: u32,
    pub y: u32,
    pub width: u32,
    pub height: u32,
}
