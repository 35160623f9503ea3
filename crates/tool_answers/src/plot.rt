//! A plot of fill, live and refusals over the commands of a run, as SVG.

use crate::pieces::Piece::{Count, Words};
use crate::pieces::push_pieces;
use crate::series::Moment;
use std::alloc::{AllocError, Global};

/// How wide and how tall a curve is.
const WIDTH: u64 = 1000;

const HEIGHT: u64 = 100;

/// What a curve shows.
#[derive(Clone, Copy)]
enum Curve {
    Fill,
    Live,
    Refused,
}

impl Curve {
    fn value(self, moment: &Moment) -> u64 {
        match self {
            Curve::Fill => moment.fill(),
            Curve::Live => moment.live as u64,
            Curve::Refused => moment.refused as u64,
        }
    }

    /// The tag that begins its group, and that of its caption, with the first words.
    fn opening(self) -> &'static str {
        match self {
            Curve::Fill => {
                "<g transform=\"translate(0 0)\" stroke=\"#3d7fd6\">\n<text y=\"-8\" stroke=\"none\">fill: "
            }
            Curve::Live => {
                "<g transform=\"translate(0 140)\" stroke=\"#2c9c58\">\n<text y=\"-8\" stroke=\"none\">live: "
            }
            Curve::Refused => {
                "<g transform=\"translate(0 280)\" stroke=\"#d04a57\">\n<text y=\"-8\" stroke=\"none\">refused so far: "
            }
        }
    }

    /// The value at the top of the picture: all of the atlas, or the greatest one.
    fn top(self, moments: &[Moment]) -> u64 {
        if matches!(self, Curve::Fill) {
            return 1000;
        }
        let mut top = 1;
        for moment in moments {
            top = top.max(self.value(moment));
        }
        top
    }
}

/// The whole picture, as an SVG document.
pub fn plot_text(alloc: Global, moments: &[Moment]) -> Result<String, AllocError> {
    let mut text = String::new(alloc);
    text.push_str(HEAD)?;
    for curve in [Curve::Fill, Curve::Live, Curve::Refused] {
        push_group(&mut text, moments, curve)?;
    }
    push_foot(&mut text, last(moments).commands)?;
    Ok(text)
}

fn push_foot(text: &mut String, commands: usize) -> Result<(), AllocError> {
    push_pieces(
        text,
        &[
            Words("<text y=\"400\">0</text>\n<text x=\"1000\" y=\"400\" text-anchor=\"end\">"),
            Count(commands as u128),
            Words(" commands</text>\n</svg>\n"),
        ],
    )
}

const HEAD: &str =
    r#"<svg xmlns="http://www.w3.org/2000/svg" viewBox="-10 -30 1020 440" role="img" aria-labelledby="title">
<title id="title">Fill, live and refusals over the commands of a script</title>
<style>
svg { background: #fff; color: #1c2026; font: 16px system-ui, sans-serif; }
text { fill: currentColor; }
rect { fill: #8883; }
path { fill: none; stroke-width: 2; stroke-linejoin: round; }
@media (prefers-color-scheme: dark) { svg { background: #14171b; color: #e8ebef; } }
</style>
"#;

/// The last moment; `series_of` gives at least one.
fn last(moments: &[Moment]) -> Moment {
    match moments.last() {
        Some(moment) => *moment,
        None => Moment {
            commands: 0,
            filled: 0,
            area: 0,
            live: 0,
            refused: 0,
        },
    }
}

fn push_group(text: &mut String, moments: &[Moment], curve: Curve) -> Result<(), AllocError> {
    push_caption(text, moments, curve)?;
    push_curve(text, moments, curve)
}

/// The beginning of the group of a curve, with what is said above it.
fn push_caption(text: &mut String, moments: &[Moment], curve: Curve) -> Result<(), AllocError> {
    let value = curve.value(&last(moments));
    text.push_str(curve.opening())?;
    match curve {
        Curve::Fill => push_thousandths(text, value),
        _ => push_values(text, value, curve.top(moments)),
    }
}

fn push_thousandths(text: &mut String, value: u64) -> Result<(), AllocError> {
    push_pieces(
        text,
        &[
            Count(u128::from(value / 10)),
            Words("."),
            Count(u128::from(value % 10)),
            Words(" % at the end, 100 % at the top</text>\n"),
        ],
    )
}

fn push_values(text: &mut String, value: u64, top: u64) -> Result<(), AllocError> {
    push_pieces(
        text,
        &[
            Count(u128::from(value)),
            Words(" at the end, "),
            Count(u128::from(top)),
            Words(" at the top</text>\n"),
        ],
    )
}

/// The curve, and the end of its group.
fn push_curve(text: &mut String, moments: &[Moment], curve: Curve) -> Result<(), AllocError> {
    let top = curve.top(moments);
    let commands = last(moments).commands as u64;
    text.push_str("<rect width=\"1000\" height=\"100\" stroke=\"none\"/>\n<path d=\"")?;
    for (index, moment) in moments.iter().enumerate() {
        let x = scaled(moment.commands as u64, commands, WIDTH);
        let y = HEIGHT.saturating_sub(scaled(curve.value(moment), top, HEIGHT));
        let letter = if index == 0 { "M" } else { "L" };
        push_point(text, letter, x, y)?;
    }
    text.push_str("\"/>\n</g>\n")
}

/// A point, behind the letter that moves or draws to it.
fn push_point(text: &mut String, letter: &str, x: u64, y: u64) -> Result<(), AllocError> {
    push_pieces(
        text,
        &[
            Words(letter),
            Count(u128::from(x)),
            Words(" "),
            Count(u128::from(y)),
        ],
    )
}

/// A part of a whole, at this scale.
fn scaled(part: u64, whole: u64, scale: u64) -> u64 {
    part.saturating_mul(scale) / whole.max(1)
}
