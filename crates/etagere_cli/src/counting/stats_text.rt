//! What is told, as text for people.

use crate::counting::heights::SameHeight;
use crate::counting::report::{Asked, Fullness, Report};
use std::alloc::{AllocError, Global};
use tool_answers::pieces::Piece::{Count, Words};
use tool_answers::pieces::push_pieces;

/// The whole text.
pub fn plain_text(alloc: Global, report: &Report) -> Result<String, AllocError> {
    let mut text = String::new(alloc);
    if let Some(asked) = &report.asked {
        push_asked(&mut text, asked)?;
    }
    push_fill(&mut text, &report.fullness)?;
    if let Some(asked) = &report.asked {
        push_rounding(&mut text, &report.fullness, asked)?;
    }
    push_shelves(&mut text, report)?;
    push_free(&mut text, &report.fullness)?;
    Ok(text)
}

fn push_asked(text: &mut String, asked: &Asked) -> Result<(), AllocError> {
    let tally = &asked.tally;
    push_pieces(
        text,
        &[
            Words("allocations   "),
            Count(tally.allocations as u128),
            Words(", of which "),
            Count(tally.refused as u128),
            Words(" were refused\nreturns       "),
            Count(tally.returns as u128),
            Words("\nlooks         "),
            Count(tally.looks as u128),
            Words("\ngrows         "),
            Count(tally.grows as u128),
            Words(", of which "),
            Count(tally.grows_refused as u128),
            Words(" were refused\nclears        "),
            Count(tally.clears as u128),
            Words("\nnot live      "),
            Count(tally.not_live as u128),
            Words(" returns and looks\nlive          "),
            Count(tally.live.now as u128),
            Words(" at the end, "),
            Count(tally.live.most as u128),
            Words(" at most\n"),
        ],
    )
}

/// How many thousandths of a whole a part is.
pub fn thousandths(part: u128, whole: u128) -> u128 {
    if whole == 0 {
        return 0;
    }
    part.saturating_mul(1000) / whole
}

/// A side or area that isn't below 0.
pub fn natural(number: i32) -> u128 {
    u128::from(number.unsigned_abs())
}

fn push_fill(text: &mut String, fullness: &Fullness) -> Result<(), AllocError> {
    let allocated = natural(fullness.allocated);
    let area = allocated.saturating_add(natural(fullness.free));
    let fill = thousandths(allocated, area);
    push_pieces(
        text,
        &[
            Words("fill          "),
            Count(fill / 10),
            Words("."),
            Count(fill % 10),
            Words(" %, "),
            Count(allocated),
            Words(" of "),
            Count(area),
            Words(" pixels\n"),
        ],
    )
}

fn push_rounding(text: &mut String, fullness: &Fullness, asked: &Asked) -> Result<(), AllocError> {
    let allocated = natural(fullness.allocated);
    let wasted = allocated.saturating_sub(asked.space);
    let share = thousandths(wasted, allocated);
    push_pieces(
        text,
        &[
            Words("not asked for "),
            Count(share / 10),
            Words("."),
            Count(share % 10),
            Words(" % of that, "),
            Count(wasted),
            Words(" pixels\n"),
        ],
    )
}

fn push_shelves(text: &mut String, report: &Report) -> Result<(), AllocError> {
    push_pieces(
        text,
        &[
            Words("shelves       "),
            Count(u128::from(report.fullness.shelves)),
            Words(", of which "),
            Count(u128::from(report.fullness.idle_shelves)),
            Words(" are empty\n"),
        ],
    )?;
    push_heights(text, report.heights.as_slice())
}

fn push_heights(text: &mut String, heights: &[SameHeight]) -> Result<(), AllocError> {
    for same in heights {
        push_height(text, *same)?;
    }
    Ok(())
}

fn push_height(text: &mut String, same: SameHeight) -> Result<(), AllocError> {
    push_pieces(
        text,
        &[
            Words("  "),
            Count(u128::from(same.height)),
            Words(" tall: "),
            Count(same.shelves as u128),
            Words("\n"),
        ],
    )
}

fn push_free(text: &mut String, fullness: &Fullness) -> Result<(), AllocError> {
    let name = if fullness.is_bucketed {
        "\nidle buckets  "
    } else {
        "\nfree items    "
    };
    let largest = fullness.largest_free;
    push_pieces(
        text,
        &[
            Words("items         "),
            Count(u128::from(fullness.items)),
            Words(name),
            Count(u128::from(fullness.idle_parts)),
            Words("\nlargest free  "),
            Count(natural(largest.width)),
            Words("x"),
            Count(natural(largest.height)),
            Words("\n"),
        ],
    )
}
