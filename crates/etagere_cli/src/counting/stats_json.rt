//! What is told, as JSON for programs: one object on one line.

use crate::counting::heights::SameHeight;
use crate::counting::report::{Asked, Fullness, Report};
use crate::counting::stats_text::natural;
use std::alloc::{AllocError, Global};
use tool_answers::pieces::Piece::{Count, Words};
use tool_answers::pieces::push_pieces;

/// The whole text.
pub fn json_text(alloc: Global, report: &Report) -> Result<String, AllocError> {
    let mut text = String::new(alloc);
    text.push_str("{")?;
    if let Some(asked) = &report.asked {
        push_asked(&mut text, asked)?;
    }
    push_fullness(&mut text, &report.fullness)?;
    push_heights(&mut text, report)?;
    text.push_str("}\n")?;
    Ok(text)
}

/// Adds counts with their names.
fn push_counts(text: &mut String, counts: &[(&str, u128)]) -> Result<(), AllocError> {
    for (name, count) in counts {
        push_count(text, name, *count)?;
    }
    Ok(())
}

fn push_count(text: &mut String, name: &str, count: u128) -> Result<(), AllocError> {
    push_pieces(
        text,
        &[
            Words("\""),
            Words(name),
            Words("\":"),
            Count(count),
            Words(","),
        ],
    )
}

fn push_asked(text: &mut String, asked: &Asked) -> Result<(), AllocError> {
    let tally = &asked.tally;
    push_counts(
        text,
        &[
            ("allocations", tally.allocations as u128),
            ("refused", tally.refused as u128),
            ("returns", tally.returns as u128),
            ("looks", tally.looks as u128),
            ("grows", tally.grows as u128),
            ("grows_refused", tally.grows_refused as u128),
            ("clears", tally.clears as u128),
            ("not_live", tally.not_live as u128),
            ("no_memory", tally.no_memory as u128),
            ("live", tally.live.now as u128),
            ("most_live", tally.live.most as u128),
            ("asked_pixels", asked.space),
        ],
    )
}

fn push_fullness(text: &mut String, fullness: &Fullness) -> Result<(), AllocError> {
    let parts = if fullness.is_bucketed {
        "idle_buckets"
    } else {
        "free_items"
    };
    let largest = fullness.largest_free;
    push_counts(
        text,
        &[
            ("allocated_pixels", natural(fullness.allocated)),
            ("free_pixels", natural(fullness.free)),
            ("items", u128::from(fullness.items)),
            (parts, u128::from(fullness.idle_parts)),
            ("largest_free_width", natural(largest.width)),
            ("largest_free_height", natural(largest.height)),
            ("shelves", u128::from(fullness.shelves)),
            ("empty_shelves", u128::from(fullness.idle_shelves)),
        ],
    )
}

fn push_heights(text: &mut String, report: &Report) -> Result<(), AllocError> {
    text.push_str("\"heights\":[")?;
    for (index, same) in report.heights.iter().enumerate() {
        let opening = if index == 0 { "[" } else { ",[" };
        push_height(text, opening, *same)?;
    }
    text.push_str("]")
}

fn push_height(text: &mut String, opening: &str, same: SameHeight) -> Result<(), AllocError> {
    push_pieces(
        text,
        &[
            Words(opening),
            Count(u128::from(same.height)),
            Words(","),
            Count(same.shelves as u128),
            Words("]"),
        ],
    )
}
