//! The place of each size of a list, as text for people or JSON for programs.

use crate::packing_lines::Wanted;
use crate::pieces::Piece::{Count, Number, Words};
use crate::pieces::push_pieces;
use atlas_pages::PagedAllocation;
use atlas_pages::runs::PageReply;
use etagere::Size;
use std::alloc::{AllocError, Global};
use std::fmt::Write;

/// A line for each size: its page, its first corner, what was asked for, and its name if it has one.
pub fn plain_text(
    alloc: Global,
    wanted: &[Wanted<'_>],
    replies: &[PageReply],
) -> Result<String, AllocError> {
    let mut text = String::new(alloc);
    for (one, reply) in wanted.iter().zip(replies) {
        if let PageReply::Placed(paged) = reply {
            push_line(&mut text, one, paged)?;
        }
    }
    Ok(text)
}

fn push_line(
    text: &mut String,
    one: &Wanted<'_>,
    paged: &PagedAllocation,
) -> Result<(), AllocError> {
    let corner = paged.allocation.rectangle.min;
    let space = if one.name.is_empty() { "" } else { " " };
    push_pieces(
        text,
        &[
            Count(u128::from(paged.page)),
            Words(" "),
            Number(corner.x),
            Words(" "),
            Number(corner.y),
            Words(" "),
            Number(one.size.width),
            Words(" "),
            Number(one.size.height),
            Words(space),
            Words(one.name),
            Words("\n"),
        ],
    )
}

/// One object on one line: the size of a page, how many there are, and the places.
pub fn json_text(
    alloc: Global,
    page: Size,
    wanted: &[Wanted<'_>],
    replies: &[PageReply],
) -> Result<String, AllocError> {
    let mut text = String::new(alloc);
    push_head(&mut text, page, count_pages(replies))?;
    push_places(&mut text, wanted, replies)?;
    text.push_str("]}\n")?;
    Ok(text)
}

fn push_head(text: &mut String, page: Size, pages: u64) -> Result<(), AllocError> {
    push_pieces(
        text,
        &[
            Words("{\"width\":"),
            Number(page.width),
            Words(",\"height\":"),
            Number(page.height),
            Words(",\"pages\":"),
            Count(u128::from(pages)),
            Words(",\"places\":["),
        ],
    )
}

fn push_places(
    text: &mut String,
    wanted: &[Wanted<'_>],
    replies: &[PageReply],
) -> Result<(), AllocError> {
    for (index, (one, reply)) in wanted.iter().zip(replies).enumerate() {
        push_place(text, index, one, reply)?;
    }
    Ok(())
}

/// Adds the place at an index, where there is one.
fn push_place(
    text: &mut String,
    index: usize,
    one: &Wanted<'_>,
    reply: &PageReply,
) -> Result<(), AllocError> {
    let PageReply::Placed(paged) = reply else {
        return Ok(());
    };
    text.push_str(if index == 0 { "{" } else { ",{" })?;
    push_object(text, one, paged)
}

fn count_pages(replies: &[PageReply]) -> u64 {
    let mut pages = 0u64;
    for reply in replies {
        if let PageReply::Placed(paged) = reply {
            pages = pages.max(u64::from(paged.page) + 1);
        }
    }
    pages
}

fn push_object(
    text: &mut String,
    one: &Wanted<'_>,
    paged: &PagedAllocation,
) -> Result<(), AllocError> {
    if !one.name.is_empty() {
        text.push_str("\"name\":\"")?;
        push_escaped(text, one.name)?;
        text.push_str("\",")?;
    }
    let corner = paged.allocation.rectangle.min;
    push_pieces(
        text,
        &[
            Words("\"page\":"),
            Count(u128::from(paged.page)),
            Words(",\"x\":"),
            Number(corner.x),
            Words(",\"y\":"),
            Number(corner.y),
            Words(",\"width\":"),
            Number(one.size.width),
            Words(",\"height\":"),
            Number(one.size.height),
            Words("}"),
        ],
    )
}

/// The characters of a name within a string of JSON.
fn push_escaped(text: &mut String, name: &str) -> Result<(), AllocError> {
    for letter in name.chars() {
        push_letter(text, letter)?;
    }
    Ok(())
}

fn push_letter(text: &mut String, letter: char) -> Result<(), AllocError> {
    match letter {
        '"' => text.push_str("\\\""),
        '\\' => text.push_str("\\\\"),
        '\0'..='\x1f' => write!(text, "\\u{:04x}", letter as u32),
        _ => text.push(letter),
    }
}
