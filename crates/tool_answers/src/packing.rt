//! Places for a list of sizes, on as many pages as it takes.

use crate::ending::{Answer, Failure};
use crate::packing_lines::{Wanted, wanted_in};
use crate::packing_text::{json_text, plain_text};
use crate::pieces::Piece::{Count, Words};
use crate::pieces::push_pieces;
use crate::reasons::push_unplaced;
use atlas_pages::runs::{PageReply, PageRunFault, pack};
use atlas_pages::{PageChoice, PageOptions};
use etagere::{AtlasAllocator, DEFAULT_OPTIONS, Refusal, Size, size2};
use run_scripts::faults::ReplayFault;
use run_scripts::numbers::{number_of, position_of};
use run_scripts::script::ScriptFault;
use std::alloc::{AllocError, Global};

/// The places of the sizes that are wanted on the lines of an input; or which sizes have none, and why.
pub fn pack_list(
    alloc: Global,
    options: &PageOptions,
    input: &[u8],
    is_json: bool,
) -> Result<Answer, Failure> {
    let wanted = list_in(alloc, input)?;
    pack_wanted(alloc, options, wanted.as_slice(), is_json)
}

fn pack_wanted(
    alloc: Global,
    options: &PageOptions,
    wanted: &[Wanted<'_>],
    is_json: bool,
) -> Result<Answer, Failure> {
    let replies = replies_to(alloc, options, wanted)?;
    let unplaced = unplaced_text(alloc, options, wanted, replies.as_slice())?;
    if !unplaced.is_empty() {
        return Err(Failure::Unplaced(unplaced));
    }
    answer_of(alloc, options.size, wanted, replies.as_slice(), is_json)
}

fn replies_to(
    alloc: Global,
    options: &PageOptions,
    wanted: &[Wanted<'_>],
) -> Result<Vec<PageReply>, Failure> {
    let sizes: Vec<Size> = wanted.iter().map(|one| one.size).collect(alloc)?;
    replies_of(alloc, options, sizes.as_slice())
}

/// The places, where all that is wanted has one.
fn answer_of(
    alloc: Global,
    size: Size,
    wanted: &[Wanted<'_>],
    replies: &[PageReply],
    is_json: bool,
) -> Result<Answer, Failure> {
    let text = if is_json {
        json_text(alloc, size, wanted, replies)?
    } else {
        plain_text(alloc, wanted, replies)?
    };
    Ok(Answer::done(text))
}

/// What is wanted on the lines of an input.
fn list_in(alloc: Global, input: &[u8]) -> Result<Vec<Wanted<'_>>, Failure> {
    match wanted_in(alloc, input) {
        Ok(wanted) => Ok(wanted),
        Err(ScriptFault::BadLine(number)) => Err(Failure::BadLine {
            number,
            expected: "W H, W,H or NAME,W,H is expected: two whole numbers of 32 bits, and a name in UTF-8",
        }),
        Err(ScriptFault::Memory) => Err(Failure::Fault(ReplayFault::Memory)),
    }
}

/// The pages of these sides, at most so many, or any number where none is named; none where one of the words isn't a
/// number.
pub fn asked_pages(width: &str, height: &str, most: Option<&str>) -> Option<PageOptions> {
    let size = asked_size(width, height)?;
    let most_pages = asked_most(most)?;
    Some(PageOptions {
        size,
        atlas: DEFAULT_OPTIONS,
        most_pages,
        choice: PageChoice::FirstFit,
    })
}

fn asked_size(width: &str, height: &str) -> Option<Size> {
    let width = number_of(width.as_bytes())?;
    let height = number_of(height.as_bytes())?;
    Some(size2(width, height))
}

fn asked_most(most: Option<&str>) -> Option<u32> {
    match most {
        Some(number) => u32::try_from(position_of(number.as_bytes())?).ok(),
        None => Some(u32::MAX),
    }
}

/// A line for each size without a place, each but the last with a line feed: what an empty page says of it, or that no
/// more pages may be opened. The error comes too where there was no memory for one of the places.
fn unplaced_text(
    alloc: Global,
    options: &PageOptions,
    wanted: &[Wanted<'_>],
    replies: &[PageReply],
) -> Result<String, AllocError> {
    let empty = empty_page(alloc, options)?;
    unplaced_lines(alloc, &empty, wanted, replies)
}

fn unplaced_lines(
    alloc: Global,
    empty: &AtlasAllocator,
    wanted: &[Wanted<'_>],
    replies: &[PageReply],
) -> Result<String, AllocError> {
    let mut text = String::new(alloc);
    for (one, reply) in wanted.iter().zip(replies) {
        match reply {
            PageReply::NoMemory => return Err(AllocError),
            PageReply::Refused => push_line(&mut text, one, refusal_of(empty, one.size))?,
            _ => {}
        }
    }
    Ok(text)
}

/// Adds the line of a size without a place.
fn push_line(
    text: &mut String,
    one: &Wanted<'_>,
    refusal: Option<Refusal>,
) -> Result<(), AllocError> {
    let feed = if text.is_empty() { "" } else { "\n" };
    push_pieces(
        text,
        &[
            Words(feed),
            Words("line "),
            Count(u128::from(one.line)),
            Words(": "),
        ],
    )?;
    push_unplaced(text, refusal, one.size)
}

// What these calls promise ends in functions that promise nothing, so that it isn't gone through in what uses them.

fn replies_of(
    alloc: Global,
    options: &PageOptions,
    sizes: &[Size],
) -> Result<Vec<PageReply>, Failure> {
    match pack(alloc, options, sizes) {
        Ok(replies) => Ok(replies),
        Err(PageRunFault::Options(fault)) => Err(Failure::Options(fault.number())),
        Err(PageRunFault::Memory) => Err(Failure::Fault(ReplayFault::Memory)),
    }
}

fn empty_page(alloc: Global, options: &PageOptions) -> Result<AtlasAllocator, AllocError> {
    match AtlasAllocator::with_options(alloc, options.size, &options.atlas) {
        Ok(empty) => Ok(empty),
        Err(_) => Err(AllocError),
    }
}

fn refusal_of(empty: &AtlasAllocator, size: Size) -> Option<Refusal> {
    empty.refusal(size)
}
