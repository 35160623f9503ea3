//! `etagere resume`: goes on from a snapshot of a shelf atlas.

use crate::input::snapshot_text;
use etagere::{Allocation, AtlasSnapshot};
use run_scripts::commands::Reply;
use run_scripts::reply_text::line_of;
use run_scripts::short_text::ShortText;
use saved_json::{Saved, read_saved};
use std::alloc::{AllocError, Global};
use tool_answers::bad_lines::commands_in;
use tool_answers::ending::{Answer, Failure};
use tool_answers::pieces::Piece::{Count, Number, Words};
use tool_answers::pieces::push_pieces;
use traffic::resuming::{Resumed, resume_atlas};

/// The replies to the commands of an input, which go on from a snapshot.
pub fn resume(
    alloc: Global,
    snapshot: AtlasSnapshot,
    input: &[u8],
    lists_live: bool,
) -> Result<Answer, Failure> {
    let commands = commands_in(alloc, input)?;
    let resumed = resume_atlas(alloc, snapshot, commands.as_slice())?;
    let bytes = resumed_bytes(alloc, &resumed, lists_live)?;
    Ok(Answer::made(bytes))
}

/// The snapshot of a shelf atlas that an input is.
pub fn snapshot_of(alloc: Global, input: &[u8]) -> Result<AtlasSnapshot, Failure> {
    let text = snapshot_text(input).unwrap_or(&[]);
    match read_saved(alloc, text)? {
        Saved::Atlas(snapshot) => Ok(snapshot),
        Saved::Bucketed(_) => Err(Failure::Misused(
            "a snapshot of a shelf atlas is expected: one of buckets doesn't say what is live",
        )),
    }
}

fn resumed_bytes(
    alloc: Global,
    resumed: &Resumed,
    lists_live: bool,
) -> Result<Vec<u8>, AllocError> {
    let mut text = String::new(alloc);
    if lists_live {
        push_live(&mut text, resumed.live.as_slice())?;
    }
    let mut bytes = text.into_bytes();
    push_replies(&mut bytes, resumed.replies.as_slice())?;
    Ok(bytes)
}

fn push_live(text: &mut String, live: &[Allocation]) -> Result<(), AllocError> {
    for (position, allocation) in live.iter().enumerate() {
        push_allocation(text, position as u128, allocation)?;
    }
    Ok(())
}

/// Adds the line of what is live at a position.
fn push_allocation(
    text: &mut String,
    position: u128,
    allocation: &Allocation,
) -> Result<(), AllocError> {
    let (min, max) = (allocation.rectangle.min, allocation.rectangle.max);
    push_pieces(
        text,
        &[
            Words("live "),
            Count(position),
            Words(" "),
            Count(u128::from(allocation.id.serialize())),
            Words(" "),
            Number(min.x),
            Words(" "),
            Number(min.y),
            Words(" "),
            Number(max.x),
            Words(" "),
            Number(max.y),
            Words("\n"),
        ],
    )
}

fn push_replies(bytes: &mut Vec<u8>, replies: &[Reply]) -> Result<(), AllocError> {
    let mut line = ShortText::new();
    for reply in replies {
        bytes.extend_from_slice(line_of(reply, &mut line))?;
    }
    Ok(())
}
