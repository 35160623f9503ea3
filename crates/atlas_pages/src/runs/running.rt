//! Runs of commands on new pages.
//!
//! Definition: `Running`, over those of `atlas_pages`.

ghost use Rattle.std.specs.Prelude.{◌≡◌, ◌≤◌, [], length, vec_capacity, Err, IfErr, IfOk, OnOk, IfSome};
ghost use Rattle.atlas_pages.specs.Pages as model;
ghost use Rattle.atlas_pages.specs.Pages.{ArePageOptions, no_pages};
ghost use Rattle.atlas_pages.specs.Promises.{KeepsPagesPromises};
ghost use Rattle.atlas_pages.specs.declared.runs.run_faults.PageRunFault.{PageRunFault};
ghost use Rattle.atlas_pages.specs.Runs.Running.{PageRunKeepsPromisesThroughout, RefusesPageRun, RunsToOnPages};

use crate::runs::answering::answer_on_pages;
use crate::runs::commands::{PageCommand, PageReply};
use crate::runs::run_faults::PageRunFault;
use crate::{AtlasPages, PageOptions};
use std::alloc::Global;

/// Runs the commands in order on new pages of these options, and gives a reply to each.
///
/// `Options` tells the first fault of the options, and comes exactly where they have one; else `Memory` where there is
/// no room for the replies, which is taken before the first command. After an error nothing was run. Takes memory for a
/// reply to each command, beside what the pages take. Each command costs what its call of the pages does.
pub fn run_pages(
    alloc: Global,
    options: &PageOptions,
    commands: &[PageCommand],
) -> Result<Vec<PageReply>, PageRunFault>
    ensures run { IfOk result (λ replies. RunsToOnPages options.now commands.now replies.items) }
    ensures promises { IfOk result
        (λ replies. PageRunKeepsPromisesThroughout options.now commands.now replies.items) }
    ensures accepted { OnOk result (ArePageOptions options.now) }
    ensures err { IfErr result (RefusesPageRun options.now) }
{
    let mut pages = AtlasPages::new(alloc, options).map_err(PageRunFault::Options)?;
    let Ok(replies) = Vec::with_capacity(alloc, commands.len()) else {
        return Err(PageRunFault::Memory);
    };
    Ok(answer_all(&mut pages, replies, commands))
}

/// The replies of new pages to the commands, one after another.
fn answer_all(
    pages: &mut AtlasPages,
    replies: Vec<PageReply>,
    commands: &[PageCommand],
) -> Vec<PageReply>
    requires new { pages.old ≡ no_pages pages.old.options }
    requires promises { KeepsPagesPromises pages.old }
    requires none { replies.items ≡ [] }
    requires room { length commands.now ≤ vec_capacity replies }
    ensures run { RunsToOnPages pages.old.options commands.now result.items }
    ensures promises { PageRunKeepsPromisesThroughout pages.old.options commands.now result.items }
{
    let mut replies = replies;
    for position in 0..commands.len() {
        let reply = answer_on_pages(pages, commands[position]);
        replies.push(reply).unwrap();
    }
    replies
}
