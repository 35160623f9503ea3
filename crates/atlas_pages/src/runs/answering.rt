//! One command, one call of the pages, one reply.
//!
//! Definition: `Running`. A new command needs its pairs in `PageStep`.

ghost use Rattle.atlas_pages.specs.Promises.{KeepsPagesPromises};
ghost use Rattle.atlas_pages.specs.Runs.Running.{PageStep};

use crate::AtlasPages;
use crate::runs::commands::{PageCommand, PageReply};
use etagere_shelves::{AllocId, Size};

/// Answers a command by the call that it names.
///
/// Takes the memory of that call, and costs what it does.
pub fn answer_on_pages(pages: &mut AtlasPages, command: PageCommand) -> PageReply
    ensures step { PageStep pages.old command result pages.new }
    ensures promises { KeepsPagesPromises pages.new }
{
    match command {
        PageCommand::Allocate(size) => allocate(pages, size),
        PageCommand::Deallocate(page, id) => deallocate(pages, page, id),
        PageCommand::Clear => clear(pages),
        PageCommand::Grow(most) => grow(pages, most),
        PageCommand::Shrink => PageReply::Closed(pages.shrink()),
    }
}

fn allocate(pages: &mut AtlasPages, size: Size) -> PageReply
    ensures step { PageStep pages.old (PageCommand.Allocate size) result pages.new }
    ensures promises { KeepsPagesPromises pages.new }
{
    match pages.allocate(size) {
        Ok(Some(paged)) => PageReply::Placed(paged),
        Ok(None) => PageReply::Refused,
        Err(_) => PageReply::NoMemory,
    }
}

fn deallocate(pages: &mut AtlasPages, page: u32, id: AllocId) -> PageReply
    ensures step { PageStep pages.old (PageCommand.Deallocate page id) result pages.new }
    ensures promises { KeepsPagesPromises pages.new }
{
    match pages.deallocate(page, id) {
        Ok(()) => PageReply::Returned,
        Err(_) => PageReply::Unknown,
    }
}

fn clear(pages: &mut AtlasPages) -> PageReply
    ensures step { PageStep pages.old PageCommand.Clear result pages.new }
    ensures promises { KeepsPagesPromises pages.new }
{
    pages.clear();
    PageReply::Cleared
}

fn grow(pages: &mut AtlasPages, most: u32) -> PageReply
    ensures step { PageStep pages.old (PageCommand.Grow most) result pages.new }
    ensures promises { KeepsPagesPromises pages.new }
{
    match pages.grow(most) {
        Ok(()) => PageReply::Grown,
        Err(_) => PageReply::Fewer,
    }
}
