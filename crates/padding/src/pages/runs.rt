//! Commands on pages with a padding, and what holds of every run.
//!
//! Definition: `Runs`, over those of `atlas_pages`.

ghost use Rattle.padding.specs.Pages.Runs.{EveryRunKeepsPadding, Step};

use crate::pages::PaddedPages;
use atlas_pages::runs::{PageCommand, PageReply};
use etagere_shelves::{AllocId, Size};

/// Pages with a padding, new or not, keep their promises after each command, whatever these are and whichever of the
/// replies that the definition allows are given, and what they tell is what is there.
pub fn every_run_keeps_padding()
    ensures { EveryRunKeepsPadding }
{}

/// Answers a command by the call that it names. Rectangles are without their padding.
///
/// Takes the memory of that call, and costs what it does.
pub fn answer_on_padded_pages(pages: &mut PaddedPages, command: PageCommand) -> PageReply
    ensures { Step pages.old command result pages.new }
{
    match command {
        PageCommand::Allocate(size) => allocate(pages, size),
        PageCommand::Deallocate(page, id) => deallocate(pages, page, id),
        PageCommand::Clear => clear(pages),
        PageCommand::Grow(most) => grow(pages, most),
        PageCommand::Shrink => PageReply::Closed(pages.shrink()),
    }
}

fn allocate(pages: &mut PaddedPages, size: Size) -> PageReply
    ensures { Step pages.old (PageCommand.Allocate size) result pages.new }
{
    match pages.allocate(size) {
        Ok(Some(paged)) => PageReply::Placed(paged),
        Ok(None) => PageReply::Refused,
        Err(_) => PageReply::NoMemory,
    }
}

fn deallocate(pages: &mut PaddedPages, page: u32, id: AllocId) -> PageReply
    ensures { Step pages.old (PageCommand.Deallocate page id) result pages.new }
{
    match pages.deallocate(page, id) {
        Ok(()) => PageReply::Returned,
        Err(_) => PageReply::Unknown,
    }
}

fn clear(pages: &mut PaddedPages) -> PageReply
    ensures { Step pages.old PageCommand.Clear result pages.new }
{
    pages.clear();
    PageReply::Cleared
}

fn grow(pages: &mut PaddedPages, most: u32) -> PageReply
    ensures { Step pages.old (PageCommand.Grow most) result pages.new }
{
    match pages.grow(most) {
        Ok(()) => PageReply::Grown,
        Err(_) => PageReply::Fewer,
    }
}
