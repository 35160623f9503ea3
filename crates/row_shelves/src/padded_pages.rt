//! Calls of several pages with a padding.

use crate::pages::{
    command_of, copy_of, options_of, page_and_id_of, say_paged, say_reply, say_spaces, spaces,
};
use atlas_pages::runs::{PageCommand, PageReply};
use atlas_pages::{AtlasPages, PageOptions, PagesFault};
use etagere::{AllocId, Rectangle, Refusal, Size};
use padding::Padding;
use padding::pages::PaddedPages;
use padding::pages::runs::answer_on_padded_pages;
use row_calls::lines::{numbers, say, say_rectangle, say_size, size_of};
use row_calls::slots::{Called, NotMade};
use std::alloc::Global;
use std::io;

/// Padded pages that are called by lines.
#[derive(Drop)]
pub struct CalledPaddedPages(PaddedPages);

impl Called for CalledPaddedPages {
    fn made(alloc: Global, words: &str) -> Result<CalledPaddedPages, NotMade> {
        let [.., pixels] = numbers(words);
        match new_pages(alloc, &options_of(words), padding_of(pixels)) {
            Ok(pages) => Ok(CalledPaddedPages(pages)),
            Err(fault) => Err(NotMade::Fault(fault.number())),
        }
    }

    fn copied(&self, alloc: Global) -> Result<CalledPaddedPages, NotMade> {
        match copy_of(alloc, self.0.pages()) {
            Ok(pages) => Ok(CalledPaddedPages(with_padding(pages, self.0.padding()))),
            Err(_) => Err(NotMade::NoMemory),
        }
    }

    fn answer(
        &mut self,
        rt: &(impl Print + AllocGlobal),
        call: &str,
        words: &str,
    ) -> io::Result<()> {
        let pages = &mut self.0;
        match call {
            "get" => say_rectangle(rt, rectangle_of(pages, page_and_id_of(words))),
            "iter" => list(pages, rt),
            "with_padding" => say_padded(rt, padded(pages, size_of(words))),
            "spaces" => say_spaces(rt, spaces(pages.pages())),
            _ => match command_of(call, words) {
                Some(command) => say_reply(rt, &answered(pages, command)),
                None => say(rt, "no such call"),
            },
        }
    }
}

/// So many pixels around each rectangle; below 0, to the right and below alone.
fn padding_of(pixels: i32) -> Padding {
    match u16::try_from(pixels) {
        Ok(pixels) => Padding::around(pixels),
        Err(_) => Padding::after(u16::try_from(pixels.unsigned_abs()).unwrap_or(0)),
    }
}

/// Writes a line for everything that is allocated, and one that ends them.
fn list(pages: &PaddedPages, rt: &impl Print) -> io::Result<()> {
    for paged in pages {
        say_paged(rt, "at", &paged)?;
    }
    say(rt, "end")
}

/// Writes how long the sides become, or why there is no room for them.
fn say_padded(rt: &impl Print, padded: Result<Size, Refusal>) -> io::Result<()> {
    match padded {
        Ok(size) => say_size(rt, size),
        Err(refusal) => println!(rt; "reason {}", refusal.number()),
    }
}

// What these calls promise ends in functions that promise nothing, so that it isn't gone through in what uses them.

fn new_pages(
    alloc: Global,
    options: &PageOptions,
    padding: Padding,
) -> Result<PaddedPages, PagesFault> {
    PaddedPages::new(alloc, options, padding)
}

fn with_padding(pages: AtlasPages, padding: Padding) -> PaddedPages {
    PaddedPages::from_pages(pages, padding)
}

fn rectangle_of(pages: &PaddedPages, (page, id): (u32, AllocId)) -> Option<Rectangle> {
    pages.get(page, id)
}

fn padded(pages: &PaddedPages, size: Size) -> Result<Size, Refusal> {
    pages.padding().padded(size)
}

fn answered(pages: &mut PaddedPages, command: PageCommand) -> PageReply {
    answer_on_padded_pages(pages, command)
}
