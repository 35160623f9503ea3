//! Calls of several pages.

use atlas_pages::laws::saved_and_restored;
use atlas_pages::runs::{PageCommand, PageReply, answer_on_pages};
use atlas_pages::{
    AtlasPages, PageChoice, PageOptions, PagedAllocation, PagesFault, PagesRestoreFault,
    PagesSnapshot,
};
use etagere::{AllocId, AllocatorOptions, DEFAULT_OPTIONS, Rectangle, size2};
use moves::pages::{PageMove, RearrangedPages, rearranged_pages};
use row_calls::lines::{
    id_of, numbers, parted, say, say_given, say_if, say_number, say_rectangle, size_of,
};
use row_calls::slots::{Called, NotMade};
use saved_collections::pages::{read_saved_pages, write_saved_pages};
use std::alloc::{AllocError, Global};
use std::io;

/// Pages that are called by lines.
#[derive(Drop)]
pub struct CalledPages(AtlasPages);

impl Called for CalledPages {
    fn made(alloc: Global, words: &str) -> Result<CalledPages, NotMade> {
        match new_pages(alloc, &options_of(words)) {
            Ok(pages) => Ok(CalledPages(pages)),
            Err(fault) => Err(NotMade::Fault(fault.number())),
        }
    }

    fn copied(&self, alloc: Global) -> Result<CalledPages, NotMade> {
        match copy_of(alloc, &self.0) {
            Ok(pages) => Ok(CalledPages(pages)),
            Err(_) => Err(NotMade::NoMemory),
        }
    }

    fn saved(&self, alloc: Global) -> Option<String> {
        text_of(alloc, &self.0)
    }

    fn restored(alloc: Global, text: &str) -> Result<CalledPages, NotMade> {
        let saved = read(alloc, text).ok_or(NotMade::Unread)?;
        match restored_of(alloc, saved) {
            Ok(pages) => Ok(CalledPages(pages)),
            Err(fault) => Err(not_restored(alloc, fault)),
        }
    }

    fn answer(
        &mut self,
        rt: &(impl Print + AllocGlobal),
        call: &str,
        words: &str,
    ) -> io::Result<()> {
        let pages = &mut self.0;
        match call {
            "get" => say_rectangle(rt, rectangle_of(pages, words)),
            "iter" => list(pages, rt),
            "picture" => draw(pages, rt),
            "moved" => say_moved(rt, &moved(rt.alloc(), pages)),
            "open" => say_number(rt, open(pages)),
            "empty" => say_if(rt, is_empty(pages), "yes", "no"),
            "spaces" => say_spaces(rt, spaces(pages)),
            _ => match command_of(call, words) {
                Some(command) => say_reply(rt, &answered(pages, command)),
                None => say(rt, "no such call"),
            },
        }
    }
}

/// The message of a fault.
fn not_restored(alloc: Global, fault: PagesRestoreFault) -> NotMade {
    if fault == PagesRestoreFault::Memory {
        return NotMade::NoMemory;
    }
    match fault.to_string(alloc) {
        Ok(text) => NotMade::Told(text),
        Err(_) => NotMade::NoMemory,
    }
}

/// The command that changes pages, by its words, if it is one.
pub fn command_of(call: &str, words: &str) -> Option<PageCommand> {
    match call {
        "allocate" => Some(PageCommand::Allocate(size_of(words))),
        "deallocate" => Some(deallocation_of(words)),
        "clear" => Some(PageCommand::Clear),
        "grow" => Some(PageCommand::Grow(words.parse().unwrap_or(0))),
        "shrink" => Some(PageCommand::Shrink),
        _ => None,
    }
}

fn deallocation_of(words: &str) -> PageCommand {
    let (page, id) = page_and_id_of(words);
    PageCommand::Deallocate(page, id)
}

/// Writes what a command answers.
pub fn say_reply(rt: &impl Print, reply: &PageReply) -> io::Result<()> {
    match reply {
        PageReply::Placed(paged) => say_paged(rt, "placed", paged),
        PageReply::Refused => say(rt, "refused"),
        PageReply::NoMemory => say(rt, "no memory"),
        PageReply::Returned => say(rt, "returned"),
        PageReply::Unknown => say(rt, "unknown"),
        PageReply::Cleared => say(rt, "cleared"),
        PageReply::Grown => say(rt, "grown"),
        PageReply::Fewer => say(rt, "fewer pages"),
        PageReply::Closed(count) => say_number(rt, u64::from(*count)),
    }
}

/// The sides of a page, how many columns it has, how many pages there may be, and 1 where the fullest gets a size.
pub fn options_of(words: &str) -> PageOptions {
    let [width, height, num_columns, most_pages, fullest, _] = numbers(words);
    PageOptions {
        size: size2(width, height),
        atlas: AllocatorOptions {
            num_columns,
            ..DEFAULT_OPTIONS
        },
        most_pages: u32::try_from(most_pages).unwrap_or(0),
        choice: if fullest == 1 {
            PageChoice::FullestFirst
        } else {
            PageChoice::FirstFit
        },
    }
}

/// A page and an id.
pub fn page_and_id_of(words: &str) -> (u32, AllocId) {
    let (page, id) = parted(words);
    (page.parse().unwrap_or(0), id_of(id))
}

/// Writes the page, the corners and the id of a place.
pub fn say_paged(rt: &impl Print, word: &str, paged: &PagedAllocation) -> io::Result<()> {
    print!(rt; "page {} ", paged.page)?;
    say_given(rt, word, &paged.allocation)
}

/// Writes a line for everything that is allocated, and one that ends them.
fn list(pages: &AtlasPages, rt: &impl Print) -> io::Result<()> {
    for paged in pages {
        say_paged(rt, "at", &paged)?;
    }
    say(rt, "end")
}

/// Writes the picture of all pages, and a line that ends it.
fn draw(pages: &AtlasPages, rt: &impl Print) -> io::Result<()> {
    pages.dump_svg(&mut io::writer(rt))?;
    say(rt, "end")
}

/// Writes a line for each place that moves to new pages, one for each that finds none, and one that ends them.
fn say_moved(rt: &impl Print, moved: &Result<RearrangedPages, AllocError>) -> io::Result<()> {
    let Ok(done) = moved else {
        return say(rt, "no memory");
    };
    for PageMove { before, after } in &done.moves {
        say_paged(rt, "from", before)?;
        say_paged(rt, "to", after)?;
    }
    for left in &done.unplaced {
        say_paged(rt, "left", left)?;
    }
    say(rt, "end")
}

/// Writes what is allocated and what is free.
pub fn say_spaces(rt: &impl Print, (allocated, free): (u64, u64)) -> io::Result<()> {
    println!(rt; "{allocated} {free}")
}

// What these calls promise ends in functions that promise nothing, so that it isn't gone through in what uses them.

fn new_pages(alloc: Global, options: &PageOptions) -> Result<AtlasPages, PagesFault> {
    AtlasPages::new(alloc, options)
}

pub fn copy_of(alloc: Global, pages: &AtlasPages) -> Result<AtlasPages, PagesRestoreFault> {
    saved_and_restored(alloc, pages)
}

fn text_of(alloc: Global, pages: &AtlasPages) -> Option<String> {
    let saved = pages.snapshot().ok()?;
    String::from_utf8(write_saved_pages(alloc, &saved).ok()?).ok()
}

fn read(alloc: Global, text: &str) -> Option<PagesSnapshot> {
    read_saved_pages(alloc, text.as_bytes()).ok()
}

fn restored_of(alloc: Global, saved: PagesSnapshot) -> Result<AtlasPages, PagesRestoreFault> {
    AtlasPages::restore(alloc, saved)
}

fn moved(alloc: Global, pages: &AtlasPages) -> Result<RearrangedPages, AllocError> {
    rearranged_pages(alloc, pages)
}

fn rectangle_of(pages: &AtlasPages, words: &str) -> Option<Rectangle> {
    let (page, id) = page_and_id_of(words);
    pages.get(page, id)
}

fn answered(pages: &mut AtlasPages, command: PageCommand) -> PageReply {
    answer_on_pages(pages, command)
}

fn open(pages: &AtlasPages) -> u64 {
    u64::from(pages.page_count())
}

fn is_empty(pages: &AtlasPages) -> bool {
    pages.is_empty()
}

pub fn spaces(pages: &AtlasPages) -> (u64, u64) {
    (pages.allocated_space(), pages.free_space())
}
