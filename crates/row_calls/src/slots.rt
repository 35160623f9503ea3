//! The two slots for what is called, and the calls that fill them.

use crate::lines::{parted, say, say_fault, say_number};
use etagere_base::OptionsFault;
use std::alloc::Global;
use std::io;

/// Why something isn't made.
#[derive(Drop)]
pub enum NotMade {
    /// There was no memory.
    NoMemory,
    /// A fault of this number, which isn't that of memory.
    Fault(u32),
    /// A fault that is told so, which isn't that of memory.
    Told(String),
    /// No words say it, or no text can be read.
    Unread,
}

/// Why nothing is made with options that have this fault.
pub fn of_options(fault: OptionsFault) -> NotMade {
    match fault {
        OptionsFault::Memory => NotMade::NoMemory,
        fault => NotMade::Fault(fault.number()),
    }
}

/// Something that is made, and then called. It promises nothing, so that what calls it is proved once and fast.
pub trait Called: Sized {
    /// What these words say.
    fn made(alloc: Global, words: &str) -> Result<Self, NotMade>;

    /// Another one in the same state, where there is a call for that.
    fn copied(&self, _alloc: Global) -> Result<Self, NotMade> {
        Err(NotMade::Unread)
    }

    /// What it is saved as, as JSON text, where it is saved.
    fn saved(&self, _alloc: Global) -> Option<String> {
        None
    }

    /// What such a text restores.
    fn restored(_alloc: Global, _text: &str) -> Result<Self, NotMade> {
        Err(NotMade::Unread)
    }

    /// How many links are read until such a text is restored or refused.
    fn steps(_alloc: Global, _text: &str) -> Result<u64, NotMade> {
        Err(NotMade::Unread)
    }

    /// Makes a call with these words, and writes its answer.
    fn answer(
        &mut self,
        rt: &(impl Print + AllocGlobal),
        call: &str,
        words: &str,
    ) -> io::Result<()>;
}

#[derive(Drop)]
pub struct Slots<C> {
    first: Option<C>,
    other: Option<C>,
}

impl<C: Called + Drop> Slots<C> {
    pub fn new() -> Slots<C> {
        Slots {
            first: None,
            other: None,
        }
    }

    fn at(&mut self, slot: &str) -> &mut Option<C> {
        if slot == "0" {
            &mut self.first
        } else {
            &mut self.other
        }
    }
}

/// Makes the call of a line, and writes its answer.
pub fn answer<C: Called + Drop>(
    rt: &(impl Print + AllocGlobal),
    slots: &mut Slots<C>,
    line: &str,
) -> io::Result<()> {
    let (slot, call) = parted(line);
    let (call, words) = parted(call);
    match call {
        "make" => fill(rt, slots.at(slot), C::made(rt.alloc(), words)),
        "restore" => fill(rt, slots.at(slot), C::restored(rt.alloc(), words)),
        "clone" => fill(rt, &mut slots.other, copy_of(rt.alloc(), &slots.first)),
        "steps" => say_steps(rt, C::steps(rt.alloc(), words)),
        "save" => say_text(rt, &text_of(rt.alloc(), slots.at(slot))),
        _ => answer_of(rt, slots.at(slot), call, words),
    }
}

/// Keeps what was made in its slot. Where it can't be made, what was there stays.
fn fill<C: Called + Drop>(
    rt: &impl Print,
    slot: &mut Option<C>,
    made: Result<C, NotMade>,
) -> io::Result<()> {
    match made {
        Ok(made) => {
            *slot = Some(made);
            say(rt, "made")
        }
        Err(why) => say_not_made(rt, why),
    }
}

fn say_not_made(rt: &impl Print, why: NotMade) -> io::Result<()> {
    match why {
        NotMade::NoMemory => say(rt, "no memory"),
        NotMade::Fault(number) => say_fault(rt, number),
        NotMade::Told(text) => println!(rt; "fault {text}"),
        NotMade::Unread => say(rt, "unread"),
    }
}

fn say_steps(rt: &impl Print, steps: Result<u64, NotMade>) -> io::Result<()> {
    match steps {
        Ok(steps) => say_number(rt, steps),
        Err(why) => say_not_made(rt, why),
    }
}

/// Writes what was saved.
fn say_text(rt: &impl Print, text: &Option<String>) -> io::Result<()> {
    match text {
        Some(text) => say(rt, text.as_str()),
        None => say(rt, "no memory"),
    }
}

fn copy_of<C: Called>(alloc: Global, slot: &Option<C>) -> Result<C, NotMade> {
    match slot {
        Some(called) => called.copied(alloc),
        None => Err(NotMade::Unread),
    }
}

fn text_of<C: Called>(alloc: Global, slot: &Option<C>) -> Option<String> {
    match slot {
        Some(called) => called.saved(alloc),
        None => None,
    }
}

/// What a call answers of something that was made.
fn answer_of<C: Called>(
    rt: &(impl Print + AllocGlobal),
    slot: &mut Option<C>,
    call: &str,
    words: &str,
) -> io::Result<()> {
    match slot {
        Some(called) => called.answer(rt, call, words),
        None => say(rt, "nothing was made"),
    }
}
