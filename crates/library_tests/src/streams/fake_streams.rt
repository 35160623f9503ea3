//! Readers and writers that move few bytes at once, and come to an end: there they fail, are interrupted, or move no byte.
//! They end at every later call too, or once alone and then work. They count the calls after the first end, so that a
//! test sees whether a call was retried.

ghost use Rattle.std.specs.Prelude.{◌≡◌, IfOk};

use std::alloc::Global;
use std::io::{self, ErrorKind, Read, Write};

/// What a stream does at its end.
#[derive(Clone, Copy, Debug, PartialEq, Eq)]
pub enum End {
    /// It gives or takes no byte.
    Nothing,
    /// It fails.
    Failure,
    /// It is interrupted.
    Interruption,
}

impl End {
    fn answer(self) -> io::Result<usize>
        ensures { IfOk result (λ count. count ≡ 0) }
    {
        match self {
            End::Nothing => Ok(0),
            End::Failure => Err(ErrorKind::BrokenPipe.into()),
            End::Interruption => Err(ErrorKind::Interrupted.into()),
        }
    }
}

/// Counts the calls of a stream that come after its first end.
#[derive(Clone, Copy)]
pub struct LaterCalls {
    has_ended: bool,
    count: usize,
}

impl LaterCalls {
    const NONE: LaterCalls = LaterCalls {
        has_ended: false,
        count: 0,
    };

    fn add(&mut self) {
        if self.has_ended {
            self.count = self.count.saturating_add(1);
        }
    }
}

/// Gives the bytes of `rest`, at most `at_once` in a call, and then ends. Where it has more bytes for `later`, it ends so
/// once, then gives these, and then none.
#[derive(Drop)]
pub struct FakeReader<'a> {
    pub rest: &'a [u8],
    pub at_once: usize,
    pub end: End,
    pub later: Option<&'a [u8]>,
    pub later_calls: LaterCalls,
}

impl<'a> FakeReader<'a> {
    /// A reader of seven bytes at once, and then none.
    pub fn new(rest: &'a [u8]) -> FakeReader<'a> {
        FakeReader {
            rest,
            at_once: 7,
            end: End::Nothing,
            later: None,
            later_calls: LaterCalls::NONE,
        }
    }

    /// Whether all its bytes were given.
    pub fn is_at_end(&self) -> bool {
        self.rest.is_empty() && self.later.is_none()
    }

    /// How many calls came after its first end.
    pub fn later_calls(&self) -> usize {
        self.later_calls.count
    }
}

impl Read for FakeReader<'_> {
    fn read(&mut self, buf: &mut [u8]) -> io::Result<usize> {
        self.later_calls.add();
        let count = self.rest.len().min(self.at_once).min(buf.len());
        if count == 0 {
            let answer = self.end.answer();
            self.later_calls.has_ended = true;
            if let Some(later) = self.later.take() {
                self.rest = later;
                self.end = End::Nothing;
            }
            return answer;
        }
        let (given, rest) = self.rest.split_at(count);
        buf[..count].copy_from_slice(given);
        self.rest = rest;
        Ok(count)
    }
}

/// Takes bytes up to `room`, in so many writes and at most `at_once` in each, and then ends: once, where it works later,
/// and from then on it takes every byte.
#[derive(Drop)]
pub struct FakeWriter {
    pub written: Vec<u8>,
    pub room: usize,
    pub writes: usize,
    pub at_once: usize,
    pub end: End,
    pub works_later: bool,
    pub later_calls: LaterCalls,
}

impl FakeWriter {
    /// A writer that takes every byte.
    pub fn new(alloc: Global) -> FakeWriter {
        FakeWriter {
            written: Vec::new(alloc),
            room: usize::MAX,
            writes: usize::MAX,
            at_once: usize::MAX,
            end: End::Failure,
            works_later: false,
            later_calls: LaterCalls::NONE,
        }
    }

    /// The bytes that it took.
    pub fn written(&self) -> &[u8] {
        self.written.as_slice()
    }

    /// How many calls came after its first end.
    pub fn later_calls(&self) -> usize {
        self.later_calls.count
    }

    fn end(&mut self) -> io::Result<usize>
        ensures { IfOk result (λ count. count ≡ 0) }
    {
        self.later_calls.has_ended = true;
        if self.works_later {
            self.room = usize::MAX;
        }
        self.end.answer()
    }
}

impl Write for FakeWriter {
    fn write(&mut self, buf: &[u8]) -> io::Result<usize> {
        self.later_calls.add();
        let left = self.room.saturating_sub(self.written.len());
        let count = left.min(self.at_once).min(buf.len());
        if count == 0 || self.writes == 0 {
            return self.end();
        }
        self.writes -= 1;
        self.written.extend_from_slice(&buf[..count])?;
        Ok(count)
    }

    fn flush(&mut self) -> io::Result<()> {
        Ok(())
    }
}
