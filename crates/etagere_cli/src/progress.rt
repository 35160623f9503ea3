//! How far the program is with a long input: a line on a terminal, which changes some times a second and goes in the end.

use std::rt::Clock;
use std::time::Instant;

/// How many milliseconds pass before the line is written again.
const PAUSE: u128 = 250;

/// From how many lines on it is said that their commands run, which fewer do in an instant.
const MANY: u64 = 200_000;

/// What replaces the line.
const BLANK: &str = "\r                                                                      \r";

/// How far the reading of inputs is.
#[derive(Drop)]
pub struct Progress<'a, R: Clock + Eprint> {
    rt: &'a R,
    /// When it began, where standard error is a terminal and there is a clock.
    start: Option<Instant>,
    /// How many milliseconds after that the line was written last.
    told: u128,
    lines: u64,
}

impl<'a, R: Clock + Eprint> Progress<'a, R> {
    /// Nothing is told where standard error isn't a terminal.
    pub fn new(rt: &'a R, is_terminal: bool) -> Progress<'a, R> {
        let start = if is_terminal {
            Instant::now(rt).ok()
        } else {
            None
        };
        Progress {
            rt,
            start,
            told: 0,
            lines: 0,
        }
    }

    /// Counts the lines that were read, and tells of them from time to time.
    pub fn count(&mut self, bytes: &[u8]) {
        let Some(start) = self.start else {
            return;
        };
        let lines = bytes.iter().filter(|byte| **byte == b'\n').count();
        self.lines = self.lines.saturating_add(lines as u64);
        if let Ok(elapsed) = start.elapsed(self.rt) {
            self.tell(elapsed.as_millis());
        }
    }

    /// Tells of the lines, unless that was done just before.
    fn tell(&mut self, now: u128) {
        if now.saturating_sub(self.told) < PAUSE {
            return;
        }
        self.told = now;
        let (lines, rate) = (
            self.lines,
            u128::from(self.lines).saturating_mul(1000) / now.max(1),
        );
        let _ = self
            .rt
            .eprint(format_args!("\r{lines} lines read, {rate} a second "));
    }

    /// Tells that the commands run that were read, where these are many.
    pub fn run(&self) {
        let lines = self.lines;
        if self.start.is_some() && lines >= MANY {
            let _ = self.rt.eprint(format_args!("{BLANK}{lines} lines read; their commands run "));
        }
    }

    /// Takes the line away, where there is one.
    pub fn end(&self) {
        if self.start.is_some() && (self.told > 0 || self.lines >= MANY) {
            let _ = self.rt.eprint(BLANK);
        }
    }
}
