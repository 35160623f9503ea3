//! Readers and writers that move few bytes at once, and that fail at each byte, through replays, streams, checks,
//! drawings and pictures. A call that failed isn't retried, also where it would work the second time.

mod fake_streams;
mod filters;

use crate::assertions::holds_at;
use fake_streams::{End, FakeReader, FakeWriter};
use filters::{Filter, Stopped};
use std::alloc::Global;
use std::process::Abort;

/// The script of the README's example, and what its replay writes.
const SCRIPT: &str = "atlas 1000 1000 1 1 1 h\na 100 100\na 900 200\nr 0\na 300 200\nl 3\nr 2\n";

const TEXT: &str = "placed 65536 0 0 100 112\nplaced 65537 0 112 900 336\nreturned\n\
    placed 65539 0 336 300 560\nat 0 336 300 560 3\nnot live\n";

const BUCKETED_TEXT: &str = "not live\nrefused\ngrow refused 2\ngrown\ncleared\n";

const DRAWN_SCRIPT: &str = "atlas 20 30 1 1 1 h\na 20 9\na 6 8\nr 0\nc\na 6 8\na 2 2\nr 5\n";

/// A new atlas of 10x10.
const NEW_ATLAS: &str =
    r#"{"atlas":{"width":10,"height":10,"alignment_width":1,"alignment_height":1,"vertical_shelves":false,"shelf_width":10,"first_shelf":0,"free_items":65535,"free_shelves":65535,"allocated_space":0,"shelves":[{"x":0,"y":0,"height":10,"prev":65535,"next":65535,"first_item":0,"first_unallocated":0,"is_empty":true}],"items":[{"x":0,"width":10,"prev":65535,"next":65535,"prev_unallocated":65535,"next_unallocated":65535,"shelf":0,"allocated":false,"generation":1}]}}"#;

/// A filter, what it reads, and what it writes then.
#[derive(Clone, Copy)]
struct Case<'a> {
    filter: Filter,
    input: &'a [u8],
    output: &'a [u8],
}

/// How a writer ends, how many bytes it takes at once, and whether it works from the next call on.
const BROKEN_WRITERS: [(End, usize, bool); 9] = [
    (End::Nothing, 3, false),
    (End::Nothing, 3, true),
    (End::Nothing, 1000, true),
    (End::Failure, 3, false),
    (End::Failure, 3, true),
    (End::Failure, 1000, true),
    (End::Interruption, 3, false),
    (End::Interruption, 3, true),
    (End::Interruption, 1000, true),
];

#[test]
fn texts_are_written_as_far_as_streams_go(rt: HostRuntime) {
    for (filter, input, output) in [
        (Filter::Replay, SCRIPT, TEXT),
        (Filter::Replay, "atlas 8 8 1 1 1 h", ""),
        (Filter::StreamAtlas, "", TEXT),
        (Filter::StreamBuckets, "", BUCKETED_TEXT),
        (Filter::Check, NEW_ATLAS, "ok\n"),
        (Filter::Check, "{}", "unreadable\n"),
        (Filter::Send, "", "placed"),
    ] {
        let (input, output) = (input.as_bytes(), output.as_bytes());
        goes_as_far_as_streams(
            &rt,
            Case {
                filter,
                input,
                output,
            },
        );
    }
}

#[test]
fn pictures_are_drawn_as_far_as_streams_go(rt: HostRuntime) {
    for (filter, input) in [
        (Filter::Draw, DRAWN_SCRIPT),
        (Filter::Draw, NEW_ATLAS),
        (Filter::DumpShelves, ""),
        (Filter::DumpBuckets, ""),
    ] {
        let input = input.as_bytes();
        let mut writer = FakeWriter::new(rt.alloc());
        let done = filter.run(rt.alloc(), &mut FakeReader::new(input), &mut writer);
        holds_at(&rt, done.is_ok(), &filter);
        let output = writer.written();
        goes_as_far_as_streams(
            &rt,
            Case {
                filter,
                input,
                output,
            },
        );
    }
}

#[test]
fn each_line_goes_out_in_one_write(rt: HostRuntime) {
    for (filter, input, output, lines) in [
        (Filter::Replay, SCRIPT, TEXT, 6),
        (Filter::StreamAtlas, "", TEXT, 6),
        (Filter::StreamBuckets, "", BUCKETED_TEXT, 5),
    ] {
        let (input, output) = (input.as_bytes(), output.as_bytes());
        let case = Case {
            filter,
            input,
            output,
        };
        for count in 0..=lines + 1 {
            let is_so = writes_lines(rt.alloc(), case, count, lines);
            holds_at(&rt, is_so, &(filter, count));
        }
    }
}

/// The output is written whole where few bytes are moved at once, a beginning of it where a writer ends, and nothing where
/// a reader fails.
fn goes_as_far_as_streams(rt: &(impl AllocGlobal + Abort), case: Case<'_>) {
    for at_once in [1, 2, 7, 30, 1000] {
        let is_so = takes_few_bytes(rt.alloc(), case, at_once);
        holds_at(rt, is_so, &(case.filter, at_once));
    }
    for room in 0..case.output.len() {
        let is_so = writes_a_beginning(rt.alloc(), case, &case.output[..room]);
        holds_at(rt, is_so, &(case.filter, room));
    }
    if !case.input.is_empty() {
        fails_where_it_reads(rt, case);
    }
}

fn fails_where_it_reads(rt: &(impl AllocGlobal + Abort), case: Case<'_>) {
    for given in 0..=case.input.len() {
        let is_so = writes_nothing(rt.alloc(), case, case.input.split_at(given));
        holds_at(rt, is_so, &(case.filter, given));
    }
}

/// A writer that has room for the output and no more takes it whole.
fn takes_few_bytes(alloc: Global, case: Case<'_>, at_once: usize) -> bool {
    let mut reader = FakeReader {
        at_once,
        ..FakeReader::new(case.input)
    };
    let mut writer = FakeWriter {
        at_once,
        room: case.output.len(),
        ..FakeWriter::new(alloc)
    };
    let done = case.filter.run(alloc, &mut reader, &mut writer);
    done == Ok(()) && writer.written() == case.output
}

/// A beginning is written where a writer ends behind it, and all was read before.
fn writes_a_beginning(alloc: Global, case: Case<'_>, beginning: &[u8]) -> bool {
    for (end, at_once, works_later) in BROKEN_WRITERS {
        let writer = FakeWriter {
            at_once,
            room: beginning.len(),
            end,
            works_later,
            ..FakeWriter::new(alloc)
        };
        if !fails_to_write(alloc, case, beginning, writer) {
            return false;
        }
    }
    true
}

fn fails_to_write(alloc: Global, case: Case<'_>, beginning: &[u8], mut writer: FakeWriter) -> bool {
    let fault = case.filter.fault_at(writer.end);
    let mut reader = FakeReader::new(case.input);
    let done = case.filter.run(alloc, &mut reader, &mut writer);
    done == Err(fault)
        && writer.written() == beginning
        && writer.later_calls() == 0
        && reader.is_at_end()
}

/// Nothing is written where a reader fails behind the first part, also where it would give the second one later.
fn writes_nothing(alloc: Global, case: Case<'_>, (first, second): (&[u8], &[u8])) -> bool {
    for (end, later) in [
        (End::Failure, None),
        (End::Failure, Some(second)),
        (End::Interruption, None),
        (End::Interruption, Some(second)),
    ] {
        let reader = FakeReader {
            end,
            later,
            ..FakeReader::new(first)
        };
        if !fails_to_read(alloc, case.filter, reader) {
            return false;
        }
    }
    true
}

fn fails_to_read(alloc: Global, filter: Filter, mut reader: FakeReader<'_>) -> bool {
    let mut writer = FakeWriter::new(alloc);
    let done = filter.run(alloc, &mut reader, &mut writer);
    done == Err(Stopped::NotRead) && reader.later_calls() == 0 && writer.written().is_empty()
}

/// A writer that takes so many writes gets as many of the lines, and of more writes it keeps one.
fn writes_lines(alloc: Global, case: Case<'_>, writes: usize, lines: usize) -> bool {
    let mut writer = FakeWriter {
        writes,
        ..FakeWriter::new(alloc)
    };
    let done = case
        .filter
        .run(alloc, &mut FakeReader::new(case.input), &mut writer);
    let wanted = if writes < lines {
        Err(Stopped::NotWritten)
    } else {
        Ok(())
    };
    done == wanted
        && writer.written() == first_lines(case.output, writes)
        && writer.writes == writes.saturating_sub(lines)
}

/// The first lines of a text, so many of them, or all where it has fewer.
fn first_lines(text: &[u8], count: usize) -> &[u8] {
    let mut left = count;
    for (index, byte) in text.iter().enumerate() {
        if left == 0 {
            return &text[..index];
        }
        if *byte == b'\n' {
            left -= 1;
        }
    }
    text
}
