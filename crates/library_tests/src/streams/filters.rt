//! What reads a text and writes another, by calls that promise nothing, so that a test is proved safe in little time.

use crate::streams::fake_streams::{End, FakeReader, FakeWriter};
use etagere::{AtlasAllocator, BucketedAtlasAllocator, DEFAULT_OPTIONS, size2};
use etagere_run::{
    AtlasCommand, BucketedCommand, ReplayFault, StreamFault, check, draw, replay, stream_atlas,
    stream_bucketed,
};
use pictures::send;
use std::alloc::Global;
use std::io::{self, ErrorKind};

/// What reads a text, or nothing, and writes another.
#[derive(Clone, Copy, Debug, PartialEq, Eq)]
pub enum Filter {
    /// Replays a script.
    Replay,
    /// Checks a snapshot.
    Check,
    /// Draws a script or a snapshot.
    Draw,
    /// Streams the run of the README's example.
    StreamAtlas,
    /// Streams commands to a bucketed atlas, one of each reply that has no place.
    StreamBuckets,
    /// Draws a shelf atlas.
    DumpShelves,
    /// Draws a bucketed atlas.
    DumpBuckets,
    /// Sends `placed`.
    Send,
}

/// Why a filter stopped.
#[derive(Clone, Copy, Debug, PartialEq, Eq)]
pub enum Stopped {
    NotRead,
    NotWritten,
    NoMemory,
    /// The fault of the writer.
    By(ErrorKind),
}

impl Filter {
    /// Reads from the one, and writes to the other.
    pub fn run(
        self,
        alloc: Global,
        reader: &mut FakeReader<'_>,
        writer: &mut FakeWriter,
    ) -> Result<(), Stopped> {
        match self {
            Filter::Replay => replayed(alloc, reader, writer),
            Filter::Check => checked(alloc, reader, writer),
            Filter::Draw => drawn(alloc, reader, writer),
            Filter::StreamAtlas => streamed(alloc, writer),
            Filter::StreamBuckets => streamed_of_buckets(alloc, writer),
            Filter::DumpShelves => dumped(alloc, writer),
            Filter::DumpBuckets => dumped_of_buckets(alloc, writer),
            Filter::Send => sent(writer),
        }
    }

    /// Why it stops at a writer that ends so.
    pub fn fault_at(self, end: End) -> Stopped {
        match self {
            Filter::DumpShelves | Filter::DumpBuckets | Filter::Send => Stopped::By(kind_of(end)),
            _ => Stopped::NotWritten,
        }
    }
}

fn kind_of(end: End) -> ErrorKind {
    match end {
        End::Nothing => ErrorKind::WriteZero,
        End::Failure => ErrorKind::BrokenPipe,
        End::Interruption => ErrorKind::Interrupted,
    }
}

fn of_replay(fault: ReplayFault) -> Stopped {
    match fault {
        ReplayFault::Read => Stopped::NotRead,
        ReplayFault::Write => Stopped::NotWritten,
        ReplayFault::Memory => Stopped::NoMemory,
    }
}

fn of_stream(fault: StreamFault) -> Stopped {
    match fault {
        StreamFault::Write => Stopped::NotWritten,
        StreamFault::Options(_) | StreamFault::Memory => Stopped::NoMemory,
    }
}

fn of_writer(done: io::Result<()>) -> Result<(), Stopped> {
    match done {
        Ok(()) => Ok(()),
        Err(fault) => Err(Stopped::By(fault.kind())),
    }
}

fn replayed(
    alloc: Global,
    reader: &mut FakeReader<'_>,
    writer: &mut FakeWriter,
) -> Result<(), Stopped> {
    match replay(alloc, reader, writer) {
        Ok(_) => Ok(()),
        Err(fault) => Err(of_replay(fault)),
    }
}

fn checked(
    alloc: Global,
    reader: &mut FakeReader<'_>,
    writer: &mut FakeWriter,
) -> Result<(), Stopped> {
    match check(alloc, reader, writer) {
        Ok(_) => Ok(()),
        Err(fault) => Err(of_replay(fault)),
    }
}

fn drawn(
    alloc: Global,
    reader: &mut FakeReader<'_>,
    writer: &mut FakeWriter,
) -> Result<(), Stopped> {
    match draw(alloc, reader, writer) {
        Ok(_) => Ok(()),
        Err(fault) => Err(of_replay(fault)),
    }
}

fn streamed(alloc: Global, writer: &mut FakeWriter) -> Result<(), Stopped> {
    let commands = [
        AtlasCommand::Allocate(size2(100, 100)),
        AtlasCommand::Allocate(size2(900, 200)),
        AtlasCommand::Return(0),
        AtlasCommand::Allocate(size2(300, 200)),
        AtlasCommand::Look(3),
        AtlasCommand::Return(2),
    ];
    match stream_atlas(
        alloc,
        size2(1000, 1000),
        &DEFAULT_OPTIONS,
        &commands,
        writer,
    ) {
        Ok(()) => Ok(()),
        Err(fault) => Err(of_stream(fault)),
    }
}

fn streamed_of_buckets(alloc: Global, writer: &mut FakeWriter) -> Result<(), Stopped> {
    let commands = [
        BucketedCommand::Return(0),
        BucketedCommand::Allocate(size2(9, 8)),
        BucketedCommand::Grow(size2(7, 9)),
        BucketedCommand::Grow(size2(16, 8)),
        BucketedCommand::Clear,
    ];
    match stream_bucketed(alloc, size2(8, 8), &DEFAULT_OPTIONS, &commands, writer) {
        Ok(()) => Ok(()),
        Err(fault) => Err(of_stream(fault)),
    }
}

fn dumped(alloc: Global, writer: &mut FakeWriter) -> Result<(), Stopped> {
    match small_atlas(alloc) {
        Some(atlas) => of_writer(atlas.dump_svg(writer)),
        None => Err(Stopped::NoMemory),
    }
}

/// An atlas that has given a size, if there was memory for that.
fn small_atlas(alloc: Global) -> Option<AtlasAllocator> {
    let mut atlas = AtlasAllocator::new(alloc, size2(20, 30)).ok()?;
    fill(&mut atlas);
    Some(atlas)
}

fn fill(atlas: &mut AtlasAllocator) {
    let _ = atlas.allocate(size2(6, 8));
}

fn dumped_of_buckets(alloc: Global, writer: &mut FakeWriter) -> Result<(), Stopped> {
    match small_buckets(alloc) {
        Some(atlas) => of_writer(atlas.dump_svg(writer)),
        None => Err(Stopped::NoMemory),
    }
}

fn small_buckets(alloc: Global) -> Option<BucketedAtlasAllocator> {
    let mut atlas = BucketedAtlasAllocator::new(alloc, size2(16, 16)).ok()?;
    fill_buckets(&mut atlas);
    Some(atlas)
}

fn fill_buckets(atlas: &mut BucketedAtlasAllocator) {
    let _ = atlas.allocate(size2(10, 8));
}

fn sent(writer: &mut FakeWriter) -> Result<(), Stopped> {
    of_writer(send(b"placed", writer))
}
