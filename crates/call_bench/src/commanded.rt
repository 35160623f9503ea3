//! An atlas of either kind, and the call that a command makes.

use etagere::{AllocId, AtlasAllocator, BucketedAtlasAllocator};
use run_scripts::commands::{AtlasCommand, BucketedCommand};
use std::alloc::{AllocError, Global};
use std::io::{self, Write};

/// An atlas that is commanded: each command makes a call of it.
pub trait Commanded {
    type Command: Copy;

    /// Makes the call of a command, and gives the id of what it was given. `ids` has those of the commands before.
    fn call(
        &mut self,
        command: Self::Command,
        ids: &[Option<AllocId>],
    ) -> Result<Option<AllocId>, AllocError>;

    /// Saves the atlas.
    fn save(&self) -> anyhow::Result<()>;

    /// Saves the atlas, and makes another from that.
    fn restore(&self, alloc: Global) -> anyhow::Result<()>;

    /// Draws the atlas for nobody.
    fn draw(&self) -> anyhow::Result<()>;
}

impl Commanded for AtlasAllocator {
    type Command = AtlasCommand;

    fn call(
        &mut self,
        command: AtlasCommand,
        ids: &[Option<AllocId>],
    ) -> Result<Option<AllocId>, AllocError> {
        match command {
            AtlasCommand::Allocate(size) => return Ok(self.allocate(size)?.map(|it| it.id)),
            AtlasCommand::Return(other) => {
                if let Some(id) = id_at(ids, other) {
                    let _ = self.deallocate(id);
                }
            }
            AtlasCommand::Look(other) => {
                if let Some(id) = id_at(ids, other) {
                    let _ = self.get(id);
                }
            }
            AtlasCommand::Grow(size) => {
                let _ = self.grow(size);
            }
            AtlasCommand::Clear => self.clear(),
        }
        Ok(None)
    }

    fn save(&self) -> anyhow::Result<()> {
        self.snapshot()?;
        Ok(())
    }

    fn restore(&self, alloc: Global) -> anyhow::Result<()> {
        AtlasAllocator::restore(alloc, self.snapshot()?)?;
        Ok(())
    }

    fn draw(&self) -> anyhow::Result<()> {
        self.dump_svg(&mut Nowhere)?;
        Ok(())
    }
}

impl Commanded for BucketedAtlasAllocator {
    type Command = BucketedCommand;

    fn call(
        &mut self,
        command: BucketedCommand,
        ids: &[Option<AllocId>],
    ) -> Result<Option<AllocId>, AllocError> {
        match command {
            BucketedCommand::Allocate(size) => return Ok(self.allocate(size)?.map(|it| it.id)),
            BucketedCommand::Return(other) => {
                if let Some(id) = id_at(ids, other) {
                    let _ = self.deallocate(id);
                }
            }
            BucketedCommand::Grow(size) => {
                let _ = self.grow(size);
            }
            BucketedCommand::Clear => self.clear(),
        }
        Ok(None)
    }

    fn save(&self) -> anyhow::Result<()> {
        self.snapshot()?;
        Ok(())
    }

    fn restore(&self, alloc: Global) -> anyhow::Result<()> {
        BucketedAtlasAllocator::restore(alloc, self.snapshot()?)?;
        Ok(())
    }

    fn draw(&self) -> anyhow::Result<()> {
        self.dump_svg(&mut Nowhere)?;
        Ok(())
    }
}

/// A writer that takes everything and keeps nothing.
#[derive(Drop)]
struct Nowhere;

impl Write for Nowhere {
    fn write(&mut self, buf: &[u8]) -> io::Result<usize> {
        Ok(buf.len())
    }

    fn flush(&mut self) -> io::Result<()> {
        Ok(())
    }
}

/// The id that the command at a position was given, if any.
fn id_at(ids: &[Option<AllocId>], position: usize) -> Option<AllocId> {
    *ids.get(position)?
}
