//! An atlas whose calls are written down as a script, which `./etagere` looks into later.

ghost use Rattle.std.specs.Prelude.{◌≡◌, ◌↔◌, IfNone, IfOk, IfSome, IsErr, OnErr, OnOk, false};
ghost use Rattle.etagere_base.specs.Frames.{atlas_frame};
ghost use Rattle.shelf_model.specs.Atlas.{Allocates};
ghost use Rattle.shelf_model.specs.Choice.{IsRefused};
ghost use Rattle.shelf_model.specs.Fresh.{fresh};
ghost use Rattle.shelf_model.specs.Growing.{atlas_grown};
ghost use Rattle.shelf_model.specs.Places.{is_allocated};
ghost use Rattle.shelf_model.specs.Returning.{returned};

use etagere::{
    AllocId, Allocation, AllocatorOptions, AtlasAllocator, AtlasGrowFault, OptionsFault, Size,
    UnknownId,
};
use std::alloc::{AllocError, Global};

/// A script as far as it is written.
#[derive(Drop)]
struct Script {
    text: String,
    /// The position of the next command.
    next: u32,
    /// By the index of each allocation the position of the command that gave it.
    positions: Vec<u32>,
}

/// An atlas whose calls are written down, a line for each; a replay of the script answers as they did.
///
/// The calls answer as those of the atlas. Where there is no memory for the script, it is given up: `finish` has none.
#[derive(Drop)]
pub struct Recorder {
    pub atlas: AtlasAllocator,
    script: Option<Script>,
}

impl Script {
    /// The header of a script.
    fn begun(alloc: Global, size: Size, options: &AllocatorOptions) -> Result<Script, AllocError> {
        let direction = if options.vertical_shelves { 'v' } else { 'h' };
        let (alignment, columns) = (options.alignment, options.num_columns);
        let mut text = String::new(alloc);
        writeln!(
            text,
            "atlas {} {} {} {} {columns} {direction}",
            size.width, size.height, alignment.width, alignment.height
        )?;
        Ok(Script {
            text,
            next: 0,
            positions: Vec::new(alloc),
        })
    }

    /// Goes on to the next command.
    fn step(&mut self) -> Result<(), AllocError> {
        self.next = self.next.checked_add(1).ok_or(AllocError)?;
        Ok(())
    }

    /// Keeps the position of the next command under an index.
    fn keep_position(&mut self, index: usize) -> Result<(), AllocError> {
        for _ in self.positions.len()..=index {
            self.positions.push(0)?;
        }
        if let Some(position) = self.positions.get_mut(index) {
            *position = self.next;
        }
        Ok(())
    }

    fn add_allocate(&mut self, size: Size, index: Option<u32>) -> Result<(), AllocError> {
        writeln!(self.text, "a {} {}", size.width, size.height)?;
        if let Some(index) = index {
            self.keep_position(index as usize)?;
        }
        self.step()
    }

    /// Adds a command that names a position: for an id that isn't known its own, where nothing is ever live.
    fn add_named(&mut self, letter: char, index: Option<u32>) -> Result<(), AllocError> {
        let named = match index {
            Some(index) => self.positions.get(index as usize).copied(),
            None => None,
        };
        let position = named.unwrap_or(self.next);
        writeln!(self.text, "{letter} {position}")?;
        self.step()
    }

    fn add_grow(&mut self, size: Size) -> Result<(), AllocError> {
        writeln!(self.text, "g {} {}", size.width, size.height)?;
        self.step()
    }

    fn add_clear(&mut self) -> Result<(), AllocError> {
        writeln!(self.text, "c")?;
        self.step()
    }
}

impl Recorder {
    /// An empty atlas, and a script of its header. Returns the fault of `AtlasAllocator::with_options`.
    pub fn new(
        alloc: Global,
        size: Size,
        options: &AllocatorOptions,
    ) -> Result<Recorder, OptionsFault>
        ensures { IfOk result (λ recorder. recorder.atlas ≡ fresh (atlas_frame size options.now)) }
    {
        let atlas = AtlasAllocator::with_options(alloc, size, options)?;
        let script = Script::begun(alloc, size, options).ok();
        Ok(Recorder { atlas, script })
    }

    /// Gives the script up where a line had no memory.
    fn keep(&mut self, went: Result<(), AllocError>)
        ensures { self.new.atlas ≡ self.old.atlas }
    {
        if went.is_err() {
            self.script = None;
        }
    }

    /// Allocates, written as `a`. What finds no memory isn't written: a replay may find some.
    pub fn allocate(&mut self, size: Size) -> Result<Option<Allocation>, AllocError>
        ensures placed { IfOk result (λ answer. IfSome answer
            (λ allocation. Allocates self.old.atlas size allocation self.new.atlas)) }
        ensures refused { IfOk result (λ answer. IfNone answer (IsRefused self.old.atlas size)) }
        ensures none { IfOk result (λ answer. IfNone answer (self.new.atlas ≡ self.old.atlas)) }
        ensures err { OnErr result (self.new.atlas ≡ self.old.atlas) }
    {
        let answer = self.atlas.allocate(size)?;
        let index = match &answer {
            Some(allocation) => self.atlas.get_index(allocation.id),
            None => None,
        };
        let went = match &mut self.script {
            Some(script) => script.add_allocate(size, index),
            None => Ok(()),
        };
        self.keep(went);
        Ok(answer)
    }

    /// Gives back, written as `r`; of an id that isn't known too.
    pub fn deallocate(&mut self, id: AllocId) -> Result<(), UnknownId>
        ensures ok { OnOk result (self.new.atlas ≡ returned self.old.atlas id) }
        ensures unknown { IsErr result ↔ (is_allocated self.old.atlas id ≡ false) }
        ensures err { OnErr result (self.new.atlas ≡ self.old.atlas) }
    {
        let index = self.atlas.get_index(id);
        let went = match &mut self.script {
            Some(script) => script.add_named('r', index),
            None => Ok(()),
        };
        self.keep(went);
        self.atlas.deallocate(id)
    }

    /// Makes the atlas larger, written as `g` where it isn't refused for memory.
    pub fn grow(&mut self, size: Size) -> Result<(), AtlasGrowFault>
        ensures ok { OnOk result (self.new.atlas ≡ atlas_grown self.old.atlas size) }
        ensures err { OnErr result (self.new.atlas ≡ self.old.atlas) }
    {
        let answer = self.atlas.grow(size);
        if answer == Err(AtlasGrowFault::Memory) {
            return answer;
        }
        let went = match &mut self.script {
            Some(script) => script.add_grow(size),
            None => Ok(()),
        };
        self.keep(went);
        answer
    }

    /// Takes everything back, written as `c`.
    pub fn clear(&mut self)
        ensures { self.new.atlas ≡ fresh self.old.atlas.frame }
    {
        self.atlas.clear();
        let went = match &mut self.script {
            Some(script) => script.add_clear(),
            None => Ok(()),
        };
        self.keep(went);
    }

    /// The script, or none where it had no memory.
    pub fn finish(self) -> Option<String> {
        let Recorder { atlas, script } = self;
        drop(atlas);
        Some(script?.text)
    }
}
