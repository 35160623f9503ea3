//! The public calls of an atlas. Each is thin: it looks up what it needs, and then changes the records by one call.
//!
//! Definitions: `Atlas` for what the clauses say, `State` for what they see, `Consistent` for what the
//! fields keep. The clauses stay as they are: callers prove by them. Fields may change, with `state_in`
//! and `IsConsistent`.

ghost use Rattle.std.specs.Prelude.{◌≡◌, ℕ, ◌↔◌, ◌*◌, ◌-◌, ◌+ℤ◌, [], Err, None, Some, true, false, ◌≤◌, pos, IfOk, IfErr, IfSome, IfNone, OnOk, OnErr, IsErr, IsTrue, is_some, length, map, option_map};
ghost use Rattle.std.specs.Io.KnownBytes.{Appends};
ghost use Rattle.etagere_base.specs.Frames as frames;
ghost use Rattle.etagere_base.specs.Frames.{IsAccepted, longest_side, options_fault};
ghost use Rattle.etagere_base.specs.Options.{default_options};
ghost use Rattle.etagere_base.specs.declared.faults.OptionsFault.TheVariants as faults;
ghost use Rattle.pictures.specs.Sending.{AppendsBeginning};
ghost use Rattle.shelf_model.specs.Atlas.{Adds, Allocates, KeepsPromises, NeedsSplit, Restores, without_id};
ghost use Rattle.shelf_model.specs.ById.{IsClear, KeepsRectangles, TakesAway, Undoes};
ghost use Rattle.shelf_model.specs.Callers.{AreTied};
ghost use Rattle.shelf_model.specs.Choice.{IsRefused, placement_of};
ghost use Rattle.shelf_model.specs.Fresh.{fresh};
ghost use Rattle.shelf_model.specs.Growing.{atlas_grown, grow_fault, records_needed};
ghost use Rattle.shelf_model.specs.declared.faults.AtlasGrowFault.TheVariants as grow_faults;
ghost use Rattle.shelf_model.specs.Listing.{RiseFrom, listed};
ghost use Rattle.shelf_model.specs.Refusal as refusals;
ghost use Rattle.shelf_model.specs.Places as places;
ghost use Rattle.shelf_model.specs.Places.{allocations, is_allocated};
ghost use Rattle.etagere_base.specs.Rectangles.{IsLarge};
ghost use Rattle.shelf_heights.specs.Private.ByHeight.{AreByHeight};
ghost use Rattle.shelf_records.specs.Private.Kept.{AreKept};
ghost use Rattle.shelf_notes.specs.Private.SecondWidths.{second_at};
ghost use Rattle.shelf_store.specs.Private.Settling.{AreSettled};
ghost use Rattle.shelf_model.specs.Returning.{returned};
ghost use Rattle.shelf_records.specs.AtlasRecords.{state_spelled};
ghost use Rattle.shelf_records.specs.Snapshots.{IsBroken, snapshot_records};
ghost use Rattle.shelf_model.specs.Space as space;
ghost use Rattle.shelf_records.specs.StandsFor.{StandsFor};
ghost use Rattle.shelf_model.specs.State as state;
ghost use Rattle.shelf_model.specs.Svg.{drawn_items, svg, svg_into};
ghost use Rattle.shelf_model.specs.Usage as usages;
ghost use Rattle.etagere_shelves.specs.Plain.{allocation_in, rectangle_in};

use crate::listing::Iter;
use crate::plain::PlainAllocation;
use crate::restored::restore_atlas;
use crate::walking::walk_or_settle;
use etagere_base::{
    AllocId, Allocation, AllocatorOptions, DEFAULT_OPTIONS, Frame, LONGEST_SIDE, OptionsFault,
    Rectangle, RestoreFault, Size, UnknownId, asked, atlas_frame, grown_frame, options_fault, side,
};
use pictures::{GatheredText, Pictured, send_document, send_into};
use shelf_heights::by_height::ShelvesByHeight;
use shelf_model::faults::{AtlasGrowFault, Refusal};
use shelf_model::usage::Usage;
use shelf_notes::pending::PendingShelves;
use shelf_notes::second_widths::SecondWidths;
use shelf_records::Records;
use shelf_records::snapshots::snapshot_of;
use shelf_restoring::loaded_atlas::LoadedAtlas;
use shelf_search::asking::refusal;
use shelf_search::choosing::{MOST_ITEMS, fits_when_empty, placement_of, shelf_height};
use shelf_search::drawing::push_shelves;
use shelf_search::looking::{index_of, number_of, recorded_area, recorded_shelf, rectangle_of};
use shelf_search::tallying::{largest_free, usage};
use shelf_store::growing::counting::needed_for;
use shelf_store::growing::{grow_shelves, size_fault};
use shelf_store::returning::return_item;
use shelf_store::settling::noting::{settle_all_notes, settled_notes, unknown_seconds};
use shelf_store::settling::settle_shelves;
use shelf_store::starting::{fresh_by_height, fresh_records, reset_by_height, reset_records};
use shelf_store::taking::take_found;
use snapshot_records::shelves::AtlasSnapshot;
use std::alloc::{AllocError, Global};
use std::io::{self, Write};
use std::marker::Model;

/// Places rectangles on the shelves of one atlas, and takes them back in any order.
///
/// Each shelf is a strip across a column of the atlas, split into items side by side. A size goes to the shortest
/// shelf that is tall enough and either empty or not much too tall; where there is none, to the first that is tall
/// enough. An empty shelf that is much too tall is split.
/// Neighbours that are free become one again.
///
/// ```text
/// let mut atlas = AtlasAllocator::new(alloc, size2(1000, 1000))?;
/// let a = atlas.allocate(size2(100, 100))?;     // Some: (0,0)-(100,112)
/// let b = atlas.allocate(size2(900, 200))?;     // Some: (0,112)-(900,336)
/// ```
#[derive(Drop)]
pub struct AtlasAllocator {
    frame: Frame,
    records: Records,
    by_height: ShelvesByHeight,
    pending: PendingShelves,
    seconds: SecondWidths,
    items_in_use: u32,
    allocated_space: u32,
}

impl Model for AtlasAllocator {
    ghost use Rattle.shelf_model.specs.State.{AtlasState};

    ghost Value = { AtlasState };

    ghost use Rattle.etagere_shelves.specs.Private.Consistent.{IsConsistent, state_in};

    ghost view = { state_in };

    ghost invariant = { IsConsistent };
}

impl AtlasAllocator {
    /// An empty atlas of this size in pixels, with the default options.
    ///
    /// Returns the first fault; `Memory` only where there is no other and no memory. Takes memory for the records of
    /// 16 shelves and 16 items, and for as many entries in the list by height, each with a note and a width. Takes
    /// constant time.
    pub fn new(alloc: Global, size: Size) -> Result<AtlasAllocator, OptionsFault>
        ensures ok { IfOk result
            (λ atlas. atlas ≡ fresh (frames.atlas_frame size default_options)) }
        ensures empty { IfOk result (λ atlas. allocations atlas ≡ []) }
        ensures accepted { OnOk result (IsAccepted longest_side size default_options) }
        ensures promises { IfOk result KeepsPromises }
        ensures fault { IfSome (options_fault longest_side size default_options)
            (λ fault. result ≡ Err fault) }
        ensures memory { IfErr result
            (λ fault. IsAccepted longest_side size default_options → fault ≡ faults.Memory) }
    {
        AtlasAllocator::with_options(alloc, size, &DEFAULT_OPTIONS)
    }

    /// An empty atlas of this size in pixels.
    ///
    /// Returns the first fault; `Memory` only where there is no other and no memory. Takes memory for the records of a
    /// shelf and its item in each column, and for the shelf's entry in the list by height with a note and a width, for
    /// 16 of each at least. Goes through the columns.
    pub fn with_options(
        alloc: Global,
        size: Size,
        options: &AllocatorOptions,
    ) -> Result<AtlasAllocator, OptionsFault>
        ensures ok { IfOk result (λ atlas. atlas ≡ fresh (frames.atlas_frame size options.now)) }
        ensures empty { IfOk result (λ atlas. allocations atlas ≡ []) }
        ensures accepted { OnOk result (IsAccepted longest_side size options.now) }
        ensures promises { IfOk result KeepsPromises }
        ensures fault { IfSome (options_fault longest_side size options.now)
            (λ fault. result ≡ Err fault) }
        ensures memory { IfErr result
            (λ fault. IsAccepted longest_side size options.now → fault ≡ faults.Memory) }
    {
        if let Some(fault) = options_fault(LONGEST_SIDE, size, options) {
            return Err(fault);
        }
        let frame = atlas_frame(size, options);
        let Ok(records) = fresh_records(alloc, &frame) else {
            return Err(OptionsFault::Memory);
        };
        let Ok(by_height) = fresh_by_height(alloc, &frame) else {
            return Err(OptionsFault::Memory);
        };
        let Ok(pending) = settled_notes(alloc, &records, &by_height) else {
            return Err(OptionsFault::Memory);
        };
        let Ok(seconds) = unknown_seconds(alloc, &records) else {
            return Err(OptionsFault::Memory);
        };
        Ok(AtlasAllocator {
            frame,
            records,
            by_height,
            pending,
            seconds,
            items_in_use: frame.columns,
            allocated_space: 0,
        })
    }

    /// Makes an atlas from a snapshot, whoever wrote it. Where the snapshot keeps every rule, the atlas is in the state
    /// for which it stands.
    ///
    /// Returns a rule that the snapshot breaks; `Memory` only where there was no memory. The snapshot is consumed
    /// either way. Its records are made anew, so for a while there is memory for them twice. Takes some more for each
    /// record while it runs, and for an entry in the list by height with a note and a width for each shelf record, used
    /// or not. The time is linear in the number of records, but for a sort of the shelves in use.
    pub fn restore(alloc: Global, snapshot: AtlasSnapshot) -> Result<AtlasAllocator, RestoreFault>
        ensures ok { IfOk result (λ atlas. StandsFor (snapshot_records snapshot) atlas) }
        ensures fault { IfErr result (IsBroken (snapshot_records snapshot)) }
        ensures promises { IfOk result KeepsPromises }
    {
        let mut steps = 0;
        restore_atlas(alloc, snapshot, &mut steps)
    }

    /// The atlas of a snapshot that keeps all rules, with these shelves, notes of them, and so many items in use.
    pub(crate) fn of_judged(
        atlas: LoadedAtlas,
        by_height: ShelvesByHeight,
        pending: PendingShelves,
        seconds: SecondWidths,
        items_in_use: u32,
    ) -> AtlasAllocator
        requires kept { AreKept atlas.frame atlas.records }
        requires by_height { AreByHeight atlas.frame atlas.records by_height.items }
        requires settled { AreSettled atlas.records pending.notes }
        requires seconds { (k : ℕ) → second_at seconds k ≡ 65535 }
        requires room { length atlas.records.shelves ≤ by_height.capacity }
        requires room_to_note { length atlas.records.shelves ≤ pending.room }
        requires space { atlas.allocated_space ≡ pos (space.space_in (state_spelled atlas).shelves) }
        requires items { items_in_use ≡ state.items_in_use (state_spelled atlas).shelves }
        ensures state { result ≡ state_spelled atlas }
        ensures promises { KeepsPromises result }
    {
        let allocated_space = side(atlas.allocated_space);
        AtlasAllocator {
            frame: atlas.frame,
            records: atlas.records,
            by_height,
            pending,
            seconds,
            items_in_use,
            allocated_space,
        }
    }

    /// The present size of the atlas in pixels. Takes constant time.
    pub fn size(&self) -> Size
        ensures promises { KeepsPromises self.now }
        ensures size { result
            ≡ record { width = pos self.now.frame.width; height = pos self.now.frame.height } }
    {
        Size {
            width: self.frame.width as i32,
            height: self.frame.height as i32,
        }
    }

    /// Gives a rectangle that is at least as large as the size in pixels, or none where there is no room.
    ///
    /// `Err` comes only where the item or shelf must be split, too few records are unused for that, and there was no
    /// memory. After an `Err` or none nothing has changed. Memory is taken only for records that are made: of items,
    /// and of a shelf with its entry in the list by height, a note and a width, for which there is then room for a quarter
    /// more, and for 16 at least. A split for which there are unused records takes none, nor does a size that needs no split.
    ///
    /// Finds the first shelf that is tall enough where it did last time, or by binary search, and goes on by height; of
    /// each shelf that may have an item wide enough it searches the free list up to the first that is. Where all that fit
    /// are much too tall, it looks at the first such shelf of each height, and searches the free list of the earliest.
    /// Before that the list by height follows the shelves that were split or merged since the last search: each goes where
    /// it belongs by binary search, and an end of the list moves; many are sorted anew. In the first searches after a
    /// change all shelves are gone through instead where no more than some dozen are listed, or a dozen for each that has
    /// changed, along no more than 128 free items; of more than 96 the first 16, and eight more for each that has changed,
    /// where more than two have or one of just the height was among these of late. Where all would be sorted anew, up to
    /// three searches in turn go through all shelves instead, along no more than 1024 free items. Those whose free items
    /// are all narrower than what was asked for of late stay out of a long list; where some do, what is as narrow has all
    /// shelves sorted anew, the more rarely the more often it came.
    #[inline(always)]
    pub fn allocate(&mut self, size: Size) -> Result<Option<Allocation>, AllocError>
        ensures placed { IfOk result
            (λ answer. IfSome answer (λ allocation. Allocates self.old size allocation self.new)) }
        ensures refused { IfOk result (λ answer. IfNone answer (IsRefused self.old size)) }
        ensures none { IfOk result (λ answer. IfNone answer (self.new ≡ self.old)) }
        ensures err { OnErr result (self.new ≡ self.old) }
        ensures split { OnErr result (NeedsSplit self.old size) }
        ensures allocated { IfOk result
            (λ answer. IfSome answer
            (λ allocation. Adds (allocations self.old) allocation (allocations self.new))) }
        ensures found { IfOk result
            (λ answer. IfSome answer
            (λ allocation. places.rectangle_of self.new allocation.id
            ≡ Some allocation.rectangle)) }
        ensures kept { KeepsRectangles self.old self.new }
        ensures clear { IfOk result
            (λ answer. IfSome answer (λ allocation. IsClear self.old allocation.rectangle)) }
        ensures large { IfOk result
            (λ answer. IfSome answer
            (λ allocation. IsLarge self.old.frame size allocation.rectangle)) }
        ensures promises { KeepsPromises self.new }
    {
        let mut given = PlainAllocation::NOTHING;
        if self.allocate_to(size, &mut given)? {
            Ok(Some(given.allocation()))
        } else {
            Ok(None)
        }
    }

    /// Allocates as `allocate` does, for callers that keep what is given in numbers alone: writes it to `allocation`, and
    /// says whether there was room.
    ///
    /// After an `Err` or `false` nothing has changed, `allocation` included. Errors, memory and time are those of
    /// `allocate`, and the answer isn't copied.
    pub fn allocate_to(
        &mut self,
        size: Size,
        allocation: &mut PlainAllocation,
    ) -> Result<bool, AllocError>
        ensures placed { IfOk result
            (λ has_room. has_room ≡ true
            → Allocates self.old size (allocation_in allocation.new) self.new) }
        ensures refused { IfOk result (λ has_room. has_room ≡ false → IsRefused self.old size) }
        ensures none { IfOk result (λ has_room. has_room ≡ false → self.new ≡ self.old) }
        ensures unwritten { IfOk result
            (λ has_room. has_room ≡ false → allocation.new ≡ allocation.old) }
        ensures err { OnErr result (self.new ≡ self.old) }
        ensures err_unwritten { OnErr result (allocation.new ≡ allocation.old) }
        ensures split { OnErr result (NeedsSplit self.old size) }
        ensures allocated { IfOk result
            (λ has_room. has_room ≡ true
            → Adds (allocations self.old) (allocation_in allocation.new) (allocations self.new)) }
        ensures found { IfOk result
            (λ has_room. has_room ≡ true
            → places.rectangle_of self.new allocation.new.id
            ≡ Some (rectangle_in allocation.new.rectangle)) }
        ensures kept { KeepsRectangles self.old self.new }
        ensures clear { IfOk result
            (λ has_room. has_room ≡ true
            → IsClear self.old (rectangle_in allocation.new.rectangle)) }
        ensures large { IfOk result
            (λ has_room. has_room ≡ true
            → IsLarge self.old.frame size (rectangle_in allocation.new.rectangle)) }
        ensures promises { KeepsPromises self.new }
    {
        let Some(sides) = asked(&self.frame, size) else {
            return Ok(false);
        };
        let height = shelf_height(&self.frame, sides.across);
        let walked = walk_or_settle(
            &self.frame,
            &self.records,
            &mut self.by_height,
            &mut self.pending,
            sides.along,
            height,
        );
        let found = placement_of(
            &self.frame,
            &self.records,
            &mut self.by_height,
            walked,
            self.items_in_use,
            sides,
            height,
        );
        let Some(placement) = found else {
            return Ok(false);
        };
        let rectangle = placement.rectangle(&self.frame);
        let column_width = self.frame.column_width as u16;
        let id = take_found(
            &mut self.records,
            &mut self.by_height,
            &mut self.pending,
            &mut self.seconds,
            &placement,
            column_width,
        )?;
        self.items_in_use += placement.splits();
        self.allocated_space += placement.area();
        *allocation = PlainAllocation::of(Allocation { id, rectangle });
        Ok(true)
    }

    /// Whether the atlas, with its present size and columns, would have room for a size in pixels if it were empty.
    ///
    /// Takes no memory, and constant time.
    pub fn fits_when_empty(&self, size: Size) -> bool
        ensures { result ≡ is_some (placement_of (fresh self.now.frame) size) }
    {
        fits_when_empty(&self.frame, size)
    }

    /// Why a size in pixels has no place; none exactly where `allocate` has one, memory aside. The first reason that
    /// holds is given.
    ///
    /// Takes no memory, and changes nothing. Takes constant time where the size alone is the reason. Else it goes
    /// through all shelves once, and along the free list of each that is tall enough; and once more where fewer than two
    /// records are unused.
    pub fn refusal(&self, size: Size) -> Option<Refusal>
        ensures { result ≡ refusals.refusal self.now size }
    {
        refusal(&self.frame, &self.records, self.items_in_use, size)
    }

    /// How full the atlas is: how many shelves and items there are, how many more items there can be, and the largest
    /// item that is free.
    ///
    /// Takes no memory, and changes nothing. Goes once through all shelves, and along their free lists.
    pub fn usage(&self) -> Usage
        ensures { result ≡ usages.usage self.now }
    {
        usage(&self.frame, &self.records, self.items_in_use)
    }

    /// The widest item along the shelves that some shelf has free, and of equally wide ones the tallest, in pixels; 0x0
    /// where none is free. Where shelves are vertical, it is the longest along y, and of equally long ones the broadest.
    ///
    /// A size as large may be refused, where its rounded height is above that of the shelf: `refusal` tells. Takes no
    /// memory, and changes nothing. Goes once through all shelves, and along their free lists.
    pub fn largest_free(&self) -> Size
        ensures { result ≡ usages.largest_free self.now }
    {
        largest_free(&self.frame, &self.records)
    }

    /// Takes back the rectangle that is allocated under an id, and merges what is free with its neighbours.
    ///
    /// `Err` comes exactly where nothing is allocated under the id; then nothing changes. Takes no memory. It looks at
    /// the record of the id, and at those beside it and its shelf, whose entry in the list by height it finds at once
    /// or by binary search. Which shelves merge is only noted, and one that is emptied after that may be: the next
    /// allocation moves them in that list.
    pub fn deallocate(&mut self, id: AllocId) -> Result<(), UnknownId>
        ensures ok { OnOk result (self.new ≡ returned self.old id) }
        ensures unknown { IsErr result ↔ (is_allocated self.old id ≡ false) }
        ensures err { OnErr result (self.new ≡ self.old) }
        ensures allocated { OnOk result
            (allocations self.new ≡ without_id id (allocations self.old)) }
        ensures away { OnOk result (TakesAway self.old id self.new) }
        ensures undoes { OnOk result (Undoes self.old id self.new) }
        ensures restores { OnOk result (Restores self.old id self.new) }
        ensures promises { KeepsPromises self.new }
    {
        let Some(number) = number_of(&self.records, id) else {
            return Err(UnknownId);
        };
        let shelf = recorded_shelf(&self.records, number);
        let area = recorded_area(&self.records, shelf, number);
        self.allocated_space -= area;
        self.pending.unpark(shelf);
        self.items_in_use -= return_item(
            &mut self.records,
            &mut self.by_height,
            &mut self.pending,
            &mut self.seconds,
            shelf,
            number,
        );
        Ok(())
    }

    /// The rectangle that is allocated under an id, as it was given; none exactly where nothing is.
    ///
    /// Takes no memory, and constant time.
    pub fn get(&self, id: AllocId) -> Option<Rectangle>
        ensures { result ≡ places.rectangle_of self.now id }
    {
        rectangle_of(&self.frame, &self.records, id)
    }

    /// The index (the number of its record) of what is allocated under an id, which it keeps as long as it is
    /// allocated; none exactly where nothing is. An index is small: it is below the count of records.
    ///
    /// Takes no memory, and constant time.
    pub fn get_index(&self, id: AllocId) -> Option<u32>
        ensures { result ≡ places.index_of self.now id }
    {
        index_of(&self.records, id)
    }

    /// The atlas as it is saved: its frame and all its records, unused ones too.
    ///
    /// The error comes only where there was no memory. Takes memory for all records, and goes through them.
    pub fn snapshot(&self) -> Result<AtlasSnapshot, AllocError>
        ensures { IfOk result (λ snapshot. StandsFor (snapshot_records snapshot) self.now) }
    {
        snapshot_of(&self.frame, &self.records, self.allocated_space)
    }

    /// Everything that is allocated, each once, by rising index, and then none for ever.
    ///
    /// Takes no memory. All steps together take time linear in the count of records.
    pub fn iter(&self) -> Iter<'_>
        ensures listed { result ≡ listed self.now }
        ensures each { AreTied result (allocations self.now) }
        ensures rising { RiseFrom 0
            (map (λ allocation. places.record_number allocation.id) result) }
        ensures promises { KeepsPromises self.now }
    {
        Iter::new(&self.frame, &self.records)
    }

    /// Makes the atlas larger, to this size in pixels. What is allocated keeps its place, its id and its record.
    ///
    /// With one column, each shelf becomes wider at its end, as far as the alignment allows; with more, there are as
    /// many columns as fit. Each column becomes taller at its end. What is added is free, and merges with what is free
    /// before it.
    ///
    /// Returns the first fault; `Memory` only where there is no other, the grow needs records and there was no
    /// memory. Nothing changes after a fault. Takes memory for the records that it needs as far as too few are unused,
    /// and for entries in the list by height, notes and widths of shelf records that are made. Where no column becomes wider or
    /// taller and none is added, it takes constant time, once the list by height follows as in `allocate`. Else it
    /// goes through all shelves, for wider columns through all items too, and then sorts the shelves.
    pub fn grow(&mut self, size: Size) -> Result<(), AtlasGrowFault>
        ensures ok { OnOk result (self.new ≡ atlas_grown self.old size) }
        ensures fault { IfSome (grow_fault self.old size) (λ fault. result ≡ Err fault) }
        ensures memory { IfErr result
            (λ fault. grow_fault self.old size ≡ None
            → (fault ≡ grow_faults.Memory) × (1 ≤ records_needed self.old size)) }
        ensures err { OnErr result (self.new ≡ self.old) }
        ensures allocated { OnOk result (allocations self.new ≡ allocations self.old) }
        ensures promises { KeepsPromises self.new }
    {
        if let Some(fault) = size_fault(&self.frame, size) {
            return Err(fault);
        }
        let grown = grown_frame(&self.frame, size);
        let needed = needed_for(&self.frame, &grown, &self.records);
        if needed.items > MOST_ITEMS - self.items_in_use {
            return Err(AtlasGrowFault::Records);
        }
        settle_shelves(
            &self.frame,
            &self.records,
            &mut self.by_height,
            &mut self.pending,
        );
        let done = grow_shelves(
            &mut self.records,
            &mut self.by_height,
            &mut self.pending,
            &mut self.seconds,
            &self.frame,
            &grown,
            needed,
        );
        if done.is_err() {
            return Err(AtlasGrowFault::Memory);
        }
        self.frame = grown;
        self.items_in_use += needed.items;
        Ok(())
    }

    /// Takes everything back at once: the atlas is as new, with its present size and columns.
    ///
    /// Takes no memory. Goes through the columns.
    pub fn clear(&mut self)
        ensures cleared { self.new ≡ fresh self.old.frame }
        ensures empty { allocations self.new ≡ [] }
        ensures promises { KeepsPromises self.new }
    {
        reset_records(&self.frame, &mut self.records);
        reset_by_height(&self.frame, &mut self.by_height);
        settle_all_notes(&self.records, &mut self.pending);
        self.seconds.restart(self.frame.columns as usize);
        self.items_in_use = self.frame.columns;
        self.allocated_space = 0;
    }

    /// Whether nothing is allocated. Takes constant time.
    pub fn is_empty(&self) -> bool
        ensures { IsTrue result ↔ (allocations self.now ≡ []) }
    {
        self.allocated_space == 0
    }

    /// The areas of everything that is allocated, added up, in square pixels. Takes constant time.
    pub fn allocated_space(&self) -> i32
        ensures space { result ≡ pos (space.allocated_space self.now) }
        ensures promises { KeepsPromises self.now }
    {
        self.allocated_space as i32
    }

    /// The area of the atlas less what is allocated, in square pixels. Takes constant time.
    pub fn free_space(&self) -> i32
        ensures free { result ≡ pos
            (self.now.frame.width * self.now.frame.height - space.allocated_space self.now) }
        ensures sum { result +ℤ pos (space.allocated_space self.now) ≡ pos
            (self.now.frame.width * self.now.frame.height) }
        ensures promises { KeepsPromises self.now }
    {
        (self.frame.width * self.frame.height - self.allocated_space) as i32
    }

    /// Writes an SVG document that shows the atlas and every item, in pixels: what is allocated is blue, what is
    /// free grey.
    ///
    /// A fault is the writer's, or `WriteZero` where it accepts no byte; then a beginning of the text has gone
    /// out. Takes no memory. Goes through the items once.
    pub fn dump_svg<W: Write>(&self, output: &mut W) -> io::Result<()>
        ensures ok { OnOk result
            (Appends (W.contents output.old) (W.contents output.new) (svg self.now)) }
        ensures err { OnErr result
            (AppendsBeginning (W.contents output.old) (W.contents output.new) (svg self.now)) }
    {
        send_document(self, output)
    }

    /// Writes the picture of `dump_svg` for a place within a larger SVG document: at the origin, or moved and
    /// scaled to fill a rectangle. Where a side of the rectangle isn't positive, nothing is written.
    ///
    /// A fault is the writer's, or `WriteZero` where it accepts no byte; then a beginning of the text has gone
    /// out. Takes no memory. Goes through the items once.
    pub fn dump_into_svg<W: Write>(
        &self,
        rectangle: Option<&Rectangle>,
        output: &mut W,
    ) -> io::Result<()>
        ensures ok { OnOk result
            (Appends (W.contents output.old) (W.contents output.new)
            (svg_into self.now (option_map (λ rectangle. rectangle.now) rectangle.entry))) }
        ensures err { OnErr result
            (AppendsBeginning (W.contents output.old) (W.contents output.new)
            (svg_into self.now (option_map (λ rectangle. rectangle.now) rectangle.entry))) }
    {
        send_into(self, rectangle, output)
    }
}

impl Pictured for AtlasAllocator {
    ghost framed = { λ atlas. atlas.frame };

    ghost shown = { drawn_items };

    fn frame(&self) -> &Frame {
        &self.frame
    }

    fn push_shown<W: Write>(&self, text: &mut GatheredText, writer: &mut W) -> io::Result<()> {
        push_shelves(text, &self.frame, &self.records, writer)
    }
}

impl Clone for AtlasAllocator {
    ghost is_clone = { λ atlas other. other ≡ atlas };

    /// An atlas that equals this one, its ids and its later answers too, and shares nothing with it.
    ///
    /// The error comes only where there was no memory. Takes memory for all records, and for the list of shelves by
    /// height with its notes and widths, and goes through them.
    fn clone(&self) -> Result<AtlasAllocator, AllocError> {
        let records = self.records.clone()?;
        let by_height = self.by_height.copied(records.shelves().len())?;
        let pending = self.pending.copied(records.shelves().len())?;
        let seconds = self.seconds.copied()?;
        Ok(AtlasAllocator {
            frame: self.frame,
            records,
            by_height,
            pending,
            seconds,
            items_in_use: self.items_in_use,
            allocated_space: self.allocated_space,
        })
    }
}

impl<'a> IntoIterator for &'a AtlasAllocator {
    type Item = Allocation;

    type IntoIter = Iter<'a>;

    ghost into_iter_gives = { λ atlas iter. iter ≡ listed atlas.now };

    fn into_iter(self) -> Iter<'a> {
        self.iter()
    }
}
