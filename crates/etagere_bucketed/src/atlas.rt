//! The public calls of a bucketed atlas. Each is thin: it asks, and then changes the records by one call.
//!
//! Definitions: `Atlas` for what the clauses say, `State` for what they see, `Consistent` for what the
//! fields keep. The clauses stay as they are: callers prove by them. Fields may change, with `state_in`
//! and `IsConsistent`.

ghost use Rattle.std.specs.Prelude.{◌≡◌, ◌↔◌, ◌*◌, ◌-◌, ◌+ℤ◌, [], Err, Some, true, false, pos, IfOk, IfErr, IfSome, IfNone, OnOk, OnErr, IsErr, IsOk, IsTrue, option_map};
ghost use Rattle.std.specs.Io.KnownBytes.{Appends};
ghost use Rattle.std.specs.List.{list_all};
ghost use Rattle.etagere_base.specs.Frames.{IsAccepted, options_fault};
ghost use Rattle.etagere_base.specs.Options.{default_options};
ghost use Rattle.etagere_base.specs.Rectangles.{IsAligned, IsInside, IsLarge};
ghost use Rattle.pictures.specs.Sending.{AppendsBeginning};
ghost use Rattle.bucketed_model.specs.Atlas.{Allocates, Grows, KeepsPromises, NeedsBuckets, NeedsShelf};
ghost use Rattle.bucketed_model.specs.Frames as frames;
ghost use Rattle.bucketed_model.specs.Frames.{longest_bucketed_side};
ghost use Rattle.bucketed_model.specs.Growing as growing;
ghost use Rattle.bucketed_model.specs.Ledgers.{AddsEntry, IsClear, KeepsEntries, KeepsKnown, SameKnown, SameOthers, TakesEntry};
ghost use Rattle.bucketed_model.specs.Placing.{IsBucketRefused};
ghost use Rattle.bucketed_model.specs.Refusal as refusals;
ghost use Rattle.bucketed_model.specs.Returning.{bucket_returned, is_known};
ghost use Rattle.bucketed_model.specs.Space as space;
ghost use Rattle.bucketed_model.specs.State.{fresh, is_idle};
ghost use Rattle.bucketed_model.specs.Svg.{drawn_buckets, svg, svg_into};
ghost use Rattle.bucketed_model.specs.Tied.{AreTied};
ghost use Rattle.bucketed_model.specs.Usage as usages;
ghost use Rattle.bucketed_model.specs.declared.faults.GrowFault.TheVariants as grow_faults;
ghost use Rattle.bucketed_records.specs.Private.Restored.{IsSnapshotJudged, linked_records};
ghost use Rattle.bucketed_records.specs.BucketRecords.{state_of};
ghost use Rattle.bucketed_records.specs.Restoring.{Breaks, snapshot_records};
ghost use Rattle.bucketed_records.specs.StandsFor.{StandsFor};

use crate::restored::restore_bucketed;
use bucketed_model::adding::Remaining;
use bucketed_model::bucketed_frames::{LONGEST_BUCKETED_SIDE, bucketed_frame, grow_fault};
use bucketed_model::faults::GrowFault;
use bucketed_model::refusals::{BucketedRefusal, size_refusal};
use bucketed_model::usage::BucketedUsage;
use bucketed_records::records::MOST_BUCKETS;
use bucketed_records::saving::LinkedSnapshot;
use bucketed_records::snapshots::{Totals, snapshot_of};
use bucketed_restoring::restoring::JudgedSnapshot;
use bucketed_store::drawing::push_store;
use bucketed_store::placing::placement_of;
use bucketed_store::refusing::sides_refusal;
use bucketed_store::returning::bucket_number;
use bucketed_store::store::Store;
use bucketed_store::usage;
use etagere_base::{
    AllocId, Allocation, AllocatorOptions, DEFAULT_OPTIONS, Frame, OptionsFault, Rectangle,
    RestoreFault, Size, UnknownId, asked, grown_frame, options_fault,
};
use pictures::{GatheredText, Pictured, send_document, send_into};
use snapshot_records::buckets::BucketedSnapshot;
use std::alloc::{AllocError, Global};
use std::io::{self, Write};
use std::marker::Model;

/// Places rectangles in the buckets of one atlas, and takes them back in any order. Good for many small items
/// that go at about the same time.
///
/// Each shelf is a strip across a column of the atlas, divided into a few buckets side by side. A bucket is filled
/// from its front, and what it gave is free again only when all of it was given back. A size goes to the shelf
/// that wastes the least height. Where none has room a shelf is added; where none can be, two or three neighbouring
/// shelves with nothing live become one.
///
/// ```text
/// let mut atlas = BucketedAtlasAllocator::new(alloc, size2(32, 64))?;
/// let a = atlas.allocate(size2(20, 16))?;     // Some: (0,0)-(20,16)
/// let b = atlas.allocate(size2(24, 16))?;     // Some: (0,16)-(24,32)
/// ```
#[derive(Drop)]
pub struct BucketedAtlasAllocator {
    frame: Frame,
    store: Store,
    current_column: u32,
    available_height: u32,
    buckets_in_use: u32,
    allocated_space: u32,
}

impl Model for BucketedAtlasAllocator {
    ghost use Rattle.bucketed_model.specs.State.{BucketedState};

    ghost Value = { BucketedState };

    ghost use Rattle.etagere_bucketed.specs.Private.Consistent.{IsConsistent, state_in};

    ghost view = { state_in };

    ghost invariant = { IsConsistent };
}

impl BucketedAtlasAllocator {
    /// An empty atlas of this size in pixels, whose sides are at most 65534, with the default options.
    ///
    /// Returns the first fault where there is one, never `Memory`. Takes no memory, and constant time.
    pub fn new(alloc: Global, size: Size) -> Result<BucketedAtlasAllocator, OptionsFault>
        ensures ok { IfOk result
            (λ atlas. atlas ≡ fresh (frames.bucketed_frame size default_options)) }
        ensures empty { IfOk result (AreTied []) }
        ensures accepted { OnOk result (IsAccepted longest_bucketed_side size default_options) }
        ensures made { IsAccepted longest_bucketed_side size default_options → IsOk result }
        ensures promises { IfOk result KeepsPromises }
        ensures fault { IfSome (options_fault longest_bucketed_side size default_options)
            (λ fault. result ≡ Err fault) }
    {
        BucketedAtlasAllocator::with_options(alloc, size, &DEFAULT_OPTIONS)
    }

    /// An empty atlas of this size in pixels, whose sides are at most 65534.
    ///
    /// Returns the first fault where there is one, never `Memory`. Takes no memory, and constant time.
    pub fn with_options(
        alloc: Global,
        size: Size,
        options: &AllocatorOptions,
    ) -> Result<BucketedAtlasAllocator, OptionsFault>
        ensures ok { IfOk result (λ atlas. atlas ≡ fresh (frames.bucketed_frame size options.now)) }
        ensures empty { IfOk result (AreTied []) }
        ensures accepted { OnOk result (IsAccepted longest_bucketed_side size options.now) }
        ensures made { IsAccepted longest_bucketed_side size options.now → IsOk result }
        ensures promises { IfOk result KeepsPromises }
        ensures fault { IfSome (options_fault longest_bucketed_side size options.now)
            (λ fault. result ≡ Err fault) }
    {
        if let Some(fault) = options_fault(LONGEST_BUCKETED_SIDE, size, options) {
            return Err(fault);
        }
        let frame = bucketed_frame(size, options);
        Ok(BucketedAtlasAllocator {
            frame,
            store: Store::new(alloc),
            current_column: 0,
            available_height: frame.across_side(),
            buckets_in_use: 0,
            allocated_space: 0,
        })
    }

    /// Makes an atlas from a snapshot, whoever wrote it: where that keeps every rule, the atlas is the one for which
    /// it stands.
    ///
    /// Returns a fault whose rule is broken; `Memory` only where there was no memory. The snapshot is used up either
    /// way. Takes memory for all records and for what is kept beside the shelves, and some more for each while it
    /// runs. The time is linear in the number of records.
    pub fn restore(
        alloc: Global,
        snapshot: BucketedSnapshot,
    ) -> Result<BucketedAtlasAllocator, RestoreFault>
        ensures ok { IfOk result (λ atlas. StandsFor (snapshot_records snapshot) atlas) }
        ensures fault { IfErr result (λ fault. Breaks (snapshot_records snapshot) fault) }
        ensures promises { IfOk result KeepsPromises }
    {
        let mut steps = 0;
        restore_bucketed(alloc, snapshot, &mut steps)
    }

    /// The atlas as plain records, to be saved and given to `restore`: the atlas that this makes has the same ids and
    /// the same later answers.
    ///
    /// The error comes only where there was no memory. Takes memory for all records, and goes through them.
    pub fn snapshot(&self) -> Result<BucketedSnapshot, AllocError>
        ensures { IfOk result (λ snapshot. StandsFor (snapshot_records snapshot) self.now) }
    {
        let shelves = self.store.saved_shelves()?;
        let buckets = self.store.saved_buckets()?;
        let unused = self.store.first_unused();
        let said = Totals {
            column: self.current_column,
            height: self.available_height,
            space: self.allocated_space,
        };
        Ok(snapshot_of(&self.frame, said, unused, shelves, buckets))
    }

    /// The atlas of a snapshot that was judged.
    pub(crate) fn of_judged(
        judged: JudgedSnapshot,
        snapshot: LinkedSnapshot,
    ) -> BucketedAtlasAllocator
        requires { IsSnapshotJudged (linked_records snapshot) judged.frame judged.shelves.items
            judged.in_use judged.space }
        ensures state { result ≡ state_of (linked_records snapshot) }
        ensures promises { KeepsPromises result }
    {
        BucketedAtlasAllocator {
            frame: judged.frame,
            store: Store::of_records(judged.shelves, snapshot.buckets, snapshot.first_unused),
            current_column: u32::from(snapshot.current_column),
            available_height: u32::from(snapshot.available_height),
            buckets_in_use: judged.in_use,
            allocated_space: judged.space,
        }
    }

    /// The size in pixels that the atlas was made with, or has grown to. Takes constant time.
    pub fn size(&self) -> Size
        ensures promises { KeepsPromises self.now }
        ensures size { result
            ≡ record { width = pos self.now.frame.width; height = pos self.now.frame.height } }
    {
        Size {
            width: self.frame.width as i32,
            height: self.frame.height as i32,
        }
    }

    /// Gives a rectangle that is at least as large as the size in pixels, or none where there is no room.
    ///
    /// `Err` comes only where a shelf is to be added and there was no memory. Nothing changes after an
    /// `Err` or none. An added shelf takes memory for its record, and for those of its buckets as far as
    /// too few were unused; a size that needs none takes none. Passes over up to 512 shelves at once in which none has
    /// room, and behind the first 8 that it went through in vain over up to 256 that are too low. It looks only at buckets
    /// of shelves that are tall enough, have wide enough buckets and room. The first bucket that wastes nothing ends the
    /// search; none is looked for where no bucket has just the width. As the first item goes into a wider bucket of more
    /// than 64, in more than one shelf, all are counted by their width, again where that was forgotten. Of more than 16
    /// shelves none is looked at for a size that isn't smaller than one for which there was no place, but one that changed
    /// since, and the last ones: mostly up to 16, and some more where few shelves became many since.
    pub fn allocate(&mut self, size: Size) -> Result<Option<Allocation>, AllocError>
        ensures placed { IfOk result
            (λ answer. IfSome answer (λ allocation. Allocates self.old size allocation self.new)) }
        ensures refused { IfOk result (λ answer. IfNone answer (IsBucketRefused self.old size)) }
        ensures none { IfOk result (λ answer. IfNone answer (self.new ≡ self.old)) }
        ensures err { OnErr result (self.new ≡ self.old) }
        ensures shelf { OnErr result (NeedsShelf self.old size) }
        ensures allocated { IfOk result
            (λ answer. IfSome answer
            (λ allocation. AddsEntry self.old allocation self.new)) }
        ensures found { IfOk result
            (λ answer. IfSome answer (λ allocation. is_known self.new allocation.id ≡ true)) }
        ensures kept { KeepsKnown self.old self.new }
        ensures clear { IfOk result
            (λ answer. IfSome answer (λ allocation. IsClear self.old allocation.rectangle)) }
        ensures frame { self.new.frame ≡ self.old.frame }
        ensures inside { IfOk result
            (λ answer. IfSome answer
            (λ allocation. IsInside self.old.frame allocation.rectangle)) }
        ensures large { IfOk result
            (λ answer. IfSome answer
            (λ allocation. IsLarge self.old.frame size allocation.rectangle)) }
        ensures aligned { IfOk result
            (λ answer. IfSome answer
            (λ allocation. IsAligned self.old.frame allocation.rectangle)) }
        ensures promises { KeepsPromises self.new }
    {
        let Some(sides) = asked(&self.frame, size) else {
            return Ok(None);
        };
        let left = Remaining {
            column: self.current_column,
            height: self.available_height,
            buckets: MOST_BUCKETS - self.buckets_in_use,
        };
        self.store.settle();
        let Some(placement) = placement_of(&self.frame, &left, &sides, &mut self.store) else {
            return Ok(None);
        };
        let found = self
            .store
            .prepare(&self.frame, &placement, self.buckets_in_use)?;
        let allocation = self.store.allocation(&self.frame, &found, sides.along);
        let area = self.store.take(&found, sides.along);
        self.store.follow_placement(
            &self.frame,
            &placement,
            &mut self.current_column,
            &mut self.available_height,
            &mut self.buckets_in_use,
        );
        self.allocated_space += area;
        Ok(Some(allocation))
    }

    /// Takes back the rectangle that was given under an id. The last one of a bucket makes that empty, and shelves
    /// at the end that hold nothing live are dropped.
    ///
    /// `Err` comes exactly where no bucket that holds something live has given an item under the id since it was
    /// empty; then nothing changes. That an id comes back once is the caller's part: a second return of one is
    /// taken for that of another item of its bucket. Takes no memory, and constant time but for the shelves that are
    /// dropped, through whose buckets it goes.
    pub fn deallocate(&mut self, id: AllocId) -> Result<(), UnknownId>
        ensures ok { OnOk result (self.new ≡ bucket_returned self.old id) }
        ensures unknown { IsErr result ↔ (is_known self.old id ≡ false) }
        ensures err { OnErr result (self.new ≡ self.old) }
        ensures allocated { OnOk result (TakesEntry self.old id self.new) }
        ensures others { OnOk result (SameOthers self.old id self.new) }
        ensures promises { KeepsPromises self.new }
    {
        if !self.store.is_known(id) {
            return Err(UnknownId);
        }
        let number = bucket_number(id);
        if let Some(area) = self.store.return_only(number) {
            self.allocated_space -= area;
            return Ok(());
        }
        let returned = self.store.return_item(number);
        self.allocated_space -= returned.area;
        if returned.drops {
            let end = self.store.end(&self.frame);
            self.current_column = end.along;
            self.available_height = end.across;
            self.buckets_in_use -= returned.dropped;
        }
        Ok(())
    }

    /// Makes the atlas larger, in pixels. What is allocated keeps its place. With one column, shelves get further
    /// buckets in the width that is added; with more, there are as many columns as fit.
    ///
    /// Returns the first fault; `Memory` only where there is no other, buckets are to be made and there
    /// was no memory. Nothing changes after a fault. Takes memory for the records of buckets as far as too
    /// few were unused, and goes through all shelves.
    pub fn grow(&mut self, size: Size) -> Result<(), GrowFault>
        ensures ok { OnOk result (Grows self.old size self.new) }
        ensures fault { IfSome (growing.grow_fault self.old.frame size)
            (λ fault. result ≡ Err fault) }
        ensures memory { IfErr result
            (λ fault. growing.grow_fault self.old.frame size ≡ None
            → (fault ≡ grow_faults.Memory) × NeedsBuckets self.old size) }
        ensures err { OnErr result (self.new ≡ self.old) }
        ensures allocated { OnOk result (KeepsEntries self.old self.new) }
        ensures kept { OnOk result (SameKnown self.old self.new) }
        ensures promises { KeepsPromises self.new }
    {
        if let Some(fault) = grow_fault(&self.frame, size) {
            return Err(fault);
        }
        let frame = grown_frame(&self.frame, size);
        let place = self.frame.column_width;
        let left = MOST_BUCKETS - self.buckets_in_use;
        let Ok(made) = self.store.widen(place, frame.column_width - place, left) else {
            return Err(GrowFault::Memory);
        };
        let end = self.store.end(&frame);
        // The other fields stay, so that they aren't written anew.
        self.frame.width = frame.width;
        self.frame.height = frame.height;
        self.frame.column_width = frame.column_width;
        self.frame.columns = frame.columns;
        self.current_column = end.along;
        self.available_height = end.across;
        self.buckets_in_use += made;
        Ok(())
    }

    /// Takes everything back at once: the atlas is as new, with its present size and columns.
    ///
    /// Takes no memory, and gives none back. Takes constant time with up to 32 shelves, since dropping a record does
    /// nothing, else forgets what is known of each 8 of them.
    pub fn clear(&mut self)
        ensures cleared { self.new ≡ fresh self.old.frame }
        ensures empty { AreTied [] self.new }
        ensures promises { KeepsPromises self.new }
    {
        if self.store.is_empty() {
            return;
        }
        self.store.clear();
        self.current_column = 0;
        self.available_height = self.frame.across_side();
        self.buckets_in_use = 0;
        self.allocated_space = 0;
    }

    /// Whether nothing is allocated. Takes constant time.
    pub fn is_empty(&self) -> bool
        ensures empty { IsTrue result ↔ (list_all is_idle self.now.shelves ≡ true) }
        ensures promises { KeepsPromises self.now }
    {
        self.allocated_space == 0
    }

    /// The areas that buckets have used, added up, in square pixels. Takes constant time.
    pub fn allocated_space(&self) -> i32
        ensures space { result ≡ pos (space.allocated_space self.now) }
        ensures promises { KeepsPromises self.now }
    {
        self.allocated_space as i32
    }

    /// The area of the atlas less what is allocated, in square pixels. Takes constant time.
    pub fn free_space(&self) -> i32
        ensures free { result ≡ pos
            (self.now.frame.width * self.now.frame.height - space.allocated_space self.now) }
        ensures sum { result +ℤ pos (space.allocated_space self.now) ≡ pos
            (self.now.frame.width * self.now.frame.height) }
        ensures promises { KeepsPromises self.now }
    {
        (self.frame.width * self.frame.height - self.allocated_space) as i32
    }

    /// Why `allocate` refuses a size in pixels, none where it fits: the first reason that holds.
    ///
    /// Takes no memory and changes nothing. Where it fits, the cost is that of the search of `allocate`; else
    /// it goes through the shelves once more, and through the buckets of those that are tall enough.
    pub fn refusal(&self, size: Size) -> Option<BucketedRefusal>
        ensures { result ≡ refusals.refusal self.now size }
    {
        if let Some(refusal) = size_refusal(&self.frame, size) {
            return Some(refusal);
        }
        let sides = asked(&self.frame, size)?;
        let left = Remaining {
            column: self.current_column,
            height: self.available_height,
            buckets: MOST_BUCKETS - self.buckets_in_use,
        };
        sides_refusal(&self.frame, &left, &sides, &self.store)
    }

    /// The widest item that a shelf can give, with the height of that shelf, in pixels: the widest room of a bucket,
    /// and the greatest height of the shelves that have it. 0 by 0 where no shelf has room.
    ///
    /// Only shelves that are there count: not the space for a new one, so that a new atlas has none, nor several idle
    /// ones together. A bucket that has given 4095 items has no room until it is empty, and an idle one has its whole
    /// width. With vertical shelves the room is the height, and the height of the shelf the width.
    ///
    /// Takes no memory, and goes through the shelves twice.
    pub fn largest_free(&self) -> Size
        ensures { result ≡ usages.largest_free self.now }
    {
        usage::largest_free(&self.frame, &self.store)
    }

    /// How full the atlas is: its shelves, buckets and items, and `largest_free`.
    ///
    /// Takes no memory, and goes through the shelves three times, and through the buckets once.
    pub fn usage(&self) -> BucketedUsage
        ensures { result ≡ usages.usage self.now }
    {
        usage::usage(&self.frame, &self.store, self.buckets_in_use)
    }

    /// Writes an SVG document that shows the atlas and every bucket, in pixels: the part of a bucket
    /// that is used is blue, also where it has no width, and then the part that is free, where there
    /// is some, grey.
    ///
    /// A fault is the writer's, or `WriteZero` where it accepts no byte; then a beginning of the text
    /// has gone out. Takes no memory. Goes through the buckets once.
    pub fn dump_svg<W: Write>(&self, output: &mut W) -> io::Result<()>
        ensures ok { OnOk result
            (Appends (W.contents output.old) (W.contents output.new) (svg self.now)) }
        ensures err { OnErr result
            (AppendsBeginning (W.contents output.old) (W.contents output.new) (svg self.now)) }
    {
        send_document(self, output)
    }

    /// Writes the picture of `dump_svg` for a place within a larger SVG document: at the origin, or
    /// moved and scaled to fill a rectangle. Where a side of the rectangle isn't positive, nothing is
    /// written.
    ///
    /// A fault is the writer's, or `WriteZero` where it accepts no byte; then a beginning of the text
    /// has gone out. Takes no memory. Goes through the buckets once.
    pub fn dump_into_svg<W: Write>(
        &self,
        rectangle: Option<&Rectangle>,
        output: &mut W,
    ) -> io::Result<()>
        ensures ok { OnOk result
            (Appends (W.contents output.old) (W.contents output.new)
            (svg_into self.now (option_map (λ rectangle. rectangle.now) rectangle.entry))) }
        ensures err { OnErr result
            (AppendsBeginning (W.contents output.old) (W.contents output.new)
            (svg_into self.now (option_map (λ rectangle. rectangle.now) rectangle.entry))) }
    {
        send_into(self, rectangle, output)
    }
}

impl Pictured for BucketedAtlasAllocator {
    ghost framed = { λ atlas. atlas.frame };

    ghost shown = { drawn_buckets };

    fn frame(&self) -> &Frame {
        &self.frame
    }

    fn push_shown<W: Write>(&self, text: &mut GatheredText, writer: &mut W) -> io::Result<()> {
        push_store(text, &self.frame, &self.store, writer)
    }
}

impl Clone for BucketedAtlasAllocator {
    ghost is_clone = { λ atlas other. other ≡ atlas };

    /// An atlas that equals this one, its ids and its later answers too, and shares nothing with it.
    ///
    /// The error comes only where there was no memory. Takes memory for all records, and goes through them.
    fn clone(&self) -> Result<BucketedAtlasAllocator, AllocError> {
        Ok(BucketedAtlasAllocator {
            frame: self.frame,
            store: self.store.clone()?,
            current_column: self.current_column,
            available_height: self.available_height,
            buckets_in_use: self.buckets_in_use,
            allocated_space: self.allocated_space,
        })
    }
}
