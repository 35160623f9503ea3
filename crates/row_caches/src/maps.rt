//! Calls of a map whose keys are names, and whose values numbers.

ghost use Rattle.glyph_map.specs.Runs.{NeedsNoClone};
ghost use Rattle.std.specs.Prelude.{IfSome};

use crate::caches::{read, write};
use etagere::{
    AllocatorOptions, AtlasGrowFault, DEFAULT_OPTIONS, OptionsFault, Rectangle, Size, size2,
};
use glyph_map::runs::{MapCall, MapReply, answer_on_map, retain_on_map};
use glyph_map::{GlyphMap, MapFault, MapRestoreFault, NotRestored, Placed, Refused};
use glyph_shelf::CacheSnapshot;
use row_calls::lines::{
    capacity_of, numbers, parted, say, say_bracketed, say_fault, say_if, say_number, say_rectangle,
    size_of,
};
use row_calls::slots::{Called, NotMade, of_options};
use std::alloc::{AllocError, Global};
use std::io;
use std::num::NonZeroUsize;

type Names = GlyphMap<String, u32>;

type Pairs = Vec<(String, u32)>;

/// A map that is called by lines.
#[derive(Drop)]
pub struct CalledMap(Names);

impl Called for CalledMap {
    /// The words are the sides of the atlas, how many columns it has, and the capacity.
    fn made(alloc: Global, words: &str) -> Result<CalledMap, NotMade> {
        let [width, height, num_columns, capacity, ..] = numbers(words);
        let options = AllocatorOptions {
            num_columns,
            ..DEFAULT_OPTIONS
        };
        let capacity = capacity_of(capacity).ok_or(NotMade::Unread)?;
        match new_map(alloc, size2(width, height), &options, capacity) {
            Ok(map) => Ok(CalledMap(map)),
            Err(fault) => Err(of_options(fault)),
        }
    }

    fn saved(&self, alloc: Global) -> Option<String> {
        write(alloc, &snapshot_of(&self.0)?)
    }

    /// The text is what was saved, behind the names that the keys get.
    fn restored(alloc: Global, text: &str) -> Result<CalledMap, NotMade> {
        let (names, text) = parted(text);
        let saved = read(alloc, text).ok_or(NotMade::Unread)?;
        let Ok(pairs) = numbered(alloc, names) else {
            return Err(NotMade::NoMemory);
        };
        match restored_of(alloc, saved, pairs) {
            Ok(map) => Ok(CalledMap(map)),
            Err(refused) => Err(not_restored(alloc, &refused)),
        }
    }

    fn answer(
        &mut self,
        rt: &(impl Print + AllocGlobal),
        call: &str,
        words: &str,
    ) -> io::Result<()> {
        let map = &mut self.0;
        match call {
            "iter" => list(map, rt),
            "even" => say_retained(rt, retain_even(map).is_ok()),
            "len" => say_number(rt, len(map)),
            "capacity" => say_number(rt, capacity(map)),
            "used" => say_number(rt, used(map)),
            "empty" => say_if(rt, is_empty(map), "yes", "no"),
            _ => answer_named(map, rt, call, words),
        }
    }
}

/// The calls that have a key, and those that change a map without.
fn answer_named(
    map: &mut Names,
    rt: &(impl Print + AllocGlobal),
    call: &str,
    words: &str,
) -> io::Result<()> {
    let Ok(name) = name_of(rt.alloc(), words) else {
        return say(rt, "no memory");
    };
    match call {
        "get" => say_seen(rt, get(map, &name)),
        "peek" => say_seen(rt, peek(map, &name)),
        "drop" => say_retained(rt, drop_name(map, rt.alloc(), name).is_ok()),
        _ => match call_of(call, words, name) {
            Some(call) => say_reply(rt, &answered(map, call)),
            None => say(rt, "no such call"),
        },
    }
}

/// The call that changes a map, by its words and its key, if it is one.
fn call_of(call: &str, words: &str, name: String) -> Option<MapCall<String, u32>>
    ensures { IfSome result NeedsNoClone }
{
    match call {
        "place" => Some(placement_of(words, name)),
        "use" => Some(MapCall::UseKey(name)),
        "remove" => Some(MapCall::Remove(name)),
        "frame" => Some(MapCall::BeginFrame),
        "grow" => Some(MapCall::Grow(size_of(words))),
        "keep" => Some(MapCall::SetCapacity(most_of(words))),
        "clear" => Some(MapCall::Clear),
        _ => None,
    }
}

/// A key with the value and the sides that stand behind it.
fn placement_of(words: &str, name: String) -> MapCall<String, u32>
    ensures { NeedsNoClone result }
{
    let [_, value, width, height, ..] = numbers(words);
    MapCall::Place(
        name,
        u32::try_from(value).unwrap_or(0),
        size2(width, height),
    )
}

/// Writes what a call answers.
fn say_reply(rt: &impl Print, reply: &MapReply<String, u32>) -> io::Result<()> {
    match reply {
        MapReply::Placed(placed) => say_entered(rt, placed),
        MapReply::Refused(refused) => say_refused(rt, refused),
        MapReply::At(rectangle) => say_rectangle(rt, Some(*rectangle)),
        MapReply::Removed(rectangle, value) => say_seen(rt, Some((*rectangle, *value))),
        MapReply::NotThere => say_seen(rt, None),
        MapReply::Retained => say(rt, "retained"),
        MapReply::Begun => say(rt, "begun"),
        MapReply::Grown => say(rt, "grown"),
        MapReply::NotGrown(AtlasGrowFault::Memory) | MapReply::NoMemory => say(rt, "no memory"),
        MapReply::NotGrown(fault) => say_fault(rt, fault.number()),
        MapReply::Evicted(evicted) => say_evicted(rt, evicted),
        MapReply::Cleared => say(rt, "cleared"),
    }
}

fn say_retained(rt: &impl Print, is_retained: bool) -> io::Result<()> {
    say_if(rt, is_retained, "retained", "no memory")
}

/// Writes where a key was placed, the key and the value that stood there, and which were evicted.
fn say_entered(rt: &impl Print, placed: &Placed<String, u32>) -> io::Result<()> {
    rt.print("placed ")?;
    say_bracketed(rt, &placed.rectangle)?;
    if let Some((name, value)) = &placed.replaced {
        print!(rt; " replaces {name}={value}")?;
    }
    say_evicted(rt, &placed.evicted)
}

/// Writes why a key wasn't placed, with the key and the value that came back, or the keys that were evicted before memory
/// ran out.
fn say_refused(rt: &impl Print, refused: &Refused<String, u32>) -> io::Result<()> {
    let Refused { key, value, fault } = refused;
    match fault {
        MapFault::Memory(evicted) => {
            rt.print("no memory")?;
            say_evicted(rt, evicted)
        }
        _ => println!(rt; "fault {} {key}={value}", fault.number()),
    }
}

/// Ends a line with the keys that were evicted, and their values.
fn say_evicted(rt: &impl Print, evicted: &[(String, u32)]) -> io::Result<()> {
    rt.print(" evicts")?;
    for (name, value) in evicted {
        print!(rt; " {name}={value}")?;
    }
    say(rt, "")
}

/// Writes the corners and the value of a key, if it is there.
fn say_seen(rt: &impl Print, seen: Option<(Rectangle, u32)>) -> io::Result<()> {
    let Some((rectangle, value)) = seen else {
        return say(rt, "none");
    };
    say_bracketed(rt, &rectangle)?;
    println!(rt; " {value}")
}

/// Writes a line for each key with its rectangle and its value, and one that ends them.
fn list(map: &Names, rt: &impl Print) -> io::Result<()> {
    for (name, rectangle, value) in map {
        print!(rt; "at {name} ")?;
        say_seen(rt, Some((rectangle, *value)))?;
    }
    say(rt, "end")
}

/// A key of the first word.
fn name_of(alloc: Global, words: &str) -> Result<String, AllocError> {
    let (name, _) = parted(words);
    let mut text = String::new(alloc);
    text.push_str(name)?;
    Ok(text)
}

/// Names that commas part, numbered from 1.
fn numbered(alloc: Global, names: &str) -> Result<Pairs, AllocError> {
    let mut pairs = Vec::new(alloc);
    let mut number = 0_u32;
    for name in names.split(',') {
        number = number.saturating_add(1);
        pairs.push((name_of(alloc, name)?, number))?;
    }
    Ok(pairs)
}

/// So many keys at most.
fn most_of(words: &str) -> NonZeroUsize {
    let [most, ..] = numbers(words);
    capacity_of(most).unwrap_or(NonZeroUsize::MIN)
}

/// The number of the fault, and how many came back.
fn not_restored(alloc: Global, refused: &NotRestored<String, u32>) -> NotMade {
    if refused.fault == MapRestoreFault::Memory {
        return NotMade::NoMemory;
    }
    let (number, back) = (refused.fault.number(), refused.pairs.len());
    match format!(in alloc; "{number} back {back}") {
        Ok(text) => NotMade::Told(text),
        Err(_) => NotMade::NoMemory,
    }
}

// What these calls promise ends in functions that promise nothing, so that it isn't gone through in what uses them.

fn new_map(
    alloc: Global,
    size: Size,
    options: &AllocatorOptions,
    capacity: NonZeroUsize,
) -> Result<Names, OptionsFault> {
    GlyphMap::new(alloc, size, options, capacity)
}

fn answered(map: &mut Names, call: MapCall<String, u32>) -> MapReply<String, u32>
    requires { NeedsNoClone call }
{
    answer_on_map(map, call)
}

fn get(map: &mut Names, name: &String) -> Option<(Rectangle, u32)> {
    let (rectangle, value) = map.get(name)?;
    Some((rectangle, *value))
}

fn peek(map: &Names, name: &String) -> Option<(Rectangle, u32)> {
    let (rectangle, value) = map.peek(name)?;
    Some((rectangle, *value))
}

/// Keeps all keys but one.
fn drop_name(map: &mut Names, alloc: Global, name: String) -> Result<(), AllocError> {
    let mut gone = Vec::new(alloc);
    gone.push(name)?;
    match retain_on_map(map, gone) {
        MapReply::Retained => Ok(()),
        _ => Err(AllocError),
    }
}

/// Keeps the keys of which the value is even.
fn retain_even(map: &mut Names) -> Result<(), AllocError> {
    map.retain(|_, value| *value % 2 == 0)
}

fn snapshot_of(map: &Names) -> Option<CacheSnapshot> {
    map.snapshot().ok()
}

fn restored_of(
    alloc: Global,
    saved: CacheSnapshot,
    pairs: Pairs,
) -> Result<Names, NotRestored<String, u32>> {
    GlyphMap::restore(alloc, saved, pairs)
}

fn len(map: &Names) -> u64 {
    map.len() as u64
}

fn capacity(map: &Names) -> u64 {
    map.capacity().get() as u64
}

fn used(map: &Names) -> u64 {
    map.used_in_frame() as u64
}

/// Whether there is no key, and nothing in its atlas.
fn is_empty(map: &Names) -> bool {
    map.is_empty() && map.atlas().is_empty()
}
