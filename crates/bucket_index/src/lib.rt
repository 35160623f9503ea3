//! The index of the shelves and buckets of a bucketed atlas, and the search by it for a bucket that gives an item.
//!
//! By what `blocks` and `heights` know of shelves, and `spans` of the buckets of long shelves, `searching` passes over many at once.
//! What is known may be too much, never too little: what is found is what a search that looks at each would find.
//! `rest` knows what is left beside the bucket where items come and go, `rooms` where no bucket can give just the width
//! that is asked for, and `missed` for what sizes no shelf has a place.
//!
//! Definitions: `Private/Searching` for what is found, `Private/Blocks`, `Private/Heights`, `Private/Missed`,
//! `Private/Rest`, `Private/Rooms` and `Private/Spans` for what is known.
#![tactic(auto)]

pub mod blocks;
pub mod heights;
pub mod missed;
pub mod rest;
pub mod rooms;
pub mod searching;
pub mod spans;
