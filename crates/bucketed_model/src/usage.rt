//! How full a bucketed atlas is.
//!
//! Definitions: `Usage`, one for each field.

use etagere_base::Size;

/// How full a bucketed atlas is.
#[derive(Clone, Copy, Debug, PartialEq, Eq)]
pub struct BucketedUsage {
    /// How many shelves there are, those too whose height another one has taken.
    pub shelves: u32,
    /// How many of them hold nothing live.
    pub idle_shelves: u32,
    /// How many buckets they have.
    pub buckets: u32,
    /// How many of these hold nothing live.
    pub idle_buckets: u32,
    /// How many items are live.
    pub items: u32,
    /// How many buckets can still be made, of 4095.
    pub unused_buckets: u32,
    /// The widest item that a shelf can give, with the height of that shelf, in pixels.
    pub largest_free: Size,
}
