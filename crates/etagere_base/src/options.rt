//! How an atlas is to be divided, and the default.
//!
//! Definitions: `Options`. A new option also needs its fault in `faults`, what the atlas keeps of
//! it in `frames`, and its word in the header of scripts.

ghost use Rattle.std.specs.Prelude.{◌≡◌};
ghost use Rattle.etagere_base.specs.Options.{default_options};

use crate::geometry::Size;
use serde::{Deserialize, Serialize};

/// How an atlas is divided and what it rounds sizes to.
#[derive(Clone, Copy, Debug, PartialEq, Eq, Hash, Serialize, Deserialize)]
pub struct AllocatorOptions {
    /// Each width is rounded up to a multiple of `alignment.width`, each height to one of
    /// `alignment.height`, in pixels.
    pub alignment: Size,
    /// Whether the shelves stand upright, side by side, in place of lying one above another.
    pub vertical_shelves: bool,
    /// How many columns are asked for, at least 1, each with shelves of its own. A shelf atlas gets as many as
    /// fit, which can be more; a bucketed one gets just these.
    pub num_columns: i32,
}

/// No alignment, horizontal shelves, one column.
pub const DEFAULT_OPTIONS: AllocatorOptions = AllocatorOptions {
    alignment: Size {
        width: 1,
        height: 1,
    },
    vertical_shelves: false,
    num_columns: 1,
};

impl Default for AllocatorOptions {
    ghost is_default = { λ options. options ≡ default_options };

    fn default() -> Self {
        DEFAULT_OPTIONS
    }
}
