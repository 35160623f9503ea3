//! Laws of the plain types, each the contract of a function: `==` holds exactly of values that are the same, and
//! values of which it holds hash alike.
//!
//! Definitions: `Hashing`. `==` and `hash` themselves are derived; a plain type that derives them gets its function
//! here.

ghost use Rattle.std.specs.Prelude.{◌≡◌, ◌↔◌, IsTrue};
ghost use Rattle.etagere_base.specs.Hashing.{hash_of_writes};

use crate::geometry::{Point, Rectangle, Size};
use crate::ids::AllocId;
use crate::options::AllocatorOptions;
use std::hash::{DefaultHasher, Hash, Hasher};

/// Whether `==` holds of two values, and whether they hash alike.
pub(crate) struct Agreement {
    equal: bool,
    alike: bool,
}

/// The agreement of two points.
pub(crate) fn agreement_of_points(one: &Point, other: &Point) -> Agreement
    ensures equal { IsTrue result.equal ↔ (one.now ≡ other.now) }
    ensures alike { IsTrue result.equal → IsTrue result.alike }
{
    compared(one, other)
}

/// The agreement of two sizes.
pub(crate) fn agreement_of_sizes(one: &Size, other: &Size) -> Agreement
    ensures equal { IsTrue result.equal ↔ (one.now ≡ other.now) }
    ensures alike { IsTrue result.equal → IsTrue result.alike }
{
    compared(one, other)
}

/// The agreement of two rectangles.
pub(crate) fn agreement_of_rectangles(one: &Rectangle, other: &Rectangle) -> Agreement
    ensures equal { IsTrue result.equal ↔ (one.now ≡ other.now) }
    ensures alike { IsTrue result.equal → IsTrue result.alike }
{
    compared(one, other)
}

/// The agreement of two ids.
pub(crate) fn agreement_of_ids(one: &AllocId, other: &AllocId) -> Agreement
    ensures equal { IsTrue result.equal ↔ (one.now ≡ other.now) }
    ensures alike { IsTrue result.equal → IsTrue result.alike }
{
    compared(one, other)
}

/// The agreement of two sets of options.
pub(crate) fn agreement_of_options(one: &AllocatorOptions, other: &AllocatorOptions) -> Agreement
    ensures equal { IsTrue result.equal ↔ (one.now ≡ other.now) }
    ensures alike { IsTrue result.equal → IsTrue result.alike }
{
    compared(one, other)
}

/// The agreement of two values.
fn compared<T: Hash>(one: &T, other: &T) -> Agreement
    ensures equal { result.equal ≡ T.eq one.now other.now }
    ensures alike { IsTrue result.equal → IsTrue result.alike }
{
    Agreement {
        equal: one == other,
        alike: hash_of(one) == hash_of(other),
    }
}

/// The hash of a value.
fn hash_of<T: Hash>(value: &T) -> u64
    ensures { result ≡ hash_of_writes (T.hash_input value.now) }
{
    let mut state = DefaultHasher::new();
    value.hash(&mut state);
    state.finish()
}
