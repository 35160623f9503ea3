//! A test that the rules of both atlases make of the lengths in a snapshot.

ghost use Rattle.std.specs.Prelude.{◌≡◌, ◌%◌, ◌==◌, ◌≤◌};

/// Whether a length is a multiple of this, which is at least 1. Mostly it is 1, and a division is dear.
pub fn is_multiple(length: u32, alignment: u32) -> bool
    requires { 1 ≤ alignment }
    ensures { result ≡ (length % alignment == 0) }
{
    alignment == 1 || length % alignment == 0
}
