//! Writing what has any length to the buffers of a caller.
//!
//! Definitions: `Calls`, `Statuses`.

ghost use Rattle.std.specs.Prelude.{◌≡◌, ◌↔◌, ◌≢◌, ◌<◌, ◌≤◌, [], ◌∷◌, length};
ghost use Rattle.c_answers.specs.Calls.{IsAmong, IsWritten};
ghost use Rattle.c_answers.specs.Statuses as statuses;

use crate::statuses::{LENGTH, OK};

/// Writes keys to the front of a buffer that has room for them, and says how many.
pub fn write_keys(keys: &[u64], buffer: &mut [u64]) -> usize
    requires { length keys.now ≤ length buffer.old }
    ensures { IsWritten keys.now buffer.old buffer.new result }
{
    buffer[..keys.len()].copy_from_slice(keys);
    keys.len()
}

/// Writes a text to the front of a buffer, and how long it is; nothing where the buffer is too short.
pub fn write_text(text: &[u8], buffer: &mut [u8], text_length: &mut usize) -> u32
    ensures status { IsAmong (statuses.ok ∷ statuses.too_short ∷ []) result }
    ensures short { (result ≡ statuses.too_short) ↔ (length buffer.old < length text.now) }
    ensures written { result ≡ statuses.ok → IsWritten text.now buffer.old buffer.new text_length.new }
    ensures unwritten { result ≢ statuses.ok → buffer.new ≡ buffer.old }
    ensures uncounted { result ≢ statuses.ok → text_length.new ≡ text_length.old }
{
    if buffer.len() < text.len() {
        return LENGTH;
    }
    buffer[..text.len()].copy_from_slice(text);
    *text_length = text.len();
    OK
}

/// Says how long a text is, and writes it to the front of a buffer where that has room.
pub fn hand_out(text: &[u8], buffer: &mut [u8], needed: &mut usize) -> u32
    ensures status { IsAmong (statuses.ok ∷ statuses.too_short ∷ []) result }
    ensures short { (result ≡ statuses.too_short) ↔ (length buffer.old < length text.now) }
    ensures counted { needed.new ≡ length text.now }
    ensures written { result ≡ statuses.ok → IsWritten text.now buffer.old buffer.new needed.new }
    ensures unwritten { result ≢ statuses.ok → buffer.new ≡ buffer.old }
{
    *needed = text.len();
    if *needed > buffer.len() {
        return LENGTH;
    }
    buffer[..*needed].copy_from_slice(text);
    OK
}
