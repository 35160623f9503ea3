//! Bytes as lines, and a line as words, one after another from the front.
//!
//! Definition: `Lines`. Nothing here knows a command or a number, takes memory or copies bytes.

ghost use Rattle.std.specs.Prelude.{◌≡◌, ◌≢◌, ◌<◌, ◌≤◌, ◌∷◌, ◌++◌, [], All, IfNone, IfSome, length, slice_index, take};
ghost use Rattle.run_scripts.specs.Lines.{Lacks, lines_of, words_of};

/// The bytes before the first separator and those after it, if there is one.
pub fn split_once(bytes: &[u8], separator: u8) -> Option<(&[u8], &[u8])>
    ensures none { IfNone result (Lacks separator bytes.now) }
    ensures before { IfSome result (λ parts. Lacks separator parts.0.now) }
    ensures parts { IfSome result (λ parts. bytes.now ≡ parts.0.now ++ separator ∷ parts.1.now) }
{
    let end = bytes.iter().position(|byte| *byte == separator)?;
    Some((&bytes[..end], &bytes[end + 1..]))
}

/// The first of several words, and the bytes of those after it.
pub fn split_word(words: &[u8]) -> Option<(&[u8], &[u8])>
    ensures one { IfNone result (words_of words.now ≡ words.now ∷ []) }
    ensures more { IfSome result (λ parts.
        words_of words.now ≡ parts.0.now ∷ words_of parts.1.now) }
{
    split_once(words, b' ')
}

/// The first line without its line feed, and the bytes after it.
pub fn first_line(bytes: &[u8]) -> (&[u8], &[u8])
    ensures line { 0 < length bytes.now →
        lines_of bytes.now ≡ result.0.now ∷ lines_of result.1.now }
    ensures none { length bytes.now ≡ 0 → result.0.now ≡ [] }
    ensures shorter { 0 < length bytes.now → length result.1.now < length bytes.now }
{
    split_once(bytes, b'\n').unwrap_or((bytes, &[]))
}

/// How many lines without bytes stand first.
pub fn blank_lines(bytes: &[u8]) -> usize
    ensures length { result ≤ length bytes.now }
    ensures blank { All (λ byte. byte ≡ 10) (take result bytes.now) }
    ensures next { result < length bytes.now → slice_index bytes.now result ≢ 10 }
{
    bytes.iter().take_while(|byte| **byte == b'\n').count()
}

/// How many bytes are looked through at once for line feeds, whose count then fits one byte.
const STRETCH: usize = 255;

/// How many line feeds there are.
pub fn line_feeds(bytes: &[u8]) -> usize
    ensures { result ≤ length bytes.now }
{
    let mut count = 0;
    let mut rest = bytes;
    while rest.len() > STRETCH {
        let (stretch, after) = rest.split_at(STRETCH);
        count += usize::from(line_feeds_in(stretch));
        rest = after;
    }
    count + usize::from(line_feeds_in(rest))
}

/// How many line feeds there are in a few bytes.
fn line_feeds_in(bytes: &[u8]) -> u8
    requires { length bytes.now ≤ 255 }
    ensures { result ≤ length bytes.now }
{
    let mut count = 0;
    for index in 0..bytes.len() {
        count += u8::from(bytes[index] == b'\n');
    }
    count
}
