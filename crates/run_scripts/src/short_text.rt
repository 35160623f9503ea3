//! Short text that is made piece by piece in room of fixed size, into which the digits of a number go at once. Each call
//! is told where its piece begins, and gives where that ends, so that no place is written to memory in between.
//!
//! Definition: `DigitPairs`, for two digits that are written together. Nothing here takes memory.

ghost use Rattle.std.specs.Prelude.{◌≡◌, ◌≤◌, ◌<◌, ◌+◌, ◌++◌, ◌/◌, ◌%◌, ◌∷◌, [], decimal, length, take};
ghost use Rattle.run_scripts.specs.DigitPairs.{pair_text};

/// How many bytes a short text has at most: `placed`, an id of 10 digits, and four places of 11 characters.
pub const CAPACITY: usize = 66;

/// The two digits of each number below 100, one number after another.
const PAIRS: &str =
    "0001020304050607080910111213141516171819202122232425262728293031323334353637383940414243444546474849\
    5051525354555657585960616263646566676869707172737475767778798081828384858687888990919293949596979899";

/// Room for text of at most 66 bytes.
#[derive(Drop)]
pub struct ShortText {
    pub bytes: [u8; CAPACITY],
}

impl ShortText {
    /// Room with no text.
    pub fn new() -> ShortText {
        ShortText {
            bytes: [0; CAPACITY],
        }
    }
}

/// Writes a word, with which the text has at most 66 bytes.
pub fn put_word(bytes: &mut [u8; CAPACITY], at: usize, word: &str) -> usize
    requires { at + length word.now ≤ 66 }
    ensures text { take result bytes.new ≡ take at bytes.old ++ word.now }
    ensures end { result ≡ at + length word.now }
{
    let end = at + word.len();
    bytes[at..end].copy_from_slice(word.as_bytes());
    end
}

/// Writes a byte, where one more fits into the 66.
pub fn put_byte(bytes: &mut [u8; CAPACITY], at: usize, byte: u8) -> usize
    requires { at + 1 ≤ 66 }
    ensures text { take result bytes.new ≡ take at bytes.old ++ byte ∷ [] }
    ensures end { result ≡ at + 1 }
{
    bytes[at] = byte;
    at + 1
}

/// Writes the decimal digits of a number, where ten more bytes fit into the 66.
#[inline(always)]
pub fn put_number(bytes: &mut [u8; CAPACITY], at: usize, number: u32) -> usize
    requires { at + 10 ≤ 66 }
    ensures text { take result bytes.new ≡ take at bytes.old ++ decimal number }
    ensures end { result ≤ at + 10 }
    ensures short { number < 100000 → result ≤ at + 5 }
{
    if number >= 100_000 {
        let behind = put_front(bytes, at, number / 10_000);
        return put_four(bytes, behind, number % 10_000);
    }
    if number >= 10_000 {
        put_five(bytes, at, number)
    } else {
        put_below_10000(bytes, at, number)
    }
}

/// Writes the digits of what stands before the last four digits of a number.
fn put_front(bytes: &mut [u8; CAPACITY], at: usize, number: u32) -> usize
    requires { (number < 1000000) × (at + 6 ≤ 66) }
    ensures text { take result bytes.new ≡ take at bytes.old ++ decimal number }
    ensures end { result ≤ at + 6 }
{
    if number < 100 {
        put_below_100(bytes, at, number)
    } else {
        put_long_front(bytes, at, number)
    }
}

/// Writes the digits of a number below 1000000. It stands apart, since few numbers have so many digits in front.
#[inline(never)]
fn put_long_front(bytes: &mut [u8; CAPACITY], at: usize, number: u32) -> usize
    requires { (number < 1000000) × (at + 6 ≤ 66) }
    ensures text { take result bytes.new ≡ take at bytes.old ++ decimal number }
    ensures end { result ≤ at + 6 }
{
    if number < 10_000 {
        return put_below_10000(bytes, at, number);
    }
    let behind = put_below_100(bytes, at, number / 10_000);
    put_four(bytes, behind, number % 10_000)
}

/// Writes the digits of a number that has five of them.
pub fn put_five(bytes: &mut [u8; CAPACITY], at: usize, number: u32) -> usize
    requires { (10000 ≤ number) × (number < 100000) × (at + 5 ≤ 66) }
    ensures text { take result bytes.new ≡ take at bytes.old ++ decimal number }
    ensures end { result ≡ at + 5 }
{
    let behind = put_digit(bytes, at, number / 10_000);
    put_four(bytes, behind, number % 10_000)
}

/// Writes the digits of a number below 10000.
#[inline(always)]
pub fn put_below_10000(bytes: &mut [u8; CAPACITY], at: usize, number: u32) -> usize
    requires { (number < 10000) × (at + 4 ≤ 66) }
    ensures text { take result bytes.new ≡ take at bytes.old ++ decimal number }
    ensures end { result ≤ at + 4 }
{
    if number >= 1_000 {
        put_four(bytes, at, number)
    } else if number >= 100 {
        let hundreds = hundreds_of(number);
        let behind = put_digit(bytes, at, hundreds);
        put_pair(bytes, behind, number - hundreds * 100)
    } else {
        put_below_100(bytes, at, number)
    }
}

/// Writes the digits of a number below 100.
fn put_below_100(bytes: &mut [u8; CAPACITY], at: usize, number: u32) -> usize
    requires { (number < 100) × (at + 2 ≤ 66) }
    ensures text { take result bytes.new ≡ take at bytes.old ++ decimal number }
    ensures end { result ≤ at + 2 }
{
    if number < 10 {
        put_digit(bytes, at, number)
    } else {
        put_pair(bytes, at, number)
    }
}

/// Writes the last four digits of a number, of which the first may be zero.
fn put_four(bytes: &mut [u8; CAPACITY], at: usize, number: u32) -> usize
    requires { (number < 10000) × (at + 4 ≤ 66) }
    ensures text { take result bytes.new
        ≡ take at bytes.old ++ (pair_text (number / 100) ++ pair_text (number % 100)) }
    ensures end { result ≡ at + 4 }
{
    let hundreds = hundreds_of(number);
    let behind = put_pair(bytes, at, hundreds);
    put_pair(bytes, behind, number - hundreds * 100)
}

/// How many hundreds a number below 10000 has. A product gives them by fewer instructions than a division by 100.
fn hundreds_of(number: u32) -> u32
    requires { number < 10000 }
    ensures { result ≡ number / 100 }
{
    number * 5_243 / 524_288
}

/// Writes two digits, of which the first may be zero.
fn put_pair(bytes: &mut [u8; CAPACITY], at: usize, pair: u32) -> usize
    requires { (pair < 100) × (at + 2 ≤ 66) }
    ensures text { take result bytes.new ≡ take at bytes.old ++ pair_text pair }
    ensures end { result ≡ at + 2 }
{
    let (tens, ones) = digits_of(pair);
    let behind = put_byte(bytes, at, tens);
    put_byte(bytes, behind, ones)
}

/// Writes the digit that a number below 10 is.
fn put_digit(bytes: &mut [u8; CAPACITY], at: usize, number: u32) -> usize
    requires { (number < 10) × (at + 1 ≤ 66) }
    ensures text { take result bytes.new ≡ take at bytes.old ++ decimal number }
    ensures end { result ≡ at + 1 }
{
    put_byte(bytes, at, b'0' + number as u8)
}

/// The digits of a number below 100, of which the first may be zero.
fn digits_of(pair: u32) -> (u8, u8)
    requires { pair < 100 }
    ensures { result.0 ∷ result.1 ∷ [] ≡ pair_text pair }
{
    let from = pair as usize * 2;
    let digits = PAIRS.as_bytes();
    (digits[from], digits[from + 1])
}
