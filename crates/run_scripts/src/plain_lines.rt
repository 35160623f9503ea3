//! Lines as programs write them: a letter, one or two numbers without a sign, and a line feed, read in one pass. Every
//! other line, a wrong one too, and those at the very end of a script are left to `lines` and `words`.
//!
//! Definition: `PlainLines`, over `Lines`, `Numbers` and `Words`.

ghost use Rattle.std.specs.Prelude.{◌≡◌, ◌<◌, ◌≤◌, ◌+◌, ◌^◌, pos, drop, length, IfSome};
ghost use Rattle.run_scripts.specs.Private.PlainLines.{BeginsWithCommand, BeginsWithNumber};

use crate::words::LetteredCommand;
use etagere_base::Size;

/// How many bytes a number and what ends it have at most. So many have to be there, which leaves one test for the end
/// of the bytes in place of one at each digit.
const SHORT: usize = 9;

/// The digit zero.
const ZERO: u32 = 48;

/// How many bytes a line has at most: a letter, a space, and two numbers with what ends them. So many have to be there,
/// which leaves one test for the end of the bytes in place of one at each number.
const LONGEST: usize = 20;

/// The command of the first line, where that is plain, and the bytes after it. Always inlined: it is called for each
/// line behind the header of a script.
#[inline(always)]
pub fn plain_command<C: LetteredCommand>(bytes: &[u8]) -> Option<(C, &[u8])>
    ensures { IfSome result (λ parts.
        BeginsWithCommand C.cleared C.meaning bytes.now parts.0 parts.1.now) }
{
    if bytes.len() < LONGEST {
        return None;
    }
    let letter = bytes[0];
    if letter <= b' ' || bytes[1] != b' ' {
        return None;
    }
    let (first, end) = number_at(bytes, 2)?;
    match bytes[end] {
        b'\n' => {
            let number = u64::from(first);
            Some((C::with_number(letter, number)?, &bytes[end + 1..]))
        }
        b' ' => {
            let (second, end) = number_at(bytes, end + 1)?;
            if bytes[end] != b'\n' {
                return None;
            }
            let size = size_of_sides(first, second);
            Some((C::with_size(letter, size)?, &bytes[end + 1..]))
        }
        _ => None,
    }
}

/// The value of the digits from a place on, where they are fewer than nine, and the place behind them. Always inlined, as
/// `plain_command` is.
#[inline(always)]
fn number_at(bytes: &[u8], from: usize) -> Option<(u32, usize)>
    requires { from + 9 ≤ length bytes.now }
    ensures number { IfSome result (λ parts.
        BeginsWithNumber (drop from bytes.now) parts.0 (drop parts.1 bytes.now)) }
    ensures small { IfSome result (λ parts. parts.0 < 100000000) }
    ensures end { IfSome result (λ parts. parts.1 ≤ from + 8) }
{
    let mut value = 0u32;
    for index in 0..SHORT {
        let digit = u32::from(bytes[from + index]).wrapping_sub(ZERO);
        if digit > 9 {
            return if index == 0 {
                None
            } else {
                Some((value, from + index))
            };
        }
        value = value * 10 + digit;
    }
    None
}

/// The size with these sides. Always inlined, as `plain_command` is.
#[inline(always)]
fn size_of_sides(width: u32, height: u32) -> Size
    requires { (width < 2 ^ 31) × (height < 2 ^ 31) }
    ensures { result ≡ record { width = pos width; height = pos height } }
{
    Size {
        width: width as i32,
        height: height as i32,
    }
}
