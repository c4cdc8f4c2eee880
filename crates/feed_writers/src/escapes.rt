//! Bytes that are escaped between quotes.

ghost use Rattle.std.specs.Prelude.{◌≡◌, ◌≤◌, ◌+◌, ◌*◌, ◌/◌, ◌%◌, ◌∷◌, ◌++◌, [], length, take, false};
ghost use Rattle.std.specs.Fmt.{digit_glyph};
ghost use Rattle.std.specs.List.{flat_map};
ghost use Rattle.feed_writers.specs.Quoting.{escape};

use rows_values::put_byte;

/// The lower case hexadecimal digits.
pub(crate) static DIGITS: [u8; 16] = *b"0123456789abcdef";

/// Writes a backslash and the two hexadecimal digits of a byte.
#[inline(always)]
pub(crate) fn put_escape(text: &mut [u8], at: usize, byte: u8) -> usize
    requires { at + 3 ≤ length text.old }
    ensures end { result ≡ at + 3 }
    ensures text { take result text.new ≡ take at text.old ++ escape byte }
{
    let end = put_byte(text, at, b'\\');
    put_hex(text, end, byte)
}

/// Writes the two lower case hexadecimal digits of a byte.
#[inline(always)]
pub(crate) fn put_hex(text: &mut [u8], at: usize, byte: u8) -> usize
    requires { at + 2 ≤ length text.old }
    ensures end { result ≡ at + 2 }
    ensures text { take result text.new ≡ take at text.old ++ digit_glyph false (byte / 16) ∷ digit_glyph false (byte % 16) ∷ [] }
{
    let end = put_byte(text, at, DIGITS[usize::from(byte / 16)]);
    put_byte(text, end, DIGITS[usize::from(byte % 16)])
}

/// Writes a backslash and the two hexadecimal digits of each byte.
#[inline(always)]
pub fn put_escapes(text: &mut [u8], at: usize, bytes: &[u8]) -> usize
    requires { at + 3 * length bytes.now ≤ length text.old }
    ensures end { result ≡ at + 3 * length bytes.now }
    ensures text { take result text.new ≡ take at text.old ++ flat_map escape bytes.now }
{
    let mut end = at;
    for byte in bytes {
        end = put_escape(text, end, *byte);
    }
    end
}
