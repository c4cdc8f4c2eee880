//! The bytes of a JSON string, one at a time.

ghost use Rattle.std.specs.Prelude.{◌≡◌, ◌≤◌, ◌<◌, ◌+◌, ◌*◌, ◌++◌, length, take, false};
ghost use Rattle.std.specs.List.{flat_map};
ghost use Rattle.changes_writers.specs.JsonStrings.{is_unescaped, escape_letter, code_digits, json_escape, json_byte};

use feed_writers::put_byte;

/// The lower case hexadecimal digits.
static DIGITS: [u8; 16] = *b"0123456789abcdef";

/// Whether a byte of a string is written unchanged: it is no control character, quote or backslash.
#[inline(always)]
fn is_unescaped(byte: u8) -> bool
    ensures { result ≡ is_unescaped byte }
{
    (byte >= 0x20) & (byte != b'"') & (byte != b'\\')
}

/// The letter of an escape: `u` for a byte that is written as four digits.
#[inline(always)]
fn escape_letter(byte: u8) -> u8
    ensures { result ≡ escape_letter byte }
{
    match byte {
        b'"' | b'\\' => byte,
        b'\n' => b'n',
        b'\r' => b'r',
        b'\t' => b't',
        _ => b'u',
    }
}

/// Writes the code of a byte in four hexadecimal digits.
#[inline(always)]
fn put_code(text: &mut [u8], at: usize, byte: u8) -> usize
    requires { at + 4 ≤ length text.old }
    ensures end { result ≡ at + 4 }
    ensures text { take result text.new ≡ take at text.old ++ code_digits byte }
{
    let end = put_byte(text, at, b'0');
    let end = put_byte(text, end, b'0');
    let end = put_byte(text, end, DIGITS[usize::from(byte / 16)]);
    put_byte(text, end, DIGITS[usize::from(byte % 16)])
}

/// Writes the escape of a byte.
#[inline(never)]
pub(crate) fn put_escape(text: &mut [u8], at: usize, byte: u8) -> usize
    requires { at + 6 ≤ length text.old }
    ensures most { result ≤ at + 6 }
    ensures text { take result text.new ≡ take at text.old ++ json_escape byte }
{
    let letter = escape_letter(byte);
    let end = put_byte(text, at, b'\\');
    let end = put_byte(text, end, letter);
    if letter == b'u' {
        return put_code(text, end, byte);
    }
    end
}

/// Writes a byte of a string.
#[inline(always)]
fn put_one(text: &mut [u8], at: usize, byte: u8) -> usize
    requires { at + 6 ≤ length text.old }
    ensures most { result ≤ at + 6 }
    ensures text { take result text.new ≡ take at text.old ++ json_byte byte }
{
    if is_unescaped(byte) {
        return put_byte(text, at, byte);
    }
    put_escape(text, at, byte)
}

/// Writes the bytes of a string.
#[inline(never)]
pub(crate) fn put_each(text: &mut [u8], at: usize, bytes: &[u8]) -> usize
    requires { at + 6 * length bytes.now ≤ length text.old }
    ensures most { result ≤ at + 6 * length bytes.now }
    ensures text { take result text.new ≡ take at text.old ++ flat_map json_byte bytes.now }
{
    let mut end = at;
    for byte in bytes {
        end = put_one(text, end, *byte);
    }
    end
}
