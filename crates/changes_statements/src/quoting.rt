//! Names, strings and bytes in quotes.

ghost use Rattle.std.specs.Prelude.{◌≡◌, ◌++◌, ◌∷◌, [], OnOk};
ghost use Rattle.std.specs.List.{list_all};
ghost use Rattle.feed_text.specs.Buffers.{text_in};
ghost use Rattle.changes_statements.specs.SqlTexts.{doubled as doubled_byte, between, name_text, string_text, is_plain as is_plain_byte, zeros, hexadecimal};

use feed_text::TextBuffer;
use std::alloc::{AllocError, Global};

/// Appends a byte, twice if it is the quote.
fn put_byte(quote: u8, byte: u8, out: &mut TextBuffer<Global>) -> Result<(), AllocError>
    ensures { OnOk result (text_in out.new ≡ text_in out.old ++ doubled_byte quote byte) }
{
    if byte == quote {
        return out.put_text(&[quote, quote]);
    }
    out.put(byte)
}

/// Appends bytes between quotes, with each quote among them twice.
fn put_doubled(quote: u8, bytes: &[u8], out: &mut TextBuffer<Global>) -> Result<(), AllocError>
    ensures { OnOk result (text_in out.new ≡ text_in out.old ++ between quote bytes.now) }
{
    out.put(quote)?;
    for byte in bytes {
        put_byte(quote, *byte, out)?;
    }
    out.put(quote)
}

/// Appends a name in backticks, with each backtick in it twice.
///
/// - `AllocError`: out of memory; a part of it may be appended.
pub fn put_name(name: &[u8], out: &mut TextBuffer<Global>) -> Result<(), AllocError>
    ensures { OnOk result (text_in out.new ≡ text_in out.old ++ name_text name.now) }
{
    put_doubled(b'`', name, out)
}

/// Appends bytes as a string.
pub(crate) fn put_string(bytes: &[u8], out: &mut TextBuffer<Global>) -> Result<(), AllocError>
    ensures { OnOk result (text_in out.new ≡ text_in out.old ++ string_text bytes.now) }
{
    put_doubled(b'\'', bytes, out)
}

/// Returns whether a byte is itself in a string, whatever the `sql_mode` is and whatever reads the text: it is no control character,
/// and no backslash.
fn is_plain(byte: u8) -> bool
    ensures { result ≡ is_plain_byte byte }
{
    byte >= 32 && byte != 127 && byte != b'\\'
}

/// Returns whether all bytes are themselves in a string.
pub(crate) fn are_plain(bytes: &[u8]) -> bool
    ensures { result ≡ list_all is_plain_byte bytes.now }
{
    for byte in bytes {
        if !is_plain(*byte) {
            return false;
        }
    }
    true
}

/// Appends so many zeros.
fn put_zeros(count: usize, out: &mut TextBuffer<Global>) -> Result<(), AllocError>
    ensures { OnOk result (text_in out.new ≡ text_in out.old ++ zeros count) }
{
    for index in 0..count {
        out.put(b'0')?;
    }
    Ok(())
}

/// Appends bytes as a hexadecimal literal, with zeros after them up to a length.
pub(crate) fn put_hexadecimal(
    bytes: &[u8],
    padded_len: u8,
    out: &mut TextBuffer<Global>,
) -> Result<(), AllocError>
    ensures { OnOk result (text_in out.new ≡ text_in out.old ++ hexadecimal padded_len bytes.now) }
{
    out.put_text(b"X'")?;
    out.put_hexadecimal(bytes)?;
    put_zeros(2 * usize::from(padded_len).saturating_sub(bytes.len()), out)?;
    out.put(b'\'')
}
