//! Text and bytes of columns as strings.

ghost use Rattle.std.specs.Prelude.{◌≡◌, ◌++◌, OnOk};
ghost use Rattle.feed_text.specs.Buffers.{text_in};
ghost use Rattle.changes_writers.specs.FloatTexts.{AppendsSuch};
ghost use Rattle.changes_formats.specs.EnvelopeTexts.{IsEnvelopeText, character, characters, replaced, replaced_byte};

use crate::strings::{put_content, put_string};
use changes_character_sets::CharacterSet;
use feed_text::TextBuffer;
use std::alloc::{AllocError, Global};

/// The character that is in place of bytes that aren't text, in UTF-8.
const REPLACEMENT: &[u8] = b"\xef\xbf\xbd";

/// Appends a byte among bytes that aren't text.
fn put_replaced_byte(byte: u8, out: &mut TextBuffer<Global>) -> Result<(), AllocError>
    ensures { OnOk result (text_in out.new ≡ text_in out.old ++ replaced_byte byte) }
{
    if byte < 128 {
        return put_content(&[byte], out);
    }
    out.put_text(REPLACEMENT)
}

/// Appends bytes that aren't text of their character set: ASCII as it is, and a replacement character for each other byte.
fn put_replaced(bytes: &[u8], out: &mut TextBuffer<Global>) -> Result<(), AllocError>
    ensures { OnOk result (text_in out.new ≡ text_in out.old ++ replaced bytes.now) }
{
    out.put(b'"')?;
    for byte in bytes {
        put_replaced_byte(*byte, out)?;
    }
    out.put(b'"')
}

/// Appends text of a character set as a string. `decoded` is used on the way.
pub(crate) fn put_text(
    set: CharacterSet,
    bytes: &[u8],
    decoded: &mut Vec<u8>,
    out: &mut TextBuffer<Global>,
) -> Result<(), AllocError>
    ensures { OnOk result (AppendsSuch (IsEnvelopeText set bytes.now) (text_in out.old) (text_in out.new)) }
{
    decoded.clear();
    if set.decode(bytes, decoded)? {
        return put_string(decoded, out);
    }
    put_replaced(bytes, out)
}

/// Adds the character with the number of a byte, in UTF-8.
fn add_character(byte: u8, text: &mut Vec<u8>) -> Result<(), AllocError>
    ensures { OnOk result (text.new.items ≡ text.old.items ++ character byte) }
{
    if byte < 128 {
        text.push(byte)?;
        return Ok(());
    }
    text.push(192 + byte / 64)?;
    text.push(128 + byte % 64)?;
    Ok(())
}

/// Appends bytes as a string that has for each byte the character with its number, as ISO 8859-1 has it. `decoded` is used on the way.
pub(crate) fn put_characters(
    bytes: &[u8],
    decoded: &mut Vec<u8>,
    out: &mut TextBuffer<Global>,
) -> Result<(), AllocError>
    ensures { OnOk result (text_in out.new ≡ text_in out.old ++ characters bytes.now) }
{
    decoded.clear();
    for byte in bytes {
        add_character(*byte, decoded)?;
    }
    put_string(decoded, out)
}
