//! Short text in a character set as UTF-8.

ghost use Rattle.std.specs.Prelude.{◌≡◌, ◌≤◌, length};
ghost use Rattle.changes_cells.specs.DecodedTexts.{IsDecoded};

use changes_character_sets::CharacterSet;
use feed_writers::put_bytes;

/// The maximum length of a character in UTF-8.
const CHARACTER_LEN_MAX: usize = 4;

/// The maximum length of a short text in UTF-8.
pub(crate) const DECODED_LEN_MAX: usize = 66;

/// What bytes are in a character set.
#[derive(Clone, Copy)]
pub(crate) enum Decoded {
    /// Text, which has so many bytes in UTF-8.
    Text(usize),
    /// No text.
    NoText,
    /// Text that may have more bytes in UTF-8 than there is room for.
    LongText,
}

/// Decodes text of a character set into a buffer, if it is short.
#[inline(never)]
pub(crate) fn decode_few(
    set: CharacterSet,
    bytes: &[u8],
    buffer: &mut [u8; DECODED_LEN_MAX],
) -> Decoded
    ensures { IsDecoded set bytes.now buffer.new result }
{
    let mut end = 0;
    let mut rest = bytes;
    while !rest.is_empty() {
        let Some((character, after)) = set.split_character(rest) else {
            return Decoded::NoText;
        };
        if end > DECODED_LEN_MAX - CHARACTER_LEN_MAX {
            return Decoded::LongText;
        }
        end = put_bytes(buffer, end, character.encode_utf8(&mut [0; 4]).as_bytes());
        rest = after;
    }
    Decoded::Text(end)
}
