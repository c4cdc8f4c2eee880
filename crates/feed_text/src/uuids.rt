//! The text of UUIDs.

ghost use Rattle.std.specs.Prelude.{◌≡◌, ◌++◌, ◌∷◌, OnOk};
ghost use Rattle.hex.specs.Hex.{encode_lower};
ghost use Rattle.feed_text.specs.Buffers.{text_in};
ghost use Rattle.feed_text.specs.Uuids.{uuid_text};

use crate::buffer::TextBuffer;
use std::alloc::{AllocError, Allocator};

/// Appends a UUID in hexadecimal digits, in groups of 8, 4, 4, 4 and 12.
///
/// - `AllocError`: out of memory; a part of it may be appended.
#[inline]
pub fn put_uuid<A: Allocator>(uuid: &[u8; 16], text: &mut TextBuffer<A>) -> Result<(), AllocError>
    ensures ok { OnOk result (text_in text.new ≡ text_in text.old ++ uuid_text uuid.now) }
{
    text.put_hexadecimal(&uuid[..4])?;
    put_group(&uuid[4..6], text)?;
    put_group(&uuid[6..8], text)?;
    put_group(&uuid[8..10], text)?;
    put_group(&uuid[10..], text)
}

/// Appends a hyphen and a group of hexadecimal digits.
fn put_group<A: Allocator>(bytes: &[u8], text: &mut TextBuffer<A>) -> Result<(), AllocError>
    ensures ok { OnOk result (text_in text.new ≡ text_in text.old ++ 45 ∷ encode_lower bytes.now) }
{
    text.put(b'-')?;
    text.put_hexadecimal(bytes)
}
