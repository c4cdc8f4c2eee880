//! The values of JSON documents within JSON lines.

ghost use Rattle.std.specs.Prelude.{◌≡◌, ◌≤◌, ◌+◌, ◌*◌, ◌∷◌, ◌++◌, ℕ, List, IfNone, IfSome, OnOk, IfErr, Some, true, false, length, take};
ghost use Rattle.std.specs.Str.{is_utf8};
ghost use Rattle.changes_writers.specs.JsonStrings.{json_string};
ghost use Rattle.changes_cells.specs.JsonDocuments.{json_form, is_reserved};

use crate::parts::{append_base64, time_start};
use changes_writers::{put_double, put_plain_string, put_string_content, put_utf8_string};
use feed_text::{DocumentForm, put_temporal};
use feed_writers::{put_byte, put_bytes, put_number};
use itoa::Buffer;
use rows_errors::RowsError;
use rows_values::{Decimal, MysqlTime};
use std::alloc::Allocator;
use std::str;

/// The form of JSON lines.
pub struct JsonForm;

/// Returns whether a key could be mistaken for one of ours: it begins with `$`, or is `base64` or `diffs`.
#[inline(always)]
fn is_reserved(key: &[u8]) -> bool
    ensures { result ≡ is_reserved key.now }
{
    match key {
        [b'$', ..] => true,
        [b'b', ..] => key == b"base64".as_slice(),
        [b'd', ..] => key == b"diffs".as_slice(),
        _ => false,
    }
}

/// Writes a reserved key after a `$`; returns `None` if it isn't UTF-8.
#[inline(never)]
fn put_reserved_key(text: &mut [u8], at: usize, key: &[u8]) -> Option<usize>
    requires room { at + (6 * length key.now + 24) ≤ length text.old }
    ensures kept { IfNone result (take at text.new ≡ take at text.old) }
    ensures none { IfNone result (is_utf8 key.now ≡ false) }
    ensures most { IfSome result (λ end. end ≤ at + (6 * length key.now + 24)) }
    ensures utf8 { IfSome result (λ end. is_utf8 key.now ≡ true) }
    ensures text { IfSome result (λ end. take end text.new ≡ take at text.old ++ json_string (36 ∷ key.now)) }
{
    let Ok(_text) = str::from_utf8(key) else {
        return None;
    };
    let start = put_bytes(text, at, b"\"$");
    let end = put_string_content(text, start, key);
    Some(put_byte(text, end, b'"'))
}

impl DocumentForm for JsonForm {
    ghost form = { json_form };

    const ESCAPE_LEN: usize = 6;

    ghost ESCAPE_LEN = { 6 };

    #[inline(always)]
    fn put_uint(text: &mut [u8], at: usize, number: u64) -> usize {
        put_number(text, at, number)
    }

    #[inline(always)]
    fn put_double(text: &mut [u8], at: usize, bits: u64) -> usize {
        put_double(text, at, bits)
    }

    #[inline(always)]
    fn put_short_string(text: &mut [u8], at: usize, bytes: &[u8], len: usize) -> Option<usize> {
        put_plain_string(text, at, bytes, len)
    }

    #[inline(always)]
    fn put_string(text: &mut [u8], at: usize, bytes: &[u8]) -> Option<usize> {
        put_utf8_string(text, at, bytes)
    }

    #[inline(always)]
    fn put_short_key(text: &mut [u8], at: usize, bytes: &[u8], len: usize) -> Option<usize> {
        if is_reserved(&bytes[..len]) {
            return None;
        }
        put_plain_string(text, at, bytes, len)
    }

    #[inline(always)]
    fn put_key(text: &mut [u8], at: usize, bytes: &[u8]) -> Option<usize> {
        if is_reserved(bytes) {
            return put_reserved_key(text, at, bytes);
        }
        put_utf8_string(text, at, bytes)
    }

    fn put_time(text: &mut [u8], at: usize, time: &MysqlTime) -> usize {
        let start = put_bytes(text, at, time_start(time.time_type));
        let end = put_temporal(text, start, time);
        put_bytes(text, end, b"\"}")
    }

    fn append_decimal<A: Allocator>(
        decimal: &Decimal,
        out: &mut Vec<u8, A>,
    ) -> Result<(), RowsError> {
        out.extend_from_slice(b"{\"$decimal\":\"")?;
        decimal.append_text(out)?;
        out.extend_from_slice(b"\"}")?;
        Ok(())
    }

    fn append_opaque<A: Allocator>(
        number: u8,
        bytes: &[u8],
        out: &mut Vec<u8, A>,
    ) -> Result<(), RowsError> {
        let mut buffer = Buffer::new();
        let digits = buffer.format(number);
        out.extend_from_slice(b"{\"$type\":")?;
        out.extend_from_slice(digits.as_bytes())?;
        out.extend_from_slice(b",\"base64\":")?;
        append_base64(bytes, out)?;
        out.push(b'}')?;
        Ok(())
    }
}
