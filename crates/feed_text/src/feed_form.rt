//! The values of JSON documents in the text of the feed.

ghost use Rattle.std.specs.Prelude.{◌≡◌, ◌≤◌, ◌+◌, ◌∷◌, ◌++◌, ℕ, List, OnOk, IfErr, length, take, take_while};
ghost use Rattle.feed_writers.specs.Quoting.{is_plain_byte, quoted};
ghost use Rattle.rows_jsonb.specs.JsonTreeViews.{view};
ghost use Rattle.rows_errors.specs.declared.fault.RowsError.TheVariants.{Memory};
ghost use Rattle.feed_text.specs.JsonText.{temporal_text};
ghost use Rattle.feed_text.specs.DocumentForms.{IsDocumentIn, AppendsOne};
ghost use Rattle.feed_text.specs.DiffText.{operation_text};
ghost use Rattle.feed_text.specs.FeedDocuments.{feed_form};

use crate::document_form::{DocumentForm, UpdateForm};
use crate::documents::put_tree;
use crate::pieces::append_all;
use crate::quoting::quote;
use feed_writers::{
    Clock, Day, plain_len, put_byte, put_bytes, put_clock, put_day, put_hexadecimal, put_number,
    put_plain_quoted, put_quoted,
};
use itoa::Buffer;
use rows_errors::RowsError;
use rows_jsonb::{JsonDiffOperation, JsonDom};
use rows_values::{Decimal, MysqlTime, MysqlTimestampType};
use std::alloc::Allocator;
use std::str;

/// The form of the feed: numbers as in cells, strings and keys in single quotes.
pub struct FeedForm;

/// The length up to which a string is first tested for plain bytes, all at once.
const FEW_BYTES: usize = 64;

/// Writes plain bytes in single quotes.
#[inline(always)]
fn put_plain(text: &mut [u8], at: usize, bytes: &[u8]) -> usize
    requires plain { length (take_while is_plain_byte bytes.now) ≡ length bytes.now }
    requires room { at + (length bytes.now + 2) ≤ length text.old }
    ensures most { result ≤ at + (length bytes.now + 2) }
    ensures text { take result text.new ≡ take at text.old ++ quoted bytes.now }
{
    let start = put_byte(text, at, b'\'');
    let end = put_bytes(text, start, bytes);
    put_byte(text, end, b'\'')
}

/// Writes a date `YYYY-MM-DD`, a time `hh:mm:ss.uuuuuu` after a `-` if it is negative, or both with a space between them.
#[tactic(auto, unfolding(crate::specs::JsonText::temporal_text))]
pub fn put_temporal(text: &mut [u8], at: usize, time: &MysqlTime) -> usize
    requires { at + 77 ≤ length text.old }
    ensures most { result ≤ at + 76 }
    ensures text { take result text.new ≡ take at text.old ++ temporal_text time.now }
{
    let day = Day {
        year: time.year,
        month: time.month,
        day: time.day,
    };
    let clock = Clock {
        hour: time.hour,
        minute: time.minute,
        second: time.second,
        micros: time.second_part,
    };
    match time.time_type {
        MysqlTimestampType::MYSQL_TIMESTAMP_DATE => put_day(text, at, day),
        MysqlTimestampType::MYSQL_TIMESTAMP_TIME => {
            let start = if time.neg {
                put_byte(text, at, b'-')
            } else {
                at
            };
            put_clock(text, start, clock)
        }
        _ => {
            let end = put_day(text, at, day);
            let end = put_byte(text, end, b' ');
            put_clock(text, end, clock)
        }
    }
}

impl DocumentForm for FeedForm {
    ghost form = { feed_form };

    const ESCAPE_LEN: usize = 3;

    ghost ESCAPE_LEN = { 3 };

    #[inline(always)]
    fn put_uint(text: &mut [u8], at: usize, number: u64) -> usize {
        let end = put_byte(text, at, b'u');
        put_number(text, end, number)
    }

    #[inline(always)]
    fn put_double(text: &mut [u8], at: usize, bits: u64) -> usize {
        let end = put_byte(text, at, b'd');
        put_hexadecimal(text, end, &bits.to_be_bytes())
    }

    #[inline(always)]
    fn put_short_string(text: &mut [u8], at: usize, bytes: &[u8], len: usize) -> Option<usize> {
        put_plain_quoted(text, at, bytes, len)
    }

    #[inline(always)]
    fn put_string(text: &mut [u8], at: usize, bytes: &[u8]) -> Option<usize> {
        if bytes.len() <= FEW_BYTES && plain_len(bytes) == bytes.len() {
            return Some(put_plain(text, at, bytes));
        }
        let Ok(_text) = str::from_utf8(bytes) else {
            return None;
        };
        Some(put_quoted(text, at, bytes))
    }

    #[inline(always)]
    fn put_short_key(text: &mut [u8], at: usize, bytes: &[u8], len: usize) -> Option<usize> {
        put_plain_quoted(text, at, bytes, len)
    }

    #[inline(always)]
    fn put_key(text: &mut [u8], at: usize, bytes: &[u8]) -> Option<usize> {
        FeedForm::put_string(text, at, bytes)
    }

    #[inline(always)]
    fn put_time(text: &mut [u8], at: usize, time: &MysqlTime) -> usize {
        let end = put_byte(text, at, b't');
        let end = put_byte(text, end, b'\'');
        let end = put_temporal(text, end, time);
        put_byte(text, end, b'\'')
    }

    fn append_decimal<A: Allocator>(
        decimal: &Decimal,
        out: &mut Vec<u8, A>,
    ) -> Result<(), RowsError> {
        decimal.append_text(out)?;
        Ok(())
    }

    fn append_opaque<A: Allocator>(
        number: u8,
        bytes: &[u8],
        out: &mut Vec<u8, A>,
    ) -> Result<(), RowsError> {
        let mut buffer = Buffer::new();
        let number = buffer.format(number);
        append_all(&[b"o".as_slice(), number.as_bytes(), b":".as_slice()], out)?;
        quote(bytes, out)
    }
}

impl UpdateForm for FeedForm {
    fn append_update<A: Allocator>(
        operation: JsonDiffOperation,
        path: &[u8],
        value: Option<&JsonDom>,
        out: &mut Vec<u8, A>,
    ) -> Result<(), RowsError> {
        out.extend_from_slice(operation_word(operation))?;
        quote(path, out)?;
        match value {
            Some(value) => append_after_space(value, out),
            None => Ok(()),
        }
    }

    fn around_updates() -> (&'static [u8], &'static [u8]) {
        (b"diff[", b"]")
    }
}

/// The word for an operation, and a space.
fn operation_word(operation: JsonDiffOperation) -> &'static [u8]
    ensures { result.now ≡ operation_text operation }
{
    match operation {
        JsonDiffOperation::REPLACE => b"replace ",
        JsonDiffOperation::INSERT => b"insert ",
        JsonDiffOperation::REMOVE => b"remove ",
    }
}

/// Appends a space and the text of a JSON document's tree. An error may leave a part of it.
fn append_after_space<A: Allocator>(tree: &JsonDom, out: &mut Vec<u8, A>) -> Result<(), RowsError>
    ensures ok { OnOk result (AppendsOne (λ x. (v : List ℕ) × IsDocumentIn feed_form (view tree.now) v × (x ≡ 32 ∷ v)) out.old.items out.new.items) }
    ensures err { IfErr result (λ e. e ≡ Memory) }
    ensures kept { take (length out.old.items) out.new.items ≡ out.old.items }
{
    out.push(b' ')?;
    put_tree::<A, FeedForm>(tree, out)
}
