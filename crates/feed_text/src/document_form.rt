//! How the values of JSON documents are written.

ghost use Rattle.std.specs.Prelude.{List, Option, ◌≡◌, ◌≤◌, ◌+◌, ◌*◌, ◌++◌, ℕ, IfNone, IfSome, OnOk, IfErr, true, false, length, take};
ghost use Rattle.std.specs.Str.{is_utf8};
ghost use Rattle.rows_values.specs.Decimals.{decimal_parts};
ghost use Rattle.rows_errors.specs.declared.fault.RowsError.TheVariants.{Memory};
ghost use Rattle.feed_text.specs.DocumentForms.{Form, IsValueIn, AppendsOne};

use rows_errors::RowsError;
use rows_jsonb::{JsonDiffOperation, JsonDom};
use rows_values::{Decimal, MysqlTime};
use std::alloc::Allocator;

/// The text of the values of JSON documents. That of arrays and objects follows from it: their elements and members in brackets
/// and braces, with commas between them. `null`, `true`, `false` and signed integers have the same text in each form.
///
/// Functions that take a text and an offset write there, and return the offset of their end.
pub trait DocumentForm {
    ghost form: { Form };

    /// The maximum length of a byte's text within a string or a key.
    const ESCAPE_LEN: usize;

    ghost ESCAPE_LEN: { ℕ };

    /// Writes an unsigned integer.
    fn put_uint(text: &mut [u8], at: usize, number: u64) -> usize
        requires { at + 24 ≤ length text.old }
        ensures most { result ≤ at + 24 }
        ensures text { take result text.new ≡ take at text.old ++ form.uint number };

    /// Writes a double, by its bits.
    fn put_double(text: &mut [u8], at: usize, bits: u64) -> usize
        requires { at + 32 ≤ length text.old }
        ensures most { result ≤ at + 32 }
        ensures text { AppendsOne (form.IsDouble bits) (take at text.old) (take result text.new) };

    /// Writes the first `len` of sixteen bytes as a string, or returns `None`. It may give up on any bytes.
    fn put_short_string(text: &mut [u8], at: usize, bytes: &[u8], len: usize) -> Option<usize>
        requires few { len ≤ 16 }
        requires sixteen { 16 ≤ length bytes.now }
        requires room { at + 18 ≤ length text.old }
        ensures none { IfNone result (text.new ≡ text.old) }
        ensures most { IfSome result (λ end. end ≤ at + 18) }
        ensures utf8 { IfSome result (λ end. is_utf8 (take len bytes.now) ≡ true) }
        ensures text { IfSome result (λ end. take end text.new ≡ take at text.old ++ form.string (take len bytes.now)) };

    /// Writes bytes as a string; returns `None` if they aren't UTF-8.
    fn put_string(text: &mut [u8], at: usize, bytes: &[u8]) -> Option<usize>
        requires { at + (ESCAPE_LEN * length bytes.now + 24) ≤ length text.old }
        ensures kept { IfNone result (take at text.new ≡ take at text.old) }
        ensures none { IfNone result (is_utf8 bytes.now ≡ false) }
        ensures most { IfSome result (λ end. end ≤ at + (ESCAPE_LEN * length bytes.now + 24)) }
        ensures utf8 { IfSome result (λ end. is_utf8 bytes.now ≡ true) }
        ensures text { IfSome result (λ end. take end text.new ≡ take at text.old ++ form.string bytes.now) };

    /// Writes the first `len` of sixteen bytes as a key, or returns `None`. It may give up on any bytes.
    fn put_short_key(text: &mut [u8], at: usize, bytes: &[u8], len: usize) -> Option<usize>
        requires few { len ≤ 16 }
        requires sixteen { 16 ≤ length bytes.now }
        requires room { at + 18 ≤ length text.old }
        ensures none { IfNone result (text.new ≡ text.old) }
        ensures most { IfSome result (λ end. end ≤ at + 18) }
        ensures utf8 { IfSome result (λ end. is_utf8 (take len bytes.now) ≡ true) }
        ensures text { IfSome result (λ end. take end text.new ≡ take at text.old ++ form.key (take len bytes.now)) };

    /// Writes bytes as a key; returns `None` if they aren't UTF-8.
    fn put_key(text: &mut [u8], at: usize, bytes: &[u8]) -> Option<usize>
        requires { at + (ESCAPE_LEN * length bytes.now + 24) ≤ length text.old }
        ensures kept { IfNone result (take at text.new ≡ take at text.old) }
        ensures none { IfNone result (is_utf8 bytes.now ≡ false) }
        ensures most { IfSome result (λ end. end ≤ at + (ESCAPE_LEN * length bytes.now + 24)) }
        ensures utf8 { IfSome result (λ end. is_utf8 bytes.now ≡ true) }
        ensures text { IfSome result (λ end. take end text.new ≡ take at text.old ++ form.key bytes.now) };

    /// Writes a date, a time, or both.
    fn put_time(text: &mut [u8], at: usize, time: &MysqlTime) -> usize
        requires { at + 96 ≤ length text.old }
        ensures most { result ≤ at + 96 }
        ensures text { take result text.new ≡ take at text.old ++ form.time time.now };

    /// Appends a decimal. `Memory`: out of memory; a part of it may be left.
    fn append_decimal<A: Allocator>(
        decimal: &Decimal,
        out: &mut Vec<u8, A>,
    ) -> Result<(), RowsError>
        ensures ok { OnOk result (out.new.items ≡ out.old.items ++ form.decimal (decimal_parts decimal.now)) }
        ensures err { IfErr result (λ e. e ≡ Memory) }
        ensures kept { take (length out.old.items) out.new.items ≡ out.old.items };

    /// Appends a value of the column type with this number. `Memory`: out of memory; a part of it may be left.
    fn append_opaque<A: Allocator>(
        number: u8,
        bytes: &[u8],
        out: &mut Vec<u8, A>,
    ) -> Result<(), RowsError>
        ensures ok { OnOk result (out.new.items ≡ out.old.items ++ form.opaque number bytes.now) }
        ensures err { IfErr result (λ e. e ≡ Memory) }
        ensures kept { take (length out.old.items) out.new.items ≡ out.old.items };
}

/// The text of partial updates of JSON documents.
pub trait UpdateForm: DocumentForm {
    /// Appends a partial update: its operation, its path, and the new value, if it has one. `Memory`: out of memory; a part of it may
    /// be left.
    fn append_update<A: Allocator>(
        operation: JsonDiffOperation,
        path: &[u8],
        value: Option<&JsonDom>,
        out: &mut Vec<u8, A>,
    ) -> Result<(), RowsError>
        ensures ok { OnOk result (AppendsOne (λ x. (v : Option (List ℕ)) × IsValueIn Self.form value.entry v × (x ≡ Self.form.update operation path.now v)) out.old.items out.new.items) }
        ensures err { IfErr result (λ e. e ≡ Memory) }
        ensures kept { take (length out.old.items) out.new.items ≡ out.old.items };

    /// Returns what is before all updates, and what is after them.
    fn around_updates() -> (&'static [u8], &'static [u8])
        ensures before { result.0.now ≡ Self.form.before_updates }
        ensures following { result.1.now ≡ Self.form.after_updates };
}
