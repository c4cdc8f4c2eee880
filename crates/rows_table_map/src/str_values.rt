//! The members of `ENUM` and `SET` columns.

ghost use Rattle.std.specs.Prelude.{◌≡◌, ◌<◌, ◌⊎◌, ⊤, ℕ, List, [], OnOk, IfOk, IfErr, Ok, Err, map, length, take};
ghost use Rattle.std.specs.Cow.{cow_slice_items, cow_str_bytes};
ghost use Rattle.std.specs.Iterator.{at_most};
ghost use Rattle.std.specs.Str.Lossy.{utf8_lossy};
ghost use Rattle.wire_buf.specs.Writing.{WritesField};
ghost use Rattle.wire_buf.specs.declared.fault.WireFault.TheVariants.{Memory as WantOfMemory};
ghost use Rattle.wire_fields.specs.ByteStrings.{IsAll};
ghost use Rattle.rows_errors.specs.declared.fault.RowsError.TheVariants.{Memory};
ghost use Rattle.rows_table_map.specs.Entries.{StringEncoding, string_at};
ghost use Rattle.rows_table_map.specs.FieldEncodings.{all_encoded, string_encoded, members_encoded};
ghost use Rattle.rows_table_map.specs.Members.{MembersEncoding, members, members_at};
ghost use Rattle.rows_table_map.specs.MetadataViews.{value_view, values_view, columns_values_view, remaining_members, ReturnsMembers};

use crate::entries::{split_number, split_string};
use crate::reading::{take_all, take_string};
use crate::writing::put_all;
use rows_errors::RowsError;
use std::alloc::{AllocError, Allocator, Global};
use std::borrow::{CowSlice, CowStr};
use wire_buf::{
    AnySize, Inner, MyDeserialize, MySerialize, ParseBuf, WireFault, truncate_on_error,
};
use wire_fields::{BytesRepr, IntRepr, LenEnc, RawBytes};

/// The name of a member, which may not be UTF-8.
#[derive(PartialEq, Eq, Drop)]
pub struct StrValue<'a> {
    value: RawBytes<'a, LenEnc>,
}

/// The name of a member of a `SET` column.
pub type SetStrValue<'a> = StrValue<'a>;

/// The name of a member of an `ENUM` column.
pub type EnumStrValue<'a> = StrValue<'a>;

impl<'a> StrValue<'a> {
    /// Creates a member with this name.
    pub fn new(value: CowSlice<'a, u8>) -> StrValue<'a>
        ensures { value_view result ≡ cow_slice_items value.entry }
    {
        StrValue {
            value: RawBytes::new(value),
        }
    }

    /// Returns the bytes of the name.
    pub fn value_raw(&self) -> &[u8]
        ensures { result.now ≡ value_view self.now }
    {
        self.value.as_bytes()
    }

    /// Returns the name as text, with replacement characters where it isn't UTF-8.
    pub fn value(&self, alloc: Global) -> Result<CowStr<'_>, AllocError>
        ensures { IfOk result (λ t. cow_str_bytes t ≡ utf8_lossy (value_view self.now)) }
    {
        self.value.as_str(alloc)
    }
}

/// The members of one column.
#[derive(PartialEq, Eq, Drop)]
pub struct StrValues<'a> {
    values: Vec<StrValue<'a>>,
}

/// The members of one `SET` column.
pub type SetStrValues<'a> = StrValues<'a>;

/// The members of one `ENUM` column.
pub type EnumStrValues<'a> = StrValues<'a>;

impl<'a> StrValues<'a> {
    /// Returns the number of members.
    pub fn num_variants(&self) -> u64
        ensures { result ≡ length (values_view self.now) }
    {
        self.values.len() as u64
    }

    /// Returns the members, in order.
    pub fn values(&self) -> &[StrValue<'a>]
        ensures { map value_view result.now ≡ values_view self.now }
    {
        &self.values
    }
}

/// The members of each `ENUM` or each `SET` column, in the fields `ENUM_STR_VALUE` and `SET_STR_VALUE`.
#[derive(Clone, Copy, PartialEq, Eq)]
pub struct ColumnsStrValues<'a> {
    values: &'a [u8],
}

/// The members of each `SET` column.
pub type SetsStrValues<'a> = ColumnsStrValues<'a>;

/// The members of each `ENUM` column.
pub type EnumsStrValues<'a> = ColumnsStrValues<'a>;

impl<'a> ColumnsStrValues<'a> {
    /// Wraps the value of a field: for each column a count as a length-encoded integer, and that many length-encoded strings.
    pub(crate) fn of_value(value: &'a [u8]) -> ColumnsStrValues<'a>
        ensures { result.values ≡ value.entry }
    {
        ColumnsStrValues { values: value }
    }

    /// Iterates over the members of each column, in the order of the columns. The iterator keeps the allocator for the lists that
    /// it returns.
    pub fn iter_values(&self, alloc: Global) -> IterStrValues<'a>
        ensures { remaining_members result ≡ members self.now.values.now }
    {
        IterStrValues {
            bytes: self.values,
            alloc,
        }
    }
}

/// The members of the remaining columns. A list grows with the strings that are read, not by its count. A column whose members
/// can't be read is the last item, and so is `Memory`.
#[derive(Drop)]
pub struct IterStrValues<'a> {
    bytes: &'a [u8],
    alloc: Global,
}

/// The members of the remaining `SET` columns.
pub type IterSetStrValues<'a> = IterStrValues<'a>;

/// The members of the remaining `ENUM` columns.
pub type IterEnumStrValues<'a> = IterStrValues<'a>;

impl<'a> Iterator for IterStrValues<'a> {
    type Item = Result<StrValues<'a>, RowsError>;

    ghost next_gives = { ReturnsMembers };

    ghost remaining = { λ it. at_most (length it.bytes.now) };

    fn next(&mut self) -> Option<Result<StrValues<'a>, RowsError>> {
        if self.bytes.is_empty() {
            return None;
        }
        match split_members(self.alloc, self.bytes) {
            Ok((values, rest)) => {
                self.bytes = rest;
                Some(Ok(values))
            }
            Err(fault) => {
                self.bytes = &[];
                Some(Err(fault))
            }
        }
    }
}

/// Reads the members of one column; returns them and the bytes after them.
///
/// - The errors of `split_number` for the count, and of `split_string` for a member.
/// - `Memory`: out of memory.
fn split_members(alloc: Global, bytes: &[u8]) -> Result<(StrValues<'_>, &[u8]), RowsError>
    ensures ok { IfOk result (λ x. members_at bytes.now ≡ Ok (values_view x.0, x.1.now)) }
    ensures less { IfOk result (λ x. length x.1.now < length bytes.now) }
    ensures err { IfErr result (λ e. (e ≡ Memory) ⊎ (members_at bytes.now ≡ Err e)) }
{
    let (count, mut rest) = split_number(bytes)?;
    let mut values = Vec::new(alloc);
    for _ in 0..count {
        match split_string(rest) {
            Ok((value, after)) => {
                values.push(StrValue::new(CowSlice::Borrowed(value)))?;
                rest = after;
            }
            Err(fault) => return Err(fault),
        }
    }
    Ok((StrValues { values }, rest))
}

/// Reads the name, a length-encoded string.
///
/// - `EndOfBody`: bytes are missing.
/// - `UnknownNumber`: the length begins with 251 or 255.
impl<'de> MyDeserialize<'de> for StrValue<'de> {
    const SIZE: Option<usize> = None;

    type Size = AnySize;

    type Ctx = ();

    type Fault = RowsError;

    ghost View = { List ℕ };

    ghost view = { value_view };

    ghost encodes = { λ ctx. StringEncoding };

    ghost fails_with = { λ ctx x e. string_at x ≡ Err e };

    fn deserialize(
        _alloc: Global,
        _ctx: (),
        buf: &mut ParseBuf<'de>,
    ) -> Result<StrValue<'de>, RowsError> {
        match take_string(buf) {
            Ok(value) => Ok(StrValue::new(CowSlice::Borrowed(value))),
            Err(fault) => Err(fault),
        }
    }

    ghost sized = { λ ctx v bytes rest h. tt };
}

impl MySerialize for StrValue<'_> {
    ghost View = { List ℕ };

    ghost view = { value_view };

    ghost encoding = { StringEncoding };

    ghost encoded = { string_encoded };

    fn serialize<A: Allocator>(&self, buf: &mut Vec<u8, A>) -> Result<(), WireFault> {
        self.value.serialize(buf)
    }
}

impl Inner for StrValue<'_> {
    ghost before_any = { λ rest. tt };
}

/// Reads the members of one column: their count as a length-encoded integer, and that many length-encoded strings.
///
/// - `EndOfBody`: bytes are missing.
/// - `UnknownNumber`: the count or a length begins with 251 or 255.
/// - `Memory`: out of memory.
impl<'de> MyDeserialize<'de> for StrValues<'de> {
    const SIZE: Option<usize> = None;

    type Size = AnySize;

    type Ctx = ();

    type Fault = RowsError;

    ghost View = { List (List ℕ) };

    ghost view = { values_view };

    ghost encodes = { λ ctx. MembersEncoding };

    ghost fails_with = { λ ctx x e. (e ≡ Memory) ⊎ (members_at x ≡ Err e) };

    fn deserialize(
        alloc: Global,
        _ctx: (),
        buf: &mut ParseBuf<'de>,
    ) -> Result<StrValues<'de>, RowsError> {
        match split_members(alloc, buf.0) {
            Ok((values, rest)) => {
                buf.0 = rest;
                Ok(values)
            }
            Err(fault) => Err(fault),
        }
    }

    ghost sized = { λ ctx v bytes rest h. tt };
}

impl MySerialize for StrValues<'_> {
    ghost View = { List (List ℕ) };

    ghost view = { values_view };

    ghost encoding = { MembersEncoding };

    ghost encoded = { members_encoded };

    fn serialize<A: Allocator>(&self, buf: &mut Vec<u8, A>) -> Result<(), WireFault> {
        let start = buf.len();
        let written = append_members(&self.values, buf);
        truncate_on_error(written, start, buf)
    }
}

impl Inner for StrValues<'_> {
    ghost before_any = { λ rest. tt };
}

/// Appends the number of members and their names; on an error it may have appended a part.
fn append_members<A: Allocator>(
    values: &[StrValue<'_>],
    buf: &mut Vec<u8, A>,
) -> Result<(), WireFault>
    ensures ok { OnOk result (WritesField members_encoded MembersEncoding (λ rest. ⊤) (map value_view values.now) buf.old.items buf.new.items) }
    ensures err { IfErr result (λ e. e ≡ WantOfMemory) }
    ensures kept { take (length buf.old.items) buf.new.items ≡ buf.old.items }
{
    <LenEnc as IntRepr>::serialize(values.len() as u64, buf)?;
    for value in values {
        <LenEnc as BytesRepr>::serialize(value.value_raw(), buf)?;
    }
    Ok(())
}

/// Takes all bytes as the members of the columns; reading never fails.
impl<'de> MyDeserialize<'de> for ColumnsStrValues<'de> {
    const SIZE: Option<usize> = None;

    type Size = AnySize;

    type Ctx = ();

    type Fault = RowsError;

    ghost View = { List ℕ };

    ghost view = { columns_values_view };

    ghost encodes = { λ ctx. IsAll };

    ghost fails_with = { λ ctx x e. ⊥ };

    fn deserialize(
        _alloc: Global,
        _ctx: (),
        buf: &mut ParseBuf<'de>,
    ) -> Result<ColumnsStrValues<'de>, RowsError> {
        Ok(ColumnsStrValues::of_value(take_all(buf)))
    }

    ghost sized = { λ ctx v bytes rest h. tt };
}

impl MySerialize for ColumnsStrValues<'_> {
    ghost View = { List ℕ };

    ghost view = { columns_values_view };

    ghost encoding = { IsAll };

    ghost encoded = { all_encoded };

    ghost allows_rest = { λ rest. rest ≡ [] };

    fn serialize<A: Allocator>(&self, buf: &mut Vec<u8, A>) -> Result<(), WireFault> {
        put_all(self.values, buf)
    }
}
