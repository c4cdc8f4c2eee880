//! The signs in a table map of MariaDB's, which has some of YEAR columns.

ghost use Rattle.std.specs.Prelude.{◌≡◌, ◌++◌, [], ◌∷◌, IfOk, OnOk, length, option_map, if◌then◌else◌};
ghost use Rattle.rows_table_map.specs.BitLists.{highest_bit};
ghost use Rattle.rows_table_map.specs.MetadataFields.{is_numeric_number};
ghost use Rattle.table_schemas.specs.YearSigns.{after_name, counted, fields_after, first_bytes, first_signs, has_sign, is_year, mysql_fields, numeric_signs, signs_after, signs_len, types_in, year_signs};
ghost use Rattle.table_schemas.specs.YearSignViews.{signs_of};

use crate::fields::{packed, put_field};
use rows_constants::OptionalMetadataFieldType;
use std::alloc::{AllocError, Global};
use wire_constants::ColumnType;
use wire_lenenc::split_lenenc_int;

/// The number of the type YEAR.
const YEAR: u8 = ColumnType::MYSQL_TYPE_YEAR as u8;

/// The length of the number of a table and of its flags.
const NUMBER_AND_FLAGS_LEN: usize = 8;

/// The length of what surrounds a name: its length, and a byte without meaning.
const AROUND_NAME_LEN: usize = 2;

/// The signs in the body of a table map that a server of MariaDB wrote, with those of its YEAR columns.
#[derive(Clone, Copy)]
pub struct YearSigns<'b> {
    /// The types of the columns.
    types: &'b [u8],
    /// The optional metadata.
    fields: &'b [u8],
    /// The value of its first field, which is SIGNEDNESS.
    value: &'b [u8],
    /// The fields after it.
    after: &'b [u8],
}

/// Whether a number is that of a numeric type.
fn is_numeric(number: u8) -> bool
    ensures { result ≡ is_numeric_number number }
{
    match ColumnType::try_from(number) {
        Ok(known) => known.is_numeric_type(),
        Err(_) => false,
    }
}

/// Whether columns of this type have a sign.
fn has_sign(number: u8) -> bool
    ensures { result ≡ has_sign number }
{
    is_numeric(number) || number == YEAR
}

/// How many bytes the signs of columns of these types take.
fn signs_len(types: &[u8]) -> usize
    ensures { result ≡ signs_len types.now }
{
    let signs = types.iter().filter(|number| has_sign(**number)).count();
    signs.div_ceil(8)
}

/// The bit at this index, from the highest bit of the first byte on; false after the last.
fn sign_at(value: &[u8], index: usize) -> bool
    ensures { result ≡ highest_bit value.now index }
{
    match value.get(index / 8) {
        Some(byte) => (*byte >> (7 - (index % 8) as u32)) % 2 == 1,
        None => false,
    }
}

/// Appends the sign of a column, unless that is a YEAR.
fn push_sign(number: u8, sign: bool, signs: &mut Vec<bool>) -> Result<(), AllocError>
    ensures { OnOk result (signs.new.items ≡ signs.old.items ++ (if is_year number then [] else sign ∷ [])) }
{
    if number == YEAR {
        return Ok(());
    }
    signs.push(sign)?;
    Ok(())
}

/// The signs of the columns that aren't YEAR.
fn numeric_signs(alloc: Global, types: &[u8], value: &[u8]) -> Result<Vec<bool>, AllocError>
    ensures { IfOk result (λ v. v.items ≡ numeric_signs types.now value.now) }
{
    let mut signs = Vec::new(alloc);
    let mut next = 0;
    for number in types {
        if has_sign(*number) {
            push_sign(*number, sign_at(value, next), &mut signs)?;
            next += 1;
        }
    }
    Ok(signs)
}

/// The first bytes, this many, and those after them; None if there are fewer.
fn first_bytes(len: u64, bytes: &[u8]) -> Option<(&[u8], &[u8])>
    ensures { option_map (λ p. (p.0.now, p.1.now)) result ≡ first_bytes len bytes.now }
{
    if len > bytes.len() as u64 {
        return None;
    }
    Some(bytes.split_at(len as usize))
}

/// The same with their number before them.
fn counted(bytes: &[u8]) -> Option<(&[u8], &[u8])>
    ensures { option_map (λ p. (p.0.now, p.1.now)) result ≡ counted bytes.now }
{
    let (len, rest) = split_lenenc_int(bytes)?;
    first_bytes(len, rest)
}

/// The bytes after a name.
fn after_name(bytes: &[u8]) -> &[u8]
    ensures { result.now ≡ after_name bytes.now }
{
    let Some(len) = bytes.first() else {
        return &[];
    };
    let around = usize::from(*len) + AROUND_NAME_LEN;
    let (_, rest) = bytes.split_at(around.min(bytes.len()));
    rest
}

/// The types of the columns in the body of a table map, and the bytes after them.
fn types_in(body: &[u8]) -> Option<(&[u8], &[u8])>
    ensures { option_map (λ p. (p.0.now, p.1.now)) result ≡ types_in body.now }
{
    let (_, names) = body.split_at(NUMBER_AND_FLAGS_LEN.min(body.len()));
    counted(after_name(after_name(names)))
}

/// The optional metadata of so many columns, after their types.
fn fields_after(columns: usize, bytes: &[u8]) -> Option<&[u8]>
    ensures { option_map (λ b. b.now) result ≡ fields_after columns bytes.now }
{
    let (_, rest) = counted(bytes)?;
    let (_, fields) = first_bytes(columns.div_ceil(8) as u64, rest)?;
    Some(fields)
}

/// The value of the field SIGNEDNESS, if that is the first, and the fields after it.
fn first_signs(fields: &[u8]) -> Option<(&[u8], &[u8])>
    ensures { option_map (λ p. (p.0.now, p.1.now)) result ≡ first_signs fields.now }
{
    let (number, rest) = fields.split_first()?;
    if *number != OptionalMetadataFieldType::SIGNEDNESS as u8 {
        return None;
    }
    counted(rest)
}

/// The signs of columns of these types, by the bytes after these.
fn signs_after<'b>(types: &'b [u8], after_types: &'b [u8]) -> Option<YearSigns<'b>>
    ensures { option_map signs_of result ≡ signs_after (types.now, after_types.now) }
{
    if !types.contains(&YEAR) {
        return None;
    }
    let fields = fields_after(types.len(), after_types)?;
    let (value, after) = first_signs(fields)?;
    if value.len() != signs_len(types) {
        return None;
    }
    Some(YearSigns {
        types,
        fields,
        value,
        after,
    })
}

/// The signs in the body of a table map that a server of MariaDB wrote; None if it has no YEAR columns or no signs, or isn't a table map.
pub fn year_signs(body: &[u8]) -> Option<YearSigns<'_>>
    ensures { option_map signs_of result ≡ year_signs body.now }
{
    let (types, after) = types_in(body)?;
    signs_after(types, after)
}

impl YearSigns<'_> {
    /// How many bytes the optional metadata has.
    pub fn fields_len(&self) -> usize
        ensures { result ≡ length (signs_of self.now).fields }
    {
        self.fields.len()
    }

    /// Appends the optional metadata as MySQL's servers write it: without the signs of YEAR columns. `AllocError`: out of memory.
    pub fn put_mysql_fields(&self, alloc: Global, out: &mut Vec<u8>) -> Result<(), AllocError>
        ensures { OnOk result (out.new.items ≡ out.old.items ++ mysql_fields (signs_of self.now)) }
    {
        let signs = numeric_signs(alloc, self.types, self.value)?;
        let value = packed(alloc, &signs)?;
        put_field(OptionalMetadataFieldType::SIGNEDNESS as u8, &value, out)?;
        out.extend_from_slice(self.after)
    }
}
