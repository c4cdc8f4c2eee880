//! Builds the tree of a value in a document.

ghost use Rattle.std.specs.Prelude.{◌<◌, ◌^◌, ◌≡◌, true, None, IfErr, string_bytes};
ghost use Rattle.wire_constants.specs.ColumnTypes.{column_type_number};
ghost use Rattle.rows_jsonb.specs.JsonTrees.{scalar, no_members};
ghost use Rattle.rows_jsonb.specs.JsonbValues.{elem_in, object_key, count_in, is_object_in};
ghost use Rattle.rows_jsonb.specs.DocumentTrees.{items, member_trees, items_read, members_read, values_read, tree_of, tree_in, container_len, bare_tree, opaque_tree, utf8};
ghost use Rattle.rows_jsonb.specs.JsonbViews.{jsonb_value};
ghost use Rattle.rows_jsonb.specs.JsonTreeViews.{view, scalar_view, items_view, members_view};
ghost use Rattle.rows_jsonb.specs.JsonParsing.{ReturnsFound, Meets, Parses, HasNamelessFault};
ghost use Rattle.rows_errors.specs.declared.fault.RowsError.TheVariants.{Jsonb};

use crate::dom::{JsonContainer, JsonDom, JsonNumber, JsonOpaque, JsonScalar};
use crate::value::Value;
use rows_errors::{RowsError, set_member, take_value};
use rows_values::{Decimal, MysqlTime};
use std::alloc::Global;
use std::collections::BTreeMap;
use std::str;
use wire_buf::ParseBuf;
use wire_constants::ColumnType;

/// Returns the text of a string or a key.
fn text(alloc: Global, bytes: &[u8]) -> Result<String, RowsError>
    ensures { ReturnsFound string_bytes result (utf8 bytes.now) }
{
    match str::from_utf8(bytes) {
        Ok(text) => Ok(String::from_str(alloc, text)?),
        Err(_) => Err(RowsError::Jsonb(None)),
    }
}

/// Reads an opaque value; decimals, dates and times become values of their own.
fn parse_opaque(
    alloc: Global,
    value_type: ColumnType,
    bytes: &[u8],
) -> Result<JsonScalar, RowsError>
    ensures { ReturnsFound (λ s. (scalar (scalar_view s), 1)) result
        (opaque_tree (column_type_number value_type) bytes.now) }
{
    match value_type {
        ColumnType::MYSQL_TYPE_DATE => match ParseBuf(bytes).checked_eat_i64_le() {
            Some(packed) => Ok(JsonScalar::DateTime(MysqlTime::from_int64_date_packed(packed))),
            None => Err(RowsError::Jsonb(None)),
        },
        ColumnType::MYSQL_TYPE_TIME => match ParseBuf(bytes).checked_eat_i64_le() {
            Some(packed) => Ok(JsonScalar::DateTime(MysqlTime::from_int64_time_packed(packed))),
            None => Err(RowsError::Jsonb(None)),
        },
        ColumnType::MYSQL_TYPE_DATETIME => match ParseBuf(bytes).checked_eat_i64_le() {
            Some(packed) => Ok(JsonScalar::DateTime(MysqlTime::from_int64_datetime_packed(packed))),
            None => Err(RowsError::Jsonb(None)),
        },
        ColumnType::MYSQL_TYPE_TIMESTAMP => match ParseBuf(bytes).checked_eat_i64_le() {
            Some(packed) => Ok(JsonScalar::DateTime(MysqlTime::from_int64_datetime_packed(packed))),
            None => Err(RowsError::Jsonb(None)),
        },
        ColumnType::MYSQL_TYPE_NEWDECIMAL => match Decimal::from_packed(alloc, bytes, false) {
            Ok(decimal) => Ok(JsonScalar::Number(JsonNumber::Decimal(decimal))),
            Err(RowsError::Memory) => Err(RowsError::Memory),
            Err(_) => Err(RowsError::Jsonb(None)),
        },
        _ => {
            let mut value = Vec::new(alloc);
            value.extend_from_slice(bytes)?;
            Ok(JsonScalar::Opaque(JsonOpaque {
                field_type: value_type,
                value,
            }))
        }
    }
}

/// Returns the scalar of a value; a container is an error.
fn parse_scalar(alloc: Global, value: &Value<'_>) -> Result<JsonScalar, RowsError>
    ensures { ReturnsFound (λ s. (scalar (scalar_view s), 1)) result (bare_tree (jsonb_value value.now)) }
{
    match value {
        Value::Null => Ok(JsonScalar::Null),
        Value::Bool(b) => Ok(JsonScalar::Boolean(*b)),
        Value::I16(x) => Ok(JsonScalar::Number(JsonNumber::Int(i64::from(*x)))),
        Value::U16(x) => Ok(JsonScalar::Number(JsonNumber::Uint(u64::from(*x)))),
        Value::I32(x) => Ok(JsonScalar::Number(JsonNumber::Int(i64::from(*x)))),
        Value::U32(x) => Ok(JsonScalar::Number(JsonNumber::Uint(u64::from(*x)))),
        Value::I64(x) => Ok(JsonScalar::Number(JsonNumber::Int(*x))),
        Value::U64(x) => Ok(JsonScalar::Number(JsonNumber::Uint(*x))),
        Value::F64(bits) => Ok(JsonScalar::Number(JsonNumber::Double(*bits))),
        Value::String(string) => Ok(JsonScalar::String(text(alloc, string.str_raw())?)),
        Value::Opaque(opaque) => parse_opaque(alloc, opaque.value_type(), opaque.data_raw()),
        Value::SmallArray(_)
        | Value::LargeArray(_)
        | Value::SmallObject(_)
        | Value::LargeObject(_) => Err(RowsError::Jsonb(None)),
    }
}

/// Builds the tree of a value with at most `depth` levels of nested containers and at most `budget` values, and subtracts its
/// number of values from the budget.
#[cycle(parse)]
fn parse_in(
    alloc: Global,
    value: &Value<'_>,
    depth: usize,
    budget: &mut usize,
) -> Result<JsonDom, RowsError>
    ensures { Meets view budget.old budget.new result
        (values_read depth (jsonb_value value.now)) (tree_of depth (jsonb_value value.now)) }
{
    take_value(budget)?;
    if depth == 0 {
        let leaf = parse_scalar(alloc, value)?;
        return Ok(JsonDom::Scalar(leaf));
    }
    if value.is_array() {
        let items = parse_items(alloc, value, depth - 1, budget)?;
        return Ok(JsonDom::Container(JsonContainer::Array(items)));
    }
    if value.is_object() {
        let members = parse_members(alloc, value, depth - 1, budget)?;
        return Ok(JsonDom::Container(JsonContainer::Object(members)));
    }
    let leaf = parse_scalar(alloc, value)?;
    Ok(JsonDom::Scalar(leaf))
}

/// Builds the trees of an array's elements.
#[cycle(parse)]
fn parse_items(
    alloc: Global,
    array: &Value<'_>,
    depth: usize,
    budget: &mut usize,
) -> Result<Vec<JsonDom>, RowsError>
    ensures { Meets (λ v. items_view v.items) budget.old budget.new result
        (items_read (tree_of depth) (values_read depth) (elem_in (jsonb_value array.now)) 0 (count_in (jsonb_value array.now)))
        (items (tree_of depth) (elem_in (jsonb_value array.now)) 0 (count_in (jsonb_value array.now))) }
{
    let mut found = Vec::new(alloc);
    'items: for pos in 0..array.count() {
        let value = array.elem(pos)?;
        let item = parse_in(alloc, &value, depth, budget);
        drop(value);
        found.push(item?)?;
    }
    Ok(found)
}

/// Builds the trees of an object's members; the last of equal keys wins.
#[cycle(parse)]
fn parse_members(
    alloc: Global,
    object: &Value<'_>,
    depth: usize,
    budget: &mut usize,
) -> Result<BTreeMap<String, JsonDom>, RowsError>
    requires { is_object_in (jsonb_value object.now) ≡ true }
    ensures { Meets (λ m. members_view m.entries) budget.old budget.new result
        (members_read (tree_of depth) (values_read depth) (object_key (jsonb_value object.now)) (elem_in (jsonb_value object.now))
        0 (count_in (jsonb_value object.now)))
        (member_trees (tree_of depth) (object_key (jsonb_value object.now)) (elem_in (jsonb_value object.now))
        0 (count_in (jsonb_value object.now)) no_members) }
{
    let mut found = BTreeMap::new(alloc);
    'members: for pos in 0..object.count() {
        let bytes = object.key(pos)?;
        let value = object.elem(pos)?;
        let name = match text(alloc, bytes) {
            Ok(name) => name,
            Err(fault) => {
                drop(value);
                return Err(fault);
            }
        };
        let member = parse_in(alloc, &value, depth, budget);
        drop(value);
        set_member(&mut found, name, member?)?;
    }
    Ok(found)
}

/// How many levels of containers may be nested.
const MAX_DEPTH: usize = 100;

impl Value<'_> {
    /// Returns the size of a container in bytes; 0 for other values.
    fn size(&self) -> usize
        ensures value { result ≡ container_len (jsonb_value self.now) }
        ensures small { result < 2 ^ 63 }
    {
        match self {
            Value::SmallArray(container) => container.bytes.as_slice().len(),
            Value::LargeArray(container) => container.bytes.as_slice().len(),
            Value::SmallObject(container) => container.bytes.as_slice().len(),
            Value::LargeObject(container) => container.bytes.as_slice().len(),
            _ => 0,
        }
    }

    /// Returns the tree of this value: at most 100 levels of containers, and at most one value more than the outermost container
    /// has bytes. For 100 nested objects the call takes less than 300 KB of stack. Of several faults the first is the error;
    /// one value too many before it is `Jsonb(None)`.
    pub fn parse(self, alloc: Global) -> Result<JsonDom, RowsError>
        ensures tree { Parses view result (tree_in (jsonb_value self.entry)) }
        ensures nameless { IfErr result (λ e. e ≡ Jsonb None → HasNamelessFault (jsonb_value self.entry)) }
    {
        let tree = self.tree(alloc);
        drop(self);
        tree
    }

    /// Returns the same as [`parse`](Value::parse), and keeps the value.
    pub fn tree(&self, alloc: Global) -> Result<JsonDom, RowsError>
        ensures tree { Parses view result (tree_in (jsonb_value self.now)) }
        ensures nameless { IfErr result (λ e. e ≡ Jsonb None → HasNamelessFault (jsonb_value self.now)) }
    {
        let mut budget = 1 + self.size();
        let tree = parse_in(alloc, self, MAX_DEPTH, &mut budget)?;
        Ok(tree)
    }
}
