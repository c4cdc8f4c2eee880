//! Schemas, and the events that they complete.

ghost use Rattle.std.specs.Prelude.{◌≡◌, ◌≤◌, ◌+◌, ◌++◌, ◌∷◌, [], ◌==◌, length, IfOk, IfSome, OnOk, OnErr, option_map, if◌then◌else◌};
ghost use Rattle.std.specs.Option.{option_copied};
ghost use Rattle.rows_table_map.specs.MapViews.{map_of};
ghost use Rattle.table_schemas.specs.NamedTables.{table_named};
ghost use Rattle.table_schemas.specs.CompletedMaps.{tables_of, tables_at, begun_from, names_in as names_within, missing_fields, missing_if_known, before_checksum, with_more, completed};

use crate::fits::{Difference, first_difference};
use crate::logged::Logged;
use crate::schema::Schema;
use crate::schema_start::SchemaStart;
use crate::schema_table::SchemaTable;
use byteorder::{ByteOrder, LittleEndian};
use crc32::crc32;
use events_frames::BinlogEventHeader;
use feed_checks::{TABLE_MAP_POST_HEADER_LEN, Verdict, read_table_map};
use rows_table_map::TableMapEvent;
use std::alloc::{AllocError, Global};
use std::collections::BTreeMap;
use std::collections::btree_map::Values;

/// The length of a checksum.
const CHECKSUM_LEN: usize = 4;

/// The offsets of an event's size, and of its position, which follows it.
const SIZE_OFFSET: usize = 9;

const POSITION_OFFSET: usize = 13;

/// The offset of the names in a table map's body, after the table id and the flags.
const NAMES_OFFSET: usize = 8;

/// The length of the names in a table map's body, beside their own: two lengths and two bytes without meaning.
const NAMES_LEN: usize = 4;

/// The maximum length of a name.
const MAX_NAME_LEN: usize = 255;

/// The maximum length of an event.
const MAX_LEN: usize = 0xffff_ffff;

/// A table whose columns aren't those of its table map.
#[derive(Drop)]
pub struct Misfit {
    pub database: Vec<u8>,
    pub table: Vec<u8>,
    /// The index of the schema that has the table, as [`Schemas::begin`] takes it.
    pub schema: usize,
    /// What differs first.
    pub difference: Difference,
    /// The number of columns in the schema.
    pub columns: u64,
}

/// A schema, and where it begins.
#[derive(Drop)]
struct SchemaFrom {
    start: SchemaStart,
    schema: Schema,
}

/// Schemas, each from where it begins on.
#[derive(Drop)]
pub struct Schemas {
    alloc: Global,
    /// The newest is the first.
    schemas: Vec<SchemaFrom>,
    misfits: BTreeMap<Vec<u8>, Misfit>,
    /// The fields that complete the newest table map.
    fields: Vec<u8>,
}

/// The names in a table map's body.
fn names_in<'b>(map: &TableMapEvent<'_>, body: &'b [u8]) -> &'b [u8]
    ensures { result.now ≡ names_within (map_of map.now) body.entry.now }
{
    let len = map.database_name_raw().len().min(MAX_NAME_LEN)
        + map.table_name_raw().len().min(MAX_NAME_LEN)
        + NAMES_LEN;
    let (_, rest) = body.split_at(body.len().min(NAMES_OFFSET));
    let (names, _) = rest.split_at(rest.len().min(len));
    names
}

impl SchemaFrom {
    ghost use Rattle.table_schemas.specs.CompletedMaps.{tables_from};

    /// The table with these names that an event has by this schema.
    fn table_at(&self, event: &[u8], names: &[u8]) -> Option<&SchemaTable>
        requires { 19 ≤ length event.now }
        ensures { option_copied result ≡ table_named names.now (tables_from event.now self.now) }
    {
        if !self.start.has_begun(event) {
            return None;
        }
        self.schema.get(names)
    }
}

/// The table with these names that an event has: that of the newest schema which has one and begins before it.
fn table_at<'s>(schemas: &'s [SchemaFrom], event: &[u8], names: &[u8]) -> Option<&'s SchemaTable>
    requires { 19 ≤ length event.now }
    ensures { option_copied result ≡ table_named names.now (tables_at schemas.now event.now) }
{
    for from in schemas {
        if let Some(table) = from.table_at(event, names) {
            return Some(table);
        }
    }
    None
}

/// The index of the schema that an event's table is in.
fn index_at(schemas: &[SchemaFrom], event: &[u8], names: &[u8]) -> usize
    requires { 19 ≤ length event.now }
{
    for (index, from) in schemas.iter().enumerate() {
        if from.table_at(event, names).is_some() {
            return index;
        }
    }
    0
}

/// The bytes of an event before its checksum; None if that is wrong.
pub fn checked(event: &[u8], has_checksum: bool) -> Option<&[u8]>
    requires { 19 ≤ length event.now }
    ensures bytes { option_map (λ b. b.now) result ≡ before_checksum has_checksum event.now }
    ensures long { IfSome result (λ b. 19 ≤ length b.now) }
{
    if !has_checksum {
        return Some(event);
    }
    if event.len() < BinlogEventHeader::LEN + CHECKSUM_LEN {
        return None;
    }
    let (bytes, sum) = event.split_at(event.len() - CHECKSUM_LEN);
    (crc32(bytes) == LittleEndian::read_u32(sum)).then_some(bytes)
}

/// Writes an event with more bytes at its end into a buffer, which it empties first: `event` is without its checksum. `AllocError`: out of
/// memory.
pub fn put_longer(
    event: &[u8],
    more: &[u8],
    has_checksum: bool,
    out: &mut Vec<u8>,
) -> Result<(), AllocError>
    requires long { 19 ≤ length event.now }
    requires few { length event.now + length more.now ≤ 4294967291 }
    ensures { OnOk result (out.new.items ≡ with_more has_checksum event.now more.now) }
{
    let sum_len = if has_checksum { CHECKSUM_LEN } else { 0 };
    let len = event.len() + more.len() + sum_len;
    let (before, _) = event.split_at(SIZE_OFFSET);
    let (_, after) = event.split_at(POSITION_OFFSET);
    out.clear();
    out.extend_from_slice(before)?;
    out.extend_from_slice(&(len as u32).to_le_bytes())?;
    out.extend_from_slice(after)?;
    out.extend_from_slice(more)?;
    if has_checksum {
        let sum = crc32(out);
        out.extend_from_slice(&sum.to_le_bytes())?;
    }
    Ok(())
}

impl Schemas {
    /// Returns no schemas.
    pub fn new(alloc: Global) -> Schemas
        ensures { tables_of result ≡ [] }
    {
        Schemas {
            alloc,
            schemas: Vec::new(alloc),
            misfits: BTreeMap::new(alloc),
            fields: Vec::new(alloc),
        }
    }

    /// Whether there are no schemas.
    pub fn is_empty(&self) -> bool
        ensures { result ≡ (length (tables_of self.now) == 0) }
    {
        self.schemas.is_empty()
    }

    /// Adds a schema, which is older than all so far.
    ///
    /// - `AllocError`: out of memory; there is no other.
    pub fn add(&mut self, start: SchemaStart, schema: Schema) -> Result<(), AllocError>
        ensures ok { OnOk result (tables_of self.new ≡ tables_of self.old ++ record { start = start; schema = schema } ∷ []) }
        ensures err { OnErr result (tables_of self.new ≡ tables_of self.old) }
    {
        match self.schemas.push(SchemaFrom { start, schema }) {
            Ok(()) => Ok(()),
            Err(_) => Err(AllocError),
        }
    }

    /// Lets the schema with this index begin there in the log that is read next. Nothing changes without such a schema.
    pub fn begin(&mut self, index: usize, start: SchemaStart)
        ensures { tables_of self.new ≡ begun_from index start (tables_of self.old) }
    {
        if index < self.schemas.len() {
            self.schemas[index].start = start;
        }
    }

    /// The tables whose columns weren't those of a table map that has no names, each once.
    pub fn misfits(&self) -> Values<'_, Vec<u8>, Misfit> {
        self.misfits.values()
    }

    /// Writes a table map with the fields that it lacks and the schema has into a buffer, which it empties first, and returns true; or
    /// returns false, and the table map is as it should be: it has all fields, or the schema has none for it, or its columns aren't those
    /// of the schema, or it or its checksum can't be read, or it would be longer than 4,294,967,295 bytes. `AllocError`: out of memory.
    pub fn put_completed(
        &mut self,
        event: &[u8],
        has_checksum: bool,
        out: &mut Vec<u8>,
    ) -> Result<bool, AllocError>
        requires { 19 ≤ length event.now }
        ensures completed { IfOk result (λ is_made. (if is_made then out.new.items else event.now) ≡ completed (tables_of self.old) has_checksum event.now) }
        ensures tables { tables_of self.new ≡ tables_of self.old }
    {
        let Some(bytes) = checked(event, has_checksum) else {
            return Ok(false);
        };
        self.find(bytes)?;
        if self.fields.is_empty() || bytes.len() + self.fields.len() > MAX_LEN - CHECKSUM_LEN {
            return Ok(false);
        }
        put_longer(bytes, &self.fields, has_checksum, out)?;
        Ok(true)
    }

    /// Finds the fields that a table map lacks and the schema has.
    fn find(&mut self, event: &[u8]) -> Result<(), AllocError>
        requires { 19 ≤ length event.now }
        ensures fields { OnOk result (self.new.fields.items ≡ missing_fields (tables_of self.old) event.now) }
        ensures tables { tables_of self.new ≡ tables_of self.old }
    {
        self.fields.clear();
        let (_, body) = event.split_at(BinlogEventHeader::LEN);
        match read_table_map(self.alloc, TABLE_MAP_POST_HEADER_LEN, body) {
            Ok(map) => self.find_of(event, &map, body),
            Err(Verdict::Memory) => Err(AllocError),
            Err(_) => Ok(()),
        }
    }

    /// Finds the fields that a table map with this body lacks, and its table has.
    fn find_of(
        &mut self,
        event: &[u8],
        map: &TableMapEvent<'_>,
        body: &[u8],
    ) -> Result<(), AllocError>
        requires none { self.old.fields.items ≡ [] }
        requires long { 19 ≤ length event.now }
        ensures fields { OnOk result (self.new.fields.items ≡ missing_if_known (map_of map.now) (table_named (names_within (map_of map.now) body.now) (tables_at (tables_of self.old) event.now))) }
        ensures tables { tables_of self.new ≡ tables_of self.old }
    {
        let names = names_in(map, body);
        let Some(table) = table_at(self.schemas.as_slice(), event, names) else {
            return Ok(());
        };
        let Some(logged) = Logged::of(map) else {
            return Ok(());
        };
        match first_difference(&table.columns, map) {
            None => table.put_missing(logged, &mut self.fields),
            Some(_) if logged.names => Ok(()),
            Some(difference) => {
                let columns = table.columns.len() as u64;
                note(
                    self.alloc,
                    names,
                    map,
                    index_at(self.schemas.as_slice(), event, names),
                    difference,
                    columns,
                    &mut self.misfits,
                )
            }
        }
    }
}

/// Adds a misfit, unless there is one of its table.
fn note(
    alloc: Global,
    names: &[u8],
    map: &TableMapEvent<'_>,
    schema: usize,
    difference: Difference,
    columns: u64,
    misfits: &mut BTreeMap<Vec<u8>, Misfit>,
) -> Result<(), AllocError> {
    if misfits.contains_key(names) {
        return Ok(());
    }
    let misfit = Misfit {
        database: Vec::from_slice(alloc, map.database_name_raw())?,
        table: Vec::from_slice(alloc, map.table_name_raw())?,
        schema,
        difference,
        columns,
    };
    match misfits.insert(Vec::from_slice(alloc, names)?, misfit) {
        Ok(_) => Ok(()),
        Err(_) => Err(AllocError),
    }
}
