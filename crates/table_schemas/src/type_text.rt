//! The types of columns, as `information_schema.COLUMNS` has them in COLUMN_TYPE.

use crate::fault::SchemaFaultKind;
use std::alloc::{AllocError, Global};
use wire_constants::ColumnType;

/// What the type of a column says.
#[derive(Drop)]
pub(crate) struct ReadType {
    pub(crate) column_type: ColumnType,
    pub(crate) is_unsigned: bool,
    pub(crate) members: Vec<Vec<u8>>,
}

/// The names of the types that servers have, and their formats today.
const TYPES: &[(&str, ColumnType)] = &[
    ("tinyint", ColumnType::MYSQL_TYPE_TINY),
    ("smallint", ColumnType::MYSQL_TYPE_SHORT),
    ("mediumint", ColumnType::MYSQL_TYPE_INT24),
    ("int", ColumnType::MYSQL_TYPE_LONG),
    ("bigint", ColumnType::MYSQL_TYPE_LONGLONG),
    ("float", ColumnType::MYSQL_TYPE_FLOAT),
    ("double", ColumnType::MYSQL_TYPE_DOUBLE),
    ("decimal", ColumnType::MYSQL_TYPE_NEWDECIMAL),
    ("bit", ColumnType::MYSQL_TYPE_BIT),
    ("year", ColumnType::MYSQL_TYPE_YEAR),
    ("date", ColumnType::MYSQL_TYPE_NEWDATE),
    ("time", ColumnType::MYSQL_TYPE_TIME2),
    ("datetime", ColumnType::MYSQL_TYPE_DATETIME2),
    ("timestamp", ColumnType::MYSQL_TYPE_TIMESTAMP2),
    ("char", ColumnType::MYSQL_TYPE_STRING),
    ("binary", ColumnType::MYSQL_TYPE_STRING),
    ("uuid", ColumnType::MYSQL_TYPE_STRING),
    ("inet4", ColumnType::MYSQL_TYPE_STRING),
    ("inet6", ColumnType::MYSQL_TYPE_STRING),
    ("varchar", ColumnType::MYSQL_TYPE_VARCHAR),
    ("varbinary", ColumnType::MYSQL_TYPE_VARCHAR),
    ("tinytext", ColumnType::MYSQL_TYPE_BLOB),
    ("text", ColumnType::MYSQL_TYPE_BLOB),
    ("mediumtext", ColumnType::MYSQL_TYPE_BLOB),
    ("longtext", ColumnType::MYSQL_TYPE_BLOB),
    ("tinyblob", ColumnType::MYSQL_TYPE_BLOB),
    ("blob", ColumnType::MYSQL_TYPE_BLOB),
    ("mediumblob", ColumnType::MYSQL_TYPE_BLOB),
    ("longblob", ColumnType::MYSQL_TYPE_BLOB),
    ("enum", ColumnType::MYSQL_TYPE_ENUM),
    ("set", ColumnType::MYSQL_TYPE_SET),
    ("json", ColumnType::MYSQL_TYPE_JSON),
    ("vector", ColumnType::MYSQL_TYPE_VECTOR),
    ("geometry", ColumnType::MYSQL_TYPE_GEOMETRY),
    ("point", ColumnType::MYSQL_TYPE_GEOMETRY),
    ("linestring", ColumnType::MYSQL_TYPE_GEOMETRY),
    ("polygon", ColumnType::MYSQL_TYPE_GEOMETRY),
    ("multipoint", ColumnType::MYSQL_TYPE_GEOMETRY),
    ("multilinestring", ColumnType::MYSQL_TYPE_GEOMETRY),
    ("multipolygon", ColumnType::MYSQL_TYPE_GEOMETRY),
    ("geometrycollection", ColumnType::MYSQL_TYPE_GEOMETRY),
    ("geomcollection", ColumnType::MYSQL_TYPE_GEOMETRY),
];

/// The type with this name, in the format that servers write today; UNKNOWN for another name.
fn type_named(name: &[u8]) -> ColumnType {
    for (known, column_type) in TYPES {
        if known.as_bytes() == name {
            return *column_type;
        }
    }
    ColumnType::MYSQL_TYPE_UNKNOWN
}

/// Splits off the name that a type begins with: letters and digits.
fn split_name(text: &[u8]) -> (&[u8], &[u8]) {
    match text.iter().position(|byte| !byte.is_ascii_alphanumeric()) {
        Some(at) => text.split_at(at),
        None => (text, &[]),
    }
}

/// The bytes after a list in brackets that text begins with; the text itself if it begins with none.
fn after_brackets(text: &[u8]) -> Option<&[u8]> {
    let Some(list) = text.strip_prefix(b"(") else {
        return Some(text);
    };
    let at = list.iter().position(|byte| *byte == b')')?;
    let (_, after) = list.split_at(at);
    after.strip_prefix(b")")
}

/// Whether text has this word.
fn has_word(text: &[u8], word: &[u8]) -> bool {
    for part in text.split(|byte| *byte == b' ') {
        if part == word {
            return true;
        }
    }
    false
}

/// The byte that a letter after a backslash in a member stands for.
fn escaped(letter: u8) -> u8 {
    match letter {
        b'n' => b'\n',
        b'r' => b'\r',
        b't' => b'\t',
        b'0' => 0,
        b'Z' => 26,
        _ => letter,
    }
}

/// Where the reader of a member is.
#[derive(Clone, Copy)]
enum Place {
    /// Before the quote that a member begins with.
    Before,
    /// Within a member.
    Within,
    /// After a backslash within a member.
    Escape,
    /// After a quote within a member: it ends the member, unless another quote follows.
    Quote,
    /// After the last member.
    After,
}

/// Reads the members of an ENUM or a SET: quoted texts in brackets, with commas between them.
#[derive(Drop)]
struct MemberReader {
    place: Place,
    member: Vec<u8>,
    members: Vec<Vec<u8>>,
}

impl MemberReader {
    /// Adds the member that ended.
    fn end_member(&mut self, alloc: Global) -> Result<(), AllocError> {
        let member = Vec::from_slice(alloc, &self.member)?;
        self.member.clear();
        self.members.push(member)?;
        Ok(())
    }

    /// Takes the next byte after the opening bracket, and returns whether it is in place.
    fn take(&mut self, alloc: Global, byte: u8) -> Result<bool, AllocError> {
        match (self.place, byte) {
            (Place::Before, b'\'') => self.place = Place::Within,
            (Place::Within, b'\'') => self.place = Place::Quote,
            (Place::Within, b'\\') => self.place = Place::Escape,
            (Place::Within, _) => self.member.push(byte)?,
            (Place::Escape, _) => {
                self.member.push(escaped(byte))?;
                self.place = Place::Within;
            }
            (Place::Quote, b'\'') => {
                self.member.push(byte)?;
                self.place = Place::Within;
            }
            (Place::Quote, b',') => {
                self.end_member(alloc)?;
                self.place = Place::Before;
            }
            (Place::Quote, b')') => {
                self.end_member(alloc)?;
                self.place = Place::After;
            }
            _ => return Ok(false),
        }
        Ok(true)
    }
}

/// The members of an ENUM or a SET, which are all of the bytes after its name.
fn members_in(alloc: Global, text: &[u8]) -> Result<Vec<Vec<u8>>, SchemaFaultKind> {
    let Some(list) = text.strip_prefix(b"(") else {
        return Err(SchemaFaultKind::Type);
    };
    let mut reader = MemberReader {
        place: Place::Before,
        member: Vec::new(alloc),
        members: Vec::new(alloc),
    };
    for byte in list {
        if !reader.take(alloc, *byte)? {
            return Err(SchemaFaultKind::Type);
        }
    }
    match reader.place {
        Place::After => Ok(reader.members),
        _ => Err(SchemaFaultKind::Type),
    }
}

/// Reads the type of a column. A type with an unknown name is UNKNOWN, and so is that of a column that MariaDB compresses.
///
/// - `Type`: it can't be read.
/// - `Memory`: out of memory.
pub(crate) fn read_type(alloc: Global, text: &[u8]) -> Result<ReadType, SchemaFaultKind> {
    let (name, rest) = split_name(text);
    if name.is_empty() {
        return Err(SchemaFaultKind::Type);
    }
    let column_type = type_named(name);
    if column_type.is_enum_or_set_type() {
        return Ok(ReadType {
            column_type,
            is_unsigned: false,
            members: members_in(alloc, rest)?,
        });
    }
    let Some(attributes) = after_brackets(rest) else {
        return Err(SchemaFaultKind::Type);
    };
    if !attributes.is_empty() && !attributes.starts_with(b" ") {
        return Err(SchemaFaultKind::Type);
    }
    let is_compressed = has_word(attributes, b"COMPRESSED*/");
    Ok(ReadType {
        column_type: if is_compressed {
            ColumnType::MYSQL_TYPE_UNKNOWN
        } else {
            column_type
        },
        is_unsigned: has_word(attributes, b"unsigned"),
        members: Vec::new(alloc),
    })
}
