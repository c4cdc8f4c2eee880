//! The compressed data of statements and rows.

ghost use Rattle.std.specs.Prelude.{◌≡◌, ◌≤◌, ◌<◌, ◌+◌, ◌-◌, ℕ, length, drop, take, IfOk, IfErr, IfSome};
ghost use Rattle.events_replaced.specs.CompressedEvents.{HasData, HasRowsData, HasLaterRowsData, HasStatementData, IsCompressed, IsNotCompressed};

use crate::mariadb_fault::MariadbFault;
use crate::mariadb_type::MariadbType;
use byteorder::{BigEndian, ByteOrder, LittleEndian};
use events_frames::{BinlogEventHeader, QueryTexts};
use wire_lenenc::split_lenenc_int;

/// The offset after the table and the flags of a rows event.
const AFTER_FLAGS: usize = 27;

/// The length of the length of a rows event's extra data.
const LEN_LEN: usize = 2;

/// The first byte of compressed data, less the number of bytes of its length: the flag of compressed data, and the algorithm of zlib.
const ZLIB: u8 = 8;

/// The most bytes of the length of compressed data.
const MAX_LEN_LEN: usize = 4;

/// The most columns of a table; servers have at most 4,096.
const MAX_COLUMNS: u64 = 0xffff;

/// Compressed data.
#[derive(Clone, Copy)]
pub(crate) struct Compressed<'e> {
    /// Its length before compression.
    pub(crate) len: u64,
    /// What zlib made of it.
    pub(crate) zlib: &'e [u8],
}

/// The compressed data in these bytes, after its length.
///
/// - `Compression`: it isn't zlib's.
/// - `Fields`: the length can't be read.
pub(crate) fn read_compressed(packed: &[u8]) -> Result<Compressed<'_>, MariadbFault>
    ensures ok { IfOk result (λ c. IsCompressed packed.now c.len c.zlib.now) }
    ensures err { IfErr result (IsNotCompressed packed.now) }
{
    let Some((first, rest)) = packed.split_first() else {
        return Err(MariadbFault::Fields);
    };
    if *first / 16 != ZLIB {
        return Err(MariadbFault::Compression);
    }
    let len_len = usize::from(*first % 16);
    if len_len == 0 || len_len > MAX_LEN_LEN || len_len > rest.len() {
        return Err(MariadbFault::Fields);
    }
    let (_, zlib) = rest.split_at(len_len);
    Ok(Compressed {
        len: BigEndian::read_uint(rest, len_len),
        zlib,
    })
}

/// The compressed statement of an event.
fn statement_data(event: &[u8]) -> Option<&[u8]>
    requires { 19 ≤ length event.now }
    ensures { IfSome result (λ packed. HasStatementData event.now packed.now) }
{
    let (_, body) = event.split_at(BinlogEventHeader::LEN);
    let texts = QueryTexts::read(body)?;
    Some(texts.query)
}

/// The compressed rows of an event, whose number of columns is at this offset, and which has so many bitmaps of columns.
fn rows_data(event: &[u8], columns_offset: usize, bitmaps: u64) -> Option<&[u8]>
    requires { bitmaps ≤ 2 }
    ensures { IfSome result (λ packed. HasRowsData columns_offset bitmaps event.now packed.now) }
{
    if event.len() < columns_offset {
        return None;
    }
    let (_, after) = event.split_at(columns_offset);
    let (columns, rest) = split_lenenc_int(after)?;
    if columns > MAX_COLUMNS {
        return None;
    }
    let len = (bitmaps * ((columns + 7) / 8)) as usize;
    if len > rest.len() {
        return None;
    }
    let (_, packed) = rest.split_at(len);
    Some(packed)
}

/// The compressed rows of an event of version 2, which has extra data before the number of its columns.
fn later_rows_data(event: &[u8], bitmaps: u64) -> Option<&[u8]>
    requires { bitmaps ≤ 2 }
    ensures { IfSome result (λ packed. HasLaterRowsData bitmaps event.now packed.now) }
{
    if event.len() < AFTER_FLAGS + LEN_LEN {
        return None;
    }
    let (_, after_flags) = event.split_at(AFTER_FLAGS);
    let extra_len = usize::from(LittleEndian::read_u16(after_flags));
    rows_data(event, AFTER_FLAGS + extra_len, bitmaps)
}

/// The compressed data of an event of this type; None if it isn't compressed, or is too short.
pub(crate) fn data_in(mariadb_type: MariadbType, event: &[u8]) -> Option<&[u8]>
    requires { 19 ≤ length event.now }
    ensures { IfSome result (λ packed. HasData mariadb_type event.now packed.now) }
{
    match mariadb_type {
        MariadbType::QUERY_COMPRESSED_EVENT => statement_data(event),
        MariadbType::WRITE_ROWS_COMPRESSED_EVENT_V1
        | MariadbType::DELETE_ROWS_COMPRESSED_EVENT_V1 => rows_data(event, AFTER_FLAGS, 1),
        MariadbType::UPDATE_ROWS_COMPRESSED_EVENT_V1 => rows_data(event, AFTER_FLAGS, 2),
        MariadbType::WRITE_ROWS_COMPRESSED_EVENT | MariadbType::DELETE_ROWS_COMPRESSED_EVENT => {
            later_rows_data(event, 1)
        }
        MariadbType::UPDATE_ROWS_COMPRESSED_EVENT => later_rows_data(event, 2),
        _ => None,
    }
}
