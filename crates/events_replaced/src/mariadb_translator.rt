//! The events in place of each of MariaDB's own.

ghost use Rattle.std.specs.Prelude.{◌≡◌, ◌≤◌, ◌<◌, ◌+◌, ◌-◌, ◌++◌, true, length, IfErr, OnOk, vec_len};
ghost use Rattle.events_frames.specs.HeaderFields.{header_field};
ghost use Rattle.events_replaced.specs.MariadbTypes.{is_mariadb_number};
ghost use Rattle.events_replaced.specs.StandingEvents.{AppendsStanding, AppendsContent, AppendsPlain, AppendsStandingFor, HasFault, FaultOf, IsDecoderFault, is_compressed, plain_number};

use crate::compressed::{Compressed, data_in, read_compressed};
use crate::mariadb_fault::MariadbFault;
use crate::mariadb_made::{put_annotation, put_gtid, put_header, put_retyped};
use crate::mariadb_type::MariadbType;
use events_frames::{BinlogEventHeader, type_number};
use inflate::{InflateDecoder, InflateError};
use rows_constants::EventType;

/// The maximum length of an event.
const MAX_LEN: usize = 0xffff_ff00;

/// The minimum length of a GTID_EVENT.
const MIN_GTID_LEN: usize = 38;

/// Translates MariaDB's own events to MySQL's. It is used again from event to event.
#[derive(Drop)]
pub struct MariadbTranslator {
    decoder: InflateDecoder,
}

/// The number of the type of the event that stands for a compressed one; 0 for other types.
fn plain_number(mariadb_type: MariadbType) -> u8
    ensures { result ≡ plain_number mariadb_type }
{
    match mariadb_type {
        MariadbType::QUERY_COMPRESSED_EVENT => EventType::QUERY_EVENT as u8,
        MariadbType::WRITE_ROWS_COMPRESSED_EVENT_V1 => EventType::WRITE_ROWS_EVENT_V1 as u8,
        MariadbType::UPDATE_ROWS_COMPRESSED_EVENT_V1 => EventType::UPDATE_ROWS_EVENT_V1 as u8,
        MariadbType::DELETE_ROWS_COMPRESSED_EVENT_V1 => EventType::DELETE_ROWS_EVENT_V1 as u8,
        MariadbType::WRITE_ROWS_COMPRESSED_EVENT => EventType::WRITE_ROWS_EVENT as u8,
        MariadbType::UPDATE_ROWS_COMPRESSED_EVENT => EventType::UPDATE_ROWS_EVENT as u8,
        MariadbType::DELETE_ROWS_COMPRESSED_EVENT => EventType::DELETE_ROWS_EVENT as u8,
        _ => EventType::UNKNOWN_EVENT as u8,
    }
}

impl MariadbTranslator {
    /// Returns a translator.
    pub fn new() -> MariadbTranslator {
        MariadbTranslator {
            decoder: InflateDecoder::new(),
        }
    }

    /// Appends the events in place of one of MariaDB's own, which is without its checksum. They have the position 0 and no checksum.
    ///
    /// - `Encrypted`: it begins the encrypted part of a log.
    /// - `Fields`: it is a GTID_EVENT of less than 38 bytes, or compressed and too short for its fields.
    /// - `Compression`: it is compressed, but not by zlib.
    /// - `TooLong`: it is longer than 4,294,967,040 bytes, or it is compressed and would be longer than `limit`.
    /// - `Damaged`: its data can't be decompressed, or hasn't the stated length.
    /// - `Memory`: out of memory.
    ///
    /// After an error a part of them may be appended.
    pub fn put(&mut self, event: &[u8], limit: usize, out: &mut Vec<u8>) -> Result<(), MariadbFault>
        requires long { 19 ≤ length event.now }
        requires own { is_mariadb_number (header_field 4 1 event.now) ≡ true }
        requires limit { limit ≤ 0xffff_fffb }
        ensures ok { OnOk result (AppendsStanding event.now out.old.items out.new.items) }
        ensures few { vec_len out.new ≤ vec_len out.old + 0xffff_fffb }
        ensures err { IfErr result (HasFault limit event.now) }
    {
        let Some(mariadb_type) = MariadbType::of(type_number(event)) else {
            return Err(MariadbFault::Fields);
        };
        self.put_typed(mariadb_type, event, limit, out)
    }

    /// The same for an event of this type.
    fn put_typed(
        &mut self,
        mariadb_type: MariadbType,
        event: &[u8],
        limit: usize,
        out: &mut Vec<u8>,
    ) -> Result<(), MariadbFault>
        requires long { 19 ≤ length event.now }
        requires limit { limit ≤ 0xffff_fffb }
        ensures ok { OnOk result (AppendsStandingFor mariadb_type event.now out.old.items out.new.items) }
        ensures few { vec_len out.new ≤ vec_len out.old + 0xffff_fffb }
        ensures err { IfErr result (FaultOf limit mariadb_type event.now) }
    {
        if event.len() > MAX_LEN {
            return Err(MariadbFault::TooLong);
        }
        match mariadb_type {
            MariadbType::ANNOTATE_ROWS_EVENT => put_annotation(event, out)?,
            MariadbType::BINLOG_CHECKPOINT_EVENT | MariadbType::GTID_LIST_EVENT => {
                put_retyped(event, EventType::IGNORABLE_EVENT as u8, out)?
            }
            MariadbType::GTID_EVENT => {
                if event.len() < MIN_GTID_LEN {
                    return Err(MariadbFault::Fields);
                }
                put_gtid(event, out)?
            }
            MariadbType::START_ENCRYPTION_EVENT => return Err(MariadbFault::Encrypted),
            MariadbType::QUERY_COMPRESSED_EVENT
            | MariadbType::WRITE_ROWS_COMPRESSED_EVENT_V1
            | MariadbType::UPDATE_ROWS_COMPRESSED_EVENT_V1
            | MariadbType::DELETE_ROWS_COMPRESSED_EVENT_V1
            | MariadbType::WRITE_ROWS_COMPRESSED_EVENT
            | MariadbType::UPDATE_ROWS_COMPRESSED_EVENT
            | MariadbType::DELETE_ROWS_COMPRESSED_EVENT => {
                return self.put_decompressed(mariadb_type, event, limit, out);
            }
        }
        Ok(())
    }

    /// Appends the event in place of a compressed one.
    fn put_decompressed(
        &mut self,
        mariadb_type: MariadbType,
        event: &[u8],
        limit: usize,
        out: &mut Vec<u8>,
    ) -> Result<(), MariadbFault>
        requires long { 19 ≤ length event.now }
        requires limit { limit ≤ 0xffff_fffb }
        requires compressed { is_compressed mariadb_type ≡ true }
        ensures ok { OnOk result (AppendsPlain mariadb_type event.now out.old.items out.new.items) }
        ensures few { vec_len out.new ≤ vec_len out.old + 0xffff_fffb }
        ensures err { IfErr result (FaultOf limit mariadb_type event.now) }
    {
        let Some(packed) = data_in(mariadb_type, event) else {
            return Err(MariadbFault::Fields);
        };
        let Some(before) = event.len().checked_sub(packed.len()) else {
            return Err(MariadbFault::Fields);
        };
        if before < BinlogEventHeader::LEN {
            return Err(MariadbFault::Fields);
        }
        let compressed = read_compressed(packed)?;
        let Some(room) = limit.checked_sub(before) else {
            return Err(MariadbFault::TooLong);
        };
        if compressed.len > room as u64 {
            return Err(MariadbFault::TooLong);
        }
        let (head, _) = event.split_at(before);
        let (_, fields) = head.split_at(BinlogEventHeader::LEN);
        let len = before as u32 + compressed.len as u32;
        put_header(event, plain_number(mariadb_type), len, out)?;
        out.extend_from_slice(fields)?;
        self.decompress(compressed, out)
    }

    /// Appends data before it was compressed.
    fn decompress(
        &mut self,
        compressed: Compressed<'_>,
        out: &mut Vec<u8>,
    ) -> Result<(), MariadbFault>
        ensures ok { OnOk result (AppendsContent compressed.entry.len compressed.entry.zlib.now out.old.items out.new.items) }
        ensures few { vec_len out.new ≤ vec_len out.old + compressed.entry.len }
        ensures err { IfErr result IsDecoderFault }
    {
        let start = out.len();
        let len = compressed.len as usize;
        match self.decoder.decode_zlib(compressed.zlib, out, len) {
            Ok(()) => {}
            Err(InflateError::Memory) => return Err(MariadbFault::Memory),
            Err(_) => return Err(MariadbFault::Damaged),
        }
        if out.len() - start != len {
            return Err(MariadbFault::Damaged);
        }
        Ok(())
    }
}
