//! Dump requests, as a server reads them.

ghost use Rattle.std.specs.Prelude.{◌≡◌, Ok, Err, IfOk, IfErr, option_map};
ghost use Rattle.feed_replication.specs.RequestedPackets.{payload_of_packet, requested, IsNotAsked};
ghost use Rattle.feed_checks.specs.declared.verdict.Verdict.TheVariants.{Memory as MemoryVerdict};

use crate::requests::{BINLOG_DUMP_NON_BLOCK, COM_BINLOG_DUMP};
use crate::served::{Refusal, Served};
use byteorder::{ByteOrder, LittleEndian};
use bytes::BytesMut;
use feed_checks::Verdict;
use std::alloc::Global;
use wire_packets::{PacketCodec, PacketCodecError};

/// The offset of the position in a request's payload.
const POSITION_OFFSET: usize = 1;

/// The offset of the flags.
const FLAGS_OFFSET: usize = 5;

/// The offset of the name, after the replica's server id.
const NAME_OFFSET: usize = 11;

/// Returns the payload of a request if the bytes are exactly one packet with sequence numbers from 0 on. The only error is
/// `Memory`.
fn payload_of(alloc: Global, request: &[u8]) -> Result<Option<Vec<u8>>, Verdict>
    ensures ok { IfOk result (λ payload. option_map (λ p. p.items) payload ≡ payload_of_packet request.now) }
    ensures err { IfErr result (λ v. v ≡ MemoryVerdict) }
{
    let mut src = BytesMut::new(alloc);
    if let Err(_) = src.extend_from_slice(request) {
        return Err(Verdict::Memory);
    }
    let mut payload = Vec::new(alloc);
    let mut codec = PacketCodec::with_number(request.len(), 0);
    match codec.decode(&mut src, &mut payload) {
        Ok(is_whole) => {
            if is_whole && src.is_empty() {
                return Ok(Some(payload));
            }
            Ok(None)
        }
        Err(fault) => match fault {
            PacketCodecError::Memory => Err(Verdict::Memory),
            _ => Ok(None),
        },
    }
}

/// Returns the position from which a request asks for the binary log `name`. Fails with the first of these that holds:
///
/// - `NotADump`: the bytes aren't exactly one packet with sequence numbers from 0 on, or its payload isn't COM_BINLOG_DUMP.
/// - `Flags`: its flags aren't exactly BINLOG_DUMP_NON_BLOCK.
/// - `Name`: it names another file.
/// - `Memory`: out of memory.
pub(crate) fn requested_position(alloc: Global, request: &[u8], name: &[u8]) -> Result<u32, Served>
    ensures ok { IfOk result (λ position. requested request.now name.now ≡ Ok position) }
    ensures err { IfErr result (IsNotAsked request.now name.now) }
{
    let payload = match payload_of(alloc, request) {
        Ok(Some(payload)) => payload,
        Ok(None) => return Err(Served::Refused(Refusal::NotADump)),
        Err(fault) => return Err(Served::Fault(fault)),
    };
    if payload.len() < NAME_OFFSET || payload[0] != COM_BINLOG_DUMP {
        return Err(Served::Refused(Refusal::NotADump));
    }
    if LittleEndian::read_u16(&payload[FLAGS_OFFSET..]) != BINLOG_DUMP_NON_BLOCK {
        return Err(Served::Refused(Refusal::Flags));
    }
    if &payload[NAME_OFFSET..] != name {
        return Err(Served::Refused(Refusal::Name));
    }
    Ok(LittleEndian::read_u32(&payload[POSITION_OFFSET..]))
}
