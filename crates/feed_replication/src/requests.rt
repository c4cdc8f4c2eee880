//! The request for a binary log.

ghost use Rattle.std.specs.Prelude.{◌≡◌, ◌↔◌, ◌<◌, ◌≤◌, IfOk, IsErrOf, length};
ghost use Rattle.feed_replication.specs.Requests.{dump_request, dump_payload as payload_of};
ghost use Rattle.feed_replication.specs.declared.requests.RequestError.TheVariants.{Memory};

use bytes::BytesMut;
use std::alloc::{AllocError, AllocFailed, Global};
use thiserror::Error;
use wire_packets::packet_to_chunks;

/// COM_BINLOG_DUMP.
pub(crate) const COM_BINLOG_DUMP: u8 = 0x12;

/// BINLOG_DUMP_NON_BLOCK: the answer ends at the end of the binary log.
pub(crate) const BINLOG_DUMP_NON_BLOCK: u16 = 1;

/// The maximum length of a binary log's name in bytes.
const MAX_NAME_LEN: usize = 511;

/// The error of making a request.
#[derive(Clone, Copy, Debug, PartialEq, Eq, Error)]
pub enum RequestError {
    /// The binary log's name is longer than 511 bytes.
    #[error("the binary log's name is longer than 511 bytes")]
    NameTooLong,
    /// Out of memory.
    #[error("out of memory")]
    Memory,
}

impl RequestError {
    ghost use Rattle.feed_replication.specs.RequestErrors.{request_error_name};

    /// The name of the error, as the program prints it.
    pub fn name(&self) -> &'static str
        ensures { result.now ≡ request_error_name self.now }
    {
        match self {
            RequestError::NameTooLong => "NameTooLong",
            RequestError::Memory => "Memory",
        }
    }
}

impl From<AllocError> for RequestError {
    ghost from_gives = { λ _ e. e ≡ Memory };

    fn from(_error: AllocError) -> RequestError {
        RequestError::Memory
    }
}

impl<T: Drop> From<AllocFailed<T>> for RequestError {
    ghost from_gives = { λ _ e. e ≡ Memory };

    fn from(_error: AllocFailed<T>) -> RequestError {
        RequestError::Memory
    }
}

/// The name of a binary log.
#[derive(Drop)]
pub(crate) struct LogName {
    bytes: Vec<u8>,
    ghost fits: { length bytes.items ≤ 511 },
}

impl LogName {
    /// Copies a name.
    ///
    /// - `NameTooLong`: it is longer than 511 bytes, and only then.
    /// - `Memory`: out of memory.
    pub(crate) fn new(alloc: Global, name: &[u8]) -> Result<LogName, RequestError>
        ensures name { IfOk result (λ it. it.bytes.items ≡ name.now) }
        ensures too_long { IsErrOf result RequestError.NameTooLong ↔ (511 < length name.now) }
    {
        if name.len() > MAX_NAME_LEN {
            return Err(RequestError::NameTooLong);
        }
        let bytes = Vec::from_slice(alloc, name)?;
        Ok(LogName { bytes })
    }

    /// The bytes of the name.
    pub(crate) fn as_slice(&self) -> &[u8]
        ensures name { result.now ≡ self.now.bytes.items }
        ensures fits { length result.now ≤ 511 }
    {
        self.bytes.as_slice()
    }
}

/// Makes the payload of COM_BINLOG_DUMP.
fn dump_payload(
    alloc: Global,
    position: u32,
    server: u32,
    name: &[u8],
) -> Result<Vec<u8>, AllocError>
    ensures { IfOk result (λ payload. payload.items ≡ payload_of position server name.now) }
{
    let mut payload = Vec::new(alloc);
    payload.extend_from_slice(&[COM_BINLOG_DUMP])?;
    payload.extend_from_slice(&position.to_le_bytes())?;
    payload.extend_from_slice(&BINLOG_DUMP_NON_BLOCK.to_le_bytes())?;
    payload.extend_from_slice(&server.to_le_bytes())?;
    payload.extend_from_slice(name)?;
    Ok(payload)
}

/// Makes the packet of COM_BINLOG_DUMP for a name of at most 511 bytes. The only error is that of memory.
#[tactic(auto, unfolding(crate::specs::Requests::dump_request))]
pub(crate) fn dump_packet(
    alloc: Global,
    position: u32,
    server: u32,
    name: &[u8],
) -> Result<Vec<u8>, AllocError>
    ensures { IfOk result (λ packet. packet.items ≡ dump_request position server name.now) }
{
    let payload = dump_payload(alloc, position, server, name)?;
    let mut packet = BytesMut::new(alloc);
    if let Err(_) = packet_to_chunks(0, &payload, &mut packet) {
        return Err(AllocError);
    }
    Vec::from_slice(alloc, packet.as_slice())
}

/// Returns the packet that requests the events of the binary log `name` from position `position` on, for a replica with the id
/// `server`: COM_BINLOG_DUMP with the flag BINLOG_DUMP_NON_BLOCK and the sequence number 0.
///
/// - `NameTooLong`: the name is longer than 511 bytes, and only then.
/// - `Memory`: out of memory.
pub fn request(
    alloc: Global,
    position: u32,
    server: u32,
    name: &[u8],
) -> Result<Vec<u8>, RequestError>
    ensures packet { IfOk result (λ packet. packet.items ≡ dump_request position server name.now) }
    ensures too_long { IsErrOf result RequestError.NameTooLong ↔ (511 < length name.now) }
{
    if name.len() > MAX_NAME_LEN {
        return Err(RequestError::NameTooLong);
    }
    Ok(dump_packet(alloc, position, server, name)?)
}
