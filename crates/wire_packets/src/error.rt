//! The errors of packets.

ghost use Rattle.std.specs.Prelude.{◌≡◌};
ghost use Rattle.wire_packets.specs.declared.error.PacketCodecError.TheVariants.{Io, Memory};

use std::alloc::{AllocError, AllocFailed};
use thiserror::Error;
use wire_buf::WireFault;

/// Why packets can't be read or written.
#[derive(Clone, Copy, Debug, PartialEq, Eq, Error)]
pub enum PacketCodecError {
    /// A `WireFault`, for callers that read fields besides packets. No call of this crate returns it.
    #[error("IO error: `{0}'")]
    Io(WireFault),
    /// The payload would exceed `max_allowed_packet`.
    #[error("packet is larger than max_allowed_packet")]
    PacketTooLarge,
    /// A chunk's sequence id isn't the expected one.
    #[error("packets out of sync")]
    PacketsOutOfSync,
    /// Out of memory.
    #[error("out of memory")]
    Memory,
}

impl From<WireFault> for PacketCodecError {
    ghost from_gives = { λ fault error. error ≡ Io fault };

    fn from(fault: WireFault) -> PacketCodecError {
        PacketCodecError::Io(fault)
    }
}

impl From<AllocError> for PacketCodecError {
    ghost from_gives = { λ fails_with error. error ≡ Memory };

    fn from(_error: AllocError) -> PacketCodecError {
        PacketCodecError::Memory
    }
}

impl<T: Drop> From<AllocFailed<T>> for PacketCodecError {
    ghost from_gives = { λ fails_with error. error ≡ Memory };

    fn from(_error: AllocFailed<T>) -> PacketCodecError {
        PacketCodecError::Memory
    }
}
