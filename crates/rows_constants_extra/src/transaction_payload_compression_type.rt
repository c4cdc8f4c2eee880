//! The compressions of a transaction payload.

ghost use Rattle.std.proofs.Common.{rules};
ghost use Rattle.wire_constants.specs.Numbering.{IsConstantOf};
ghost use Rattle.rows_constants_extra.specs.MoreConstants.{transaction_payload_compression_type_number};
ghost use Rattle.rows_constants_extra.specs.Conversions.{IsByteConstantOf};

use thiserror::Error;
use wire_constants::Constant;

/// The compression of a transaction payload event.
#[derive(Clone, Copy, Debug, PartialEq, Eq, Hash)]
pub enum TransactionPayloadCompressionType {
    /// Zstandard.
    ZSTD = 0,
    /// No compression.
    NONE = 255,
}

/// A number that no compression has; 255 for all numbers above 255.
#[derive(Clone, Copy, Debug, PartialEq, Eq, Hash, Error)]
#[error("Unknown TransactionPayloadCompressionType {0}")]
pub struct UnknownTransactionPayloadCompressionType(pub u8);

impl TryFrom<u8> for TransactionPayloadCompressionType {
    type Error = UnknownTransactionPayloadCompressionType;

    ghost try_from_gives = { IsConstantOf transaction_payload_compression_type_number (λ unknown. unknown.0) };

    /// Returns the compression with this number. Returns an error from 1 to 254.
    fn try_from(
        number: u8,
    ) -> Result<TransactionPayloadCompressionType, UnknownTransactionPayloadCompressionType> {
        match number {
            0 => Ok(TransactionPayloadCompressionType::ZSTD),
            255 => Ok(TransactionPayloadCompressionType::NONE),
            _ => Err(UnknownTransactionPayloadCompressionType(number)),
        }
    }
}

impl Constant<u8> for TransactionPayloadCompressionType {
    ghost number = { transaction_payload_compression_type_number };

    /// Returns the constant's number.
    fn to_number(self) -> u8 {
        self as u8
    }

    ghost takes = { λ n v h. h };

    ghost fails = { λ n e h. h.1 };

    ghost its_own = { Prim.search rules };
}

impl TryFrom<u64> for TransactionPayloadCompressionType {
    type Error = UnknownTransactionPayloadCompressionType;

    ghost try_from_gives = { IsByteConstantOf transaction_payload_compression_type_number (λ unknown. unknown.0) };

    /// Returns the compression with this number. Returns an error from 1 to 254 and above 255; above 255 the
    /// error holds 255.
    fn try_from(
        number: u64,
    ) -> Result<TransactionPayloadCompressionType, UnknownTransactionPayloadCompressionType> {
        match number {
            0 => Ok(TransactionPayloadCompressionType::ZSTD),
            255 => Ok(TransactionPayloadCompressionType::NONE),
            _ => Err(UnknownTransactionPayloadCompressionType(number.min(255) as u8)),
        }
    }
}
