//! The fields of a TRANSACTION_PAYLOAD_EVENT.

ghost use Rattle.std.specs.Prelude.{◌≡◌};
ghost use Rattle.std.proofs.Common.{rules};
ghost use Rattle.wire_constants.specs.Numbering.{IsConstantOf};
ghost use Rattle.rows_constants_extra.specs.MoreConstants.{transaction_payload_fields_number};
ghost use Rattle.rows_constants_extra.specs.Conversions.{IsByteConstantOf};

use thiserror::Error;
use wire_constants::Constant;

/// The type of a field of a transaction payload event.
#[derive(Clone, Copy, Debug, PartialEq, Eq, Hash)]
pub enum TransactionPayloadFields {
    /// The end of the fields.
    OTW_PAYLOAD_HEADER_END_MARK = 0,
    /// The length of the payload.
    OTW_PAYLOAD_SIZE_FIELD = 1,
    /// The compression of the payload.
    OTW_PAYLOAD_COMPRESSION_TYPE_FIELD = 2,
    /// The length of the payload before compression.
    OTW_PAYLOAD_UNCOMPRESSED_SIZE_FIELD = 3,
}

/// A number that no field of a payload has; 255 for all numbers above 255.
#[derive(Clone, Copy, Debug, PartialEq, Eq, Hash, Error)]
#[error("Unknown TransactionPayloadFields operation {0}")]
pub struct UnknownTransactionPayloadFields(pub u8);

impl TryFrom<u8> for TransactionPayloadFields {
    type Error = UnknownTransactionPayloadFields;

    ghost try_from_gives = { IsConstantOf transaction_payload_fields_number (λ unknown. unknown.0) };

    /// Returns the field with this number. Returns an error from 4 on.
    fn try_from(number: u8) -> Result<TransactionPayloadFields, UnknownTransactionPayloadFields> {
        match number {
            0 => Ok(TransactionPayloadFields::OTW_PAYLOAD_HEADER_END_MARK),
            1 => Ok(TransactionPayloadFields::OTW_PAYLOAD_SIZE_FIELD),
            2 => Ok(TransactionPayloadFields::OTW_PAYLOAD_COMPRESSION_TYPE_FIELD),
            3 => Ok(TransactionPayloadFields::OTW_PAYLOAD_UNCOMPRESSED_SIZE_FIELD),
            _ => Err(UnknownTransactionPayloadFields(number)),
        }
    }
}

impl Constant<u8> for TransactionPayloadFields {
    ghost number = { transaction_payload_fields_number };

    /// Returns the constant's number.
    fn to_number(self) -> u8 {
        self as u8
    }

    ghost takes = { λ n v h. h };

    ghost fails = { λ n e h. h.1 };

    ghost its_own = { Prim.search rules };
}

impl TryFrom<u64> for TransactionPayloadFields {
    type Error = UnknownTransactionPayloadFields;

    ghost try_from_gives = { IsByteConstantOf transaction_payload_fields_number (λ unknown. unknown.0) };

    /// Returns the field with this number. Returns an error from 4 on; above 255 the error holds 255.
    fn try_from(number: u64) -> Result<TransactionPayloadFields, UnknownTransactionPayloadFields> {
        match number {
            0 => Ok(TransactionPayloadFields::OTW_PAYLOAD_HEADER_END_MARK),
            1 => Ok(TransactionPayloadFields::OTW_PAYLOAD_SIZE_FIELD),
            2 => Ok(TransactionPayloadFields::OTW_PAYLOAD_COMPRESSION_TYPE_FIELD),
            3 => Ok(TransactionPayloadFields::OTW_PAYLOAD_UNCOMPRESSED_SIZE_FIELD),
            _ => Err(UnknownTransactionPayloadFields(number.min(255) as u8)),
        }
    }
}

impl From<TransactionPayloadFields> for u8 {
    ghost from_gives = { λ field number. number ≡ transaction_payload_fields_number field };

    /// Returns the field's number.
    fn from(transaction_payload_fields: TransactionPayloadFields) -> u8 {
        transaction_payload_fields as u8
    }
}

impl From<TransactionPayloadFields> for u64 {
    ghost from_gives = { λ field number. number ≡ transaction_payload_fields_number field };

    /// Returns the field's number.
    fn from(transaction_payload_fields: TransactionPayloadFields) -> u64 {
        transaction_payload_fields as u64
    }
}
