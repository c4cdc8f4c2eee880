//! Laws of the constants. Each is a function that does nothing, whose contract is the law.

ghost use Rattle.std.specs.Prelude.{◌≡◌, ◌^◌, Err, ◌-◌, IsOkAnd, Result};
ghost use Rattle.std.specs.Ordering.{nat_cmp};
ghost use Rattle.rows_constants.specs.BinlogVersions.{binlog_version_number, binlog_checksum_alg_number};
ghost use Rattle.rows_constants_extra.specs.MoreConstants.{load_duplicate_handling_number, incident_type_number, intvar_event_type_number, transaction_payload_fields_number, transaction_payload_compression_type_number, binlog_row_value_options_number};
ghost use Rattle.rows_constants.specs.EventTypes.{event_type_number};
ghost use Rattle.rows_constants.specs.MetadataTypes.{optional_metadata_field_type_number};
ghost use Rattle.rows_constants_extra.specs.Conversions.{AreDistinct, IsByteConstantOf, IsGnoOf, gno_number};
ghost use Rattle.rows_constants_extra.specs.StatusVarKeys.{status_var_key_number};
ghost use Rattle.rows_constants.specs.contracts.binlog_version.BinlogVersionOrd.TheImpl.{ghosts as version_order};
ghost use Rattle.rows_constants_extra.specs.contracts.gno.GnoOrd.TheImpl.{ghosts as gno_order};

use crate::gno::{Gno, InvalidGno};
use crate::transaction_payload_fields::{
    TransactionPayloadFields, UnknownTransactionPayloadFields,
};
use rows_constants::BinlogVersion;

/// Format versions, and sequence numbers of transactions, are ordered by their numbers.
pub fn orders_are_of_numbers()
    ensures versions { (a b : BinlogVersion)
        → version_order.cmp a b ≡ nat_cmp (binlog_version_number a) (binlog_version_number b) }
    ensures transactions { (a b : Gno) → gno_order.cmp a b ≡ nat_cmp (gno_number a) (gno_number b) }
{}

/// No two constants of a type have the same number.
pub fn numbers_are_distinct()
    ensures versions { AreDistinct binlog_version_number }
    ensures checksum_algs { AreDistinct binlog_checksum_alg_number }
    ensures duplicate_handlings { AreDistinct load_duplicate_handling_number }
    ensures incidents { AreDistinct incident_type_number }
    ensures intvars { AreDistinct intvar_event_type_number }
    ensures payload_fields { AreDistinct transaction_payload_fields_number }
    ensures compressions { AreDistinct transaction_payload_compression_type_number }
    ensures row_value_options { AreDistinct binlog_row_value_options_number }
    ensures event_types { AreDistinct event_type_number }
    ensures metadata_types { AreDistinct optional_metadata_field_type_number }
    ensures status_keys { AreDistinct status_var_key_number }
{}

/// The smallest and the largest sequence number of a transaction with a GTID.
pub fn transaction_numbers()
    ensures least { Gno.MIN_GNO ≡ 1 }
    ensures greatest { Gno.MAX_GNO ≡ 2 ^ 63 - 1 }
{}

/// Conversions at the limits: 2^63 - 1 is a sequence number and 2^63 is an error; 256 is no field of a
/// payload, and its error holds 255.
pub fn worked_numbers()
    ensures greatest_gno { (r : Result Gno InvalidGno) → IsGnoOf (2 ^ 63 - 1) r
        → IsOkAnd r (λ gno. gno_number gno ≡ 9223372036854775807) }
    ensures gno_past_the_greatest { (r : Result Gno InvalidGno) → IsGnoOf (2 ^ 63) r
        → r ≡ Err (record { 0 = 9223372036854775808 }) }
    ensures payload_field_past_a_byte { (r : Result TransactionPayloadFields UnknownTransactionPayloadFields)
        → IsByteConstantOf transaction_payload_fields_number (λ unknown. unknown.0) 256 r
        → r ≡ Err (record { 0 = 255 }) }
{}
