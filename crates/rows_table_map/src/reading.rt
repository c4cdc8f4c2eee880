//! Reading entries and lists as fields; the bytes that are read are consumed.

ghost use Rattle.std.specs.Prelude.{◌≡◌, IfOk, IfErr, OnErr, Err};
ghost use Rattle.wire_buf.specs.Encoding.{Reads, Lacks};
ghost use Rattle.wire_fields.specs.ByteStrings.{IsAll};
ghost use Rattle.rows_table_map.specs.Entries.{PairEncoding, StringEncoding, pair_at, string_at};

use crate::entries::{split_pair, split_string};
use rows_errors::RowsError;
use wire_buf::ParseBuf;

/// Takes all remaining bytes: the value of a list.
pub(crate) fn take_all<'a>(buf: &mut ParseBuf<'a>) -> &'a [u8]
    ensures { Reads IsAll result.now buf.old.0.now buf.new.0.now }
{
    buf.eat_all()
}

/// Takes two numbers; returns the errors of `split_pair`.
pub(crate) fn take_pair(buf: &mut ParseBuf<'_>) -> Result<(u64, u64), RowsError>
    ensures ok { IfOk result (λ p. Reads PairEncoding p buf.old.0.now buf.new.0.now) }
    ensures err { OnErr result (Lacks PairEncoding buf.old.0.now) }
    ensures why { IfErr result (λ e. pair_at buf.old.0.now ≡ Err e) }
{
    match split_pair(buf.0) {
        Ok((pair, rest)) => {
            buf.0 = rest;
            Ok(pair)
        }
        Err(fault) => Err(fault),
    }
}

/// Takes a string; returns the errors of `split_string`.
pub(crate) fn take_string<'a>(buf: &mut ParseBuf<'a>) -> Result<&'a [u8], RowsError>
    ensures ok { IfOk result (λ s. Reads StringEncoding s.now buf.old.0.now buf.new.0.now) }
    ensures err { OnErr result (Lacks StringEncoding buf.old.0.now) }
    ensures why { IfErr result (λ e. string_at buf.old.0.now ≡ Err e) }
{
    match split_string(buf.0) {
        Ok((string, rest)) => {
            buf.0 = rest;
            Ok(string)
        }
        Err(fault) => Err(fault),
    }
}
