//! Writing entries and lists as fields. On an error the buffer is as before.

ghost use Rattle.std.specs.Prelude.{◌≡◌, [], ⊤, OnOk, IfErr};
ghost use Rattle.wire_buf.specs.Writing.{WritesField, WriteFails};
ghost use Rattle.wire_fields.specs.ByteStrings.{IsAll};
ghost use Rattle.rows_table_map.specs.Entries.{PairEncoding};
ghost use Rattle.rows_table_map.specs.FieldEncodings.{all_encoded, pair_encoded};

use std::alloc::Allocator;
use std::borrow::CowSlice;
use wire_buf::{MySerialize, WireFault};
use wire_fields::{EofBytes, LenEnc, RawBytes, RawInt};

/// Appends the value of a list.
pub(crate) fn put_all<A: Allocator>(bytes: &[u8], buf: &mut Vec<u8, A>) -> Result<(), WireFault>
    ensures ok { OnOk result (WritesField all_encoded IsAll (λ rest. rest ≡ []) bytes.now buf.old.items buf.new.items) }
    ensures err { IfErr result (λ e. WriteFails all_encoded bytes.now e buf.old.items buf.new.items) }
{
    RawBytes::<EofBytes>::new(CowSlice::Borrowed(bytes)).serialize(buf)
}

/// Appends two numbers.
pub(crate) fn put_pair<A: Allocator>(
    first: u64,
    second: u64,
    buf: &mut Vec<u8, A>,
) -> Result<(), WireFault>
    ensures ok { OnOk result (WritesField pair_encoded PairEncoding (λ rest. ⊤) (first, second) buf.old.items buf.new.items) }
    ensures err { IfErr result (λ e. WriteFails pair_encoded (first, second) e buf.old.items buf.new.items) }
{
    (RawInt::<LenEnc>::new(first), RawInt::<LenEnc>::new(second)).serialize(buf)
}
