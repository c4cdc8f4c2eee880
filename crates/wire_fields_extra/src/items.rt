//! Values in sequence.

ghost use Rattle.std.specs.Prelude.{◌⊎◌, ⊤, map, IfOk, IfErr, OnOk};
ghost use Rattle.wire_buf.specs.Encoding.{Reads, Lacks, IsSequence};
ghost use Rattle.wire_buf.specs.Writing.{WritesField, WriteFails};
ghost use Rattle.wire_fields_extra.specs.Sequences.{IsSequenceOf, joined_encoded, ItemsFail};
ghost use Rattle.wire_buf.specs.ReadErrors.{ParseFails};
ghost use Rattle.wire_buf.specs.declared.fault.WireFault.TheVariants.{Eof, Memory};

use std::alloc::{Allocator, Global};
use wire_buf::{Inner, MyDeserialize, ParseBuf, WireFault, truncate_on_error};

/// Reads `count` values. Memory grows with the values that are read.
pub(crate) fn read_items<'de, T: MyDeserialize<'de, Ctx = ()> + Drop>(
    alloc: Global,
    count: usize,
    buf: &mut ParseBuf<'de>,
) -> Result<Vec<T>, T::Fault>
    ensures ok { IfOk result (λ v. Reads (IsSequence count (T.encodes tt)) (map T.view v.items)
        buf.old.0.now buf.new.0.now) }
    ensures err { IfErr result (λ e. T.Fault.is_memory e
        ⊎ Lacks (IsSequence count (T.encodes tt)) buf.old.0.now) }
    ensures why { IfErr result (ItemsFail count (T.encodes tt)
        (ParseFails T.Size.SIZE (T.fails_with tt) (T.Fault.from_gives Eof))
        (T.Fault.from_gives Memory) buf.old.0.now) }
{
    let mut items = Vec::new(alloc);
    for _ in 0..count {
        let item = buf.parse::<T>(alloc, ())?;
        let Ok(()) = items.push(item) else {
            return Err(T::Fault::from(WireFault::Memory));
        };
    }
    Ok(items)
}

/// Appends the bytes of the values; nothing if one of them returns an error.
pub(crate) fn write_items<T: Inner, A: Allocator>(
    items: &[T],
    buf: &mut Vec<u8, A>,
) -> Result<(), WireFault>
    ensures ok { OnOk result (WritesField (joined_encoded T.encoded) (IsSequenceOf T.encoding) (λ rest. ⊤)
        (map T.view items.now) buf.old.items buf.new.items) }
    ensures err { IfErr result (λ e. WriteFails (joined_encoded T.encoded) (map T.view items.now) e
        buf.old.items buf.new.items) }
{
    let start = buf.len();
    for item in items {
        if let Err(fault) = item.serialize(buf) {
            return truncate_on_error(Err(fault), start, buf);
        }
    }
    Ok(())
}
