//! Length-encoded integers and strings from a reader.

ghost use Rattle.std.specs.Prelude.{◌⊎◌, IfOk, IfErr};
ghost use Rattle.wire_buf.specs.Encoding.{Alone};
ghost use Rattle.wire_buf.specs.Numbers.{IsLenenc, IsLenencString};
ghost use Rattle.wire_fields_extra.specs.ReaderValues.{ReadsFrom, FailsFrom, RunsOutOfMemory};

use byteorder::{ByteOrder, LittleEndian};
use std::alloc::Global;
use std::io::Read;
use wire_buf::{WireFault, read_exact, read_more};

/// Reads length-encoded integers and strings from any reader, as in `mysql_common`.
///
/// - `Eof`: the input ended within the value; all of its bytes are taken.
/// - `BadNumber`: the first byte is 251 or 255; only that byte is taken.
/// - `Read`: the reader failed, or was interrupted 2^63 - 1 times.
pub trait ReadMysqlExt: Read {
    /// Reads a length-encoded integer.
    final fn read_lenenc_int(&mut self) -> Result<u64, WireFault>
    where
        Self: Sized,
        ensures ok { IfOk result (λ v. ReadsFrom (Alone IsLenenc) v
            (Self.remaining self.old) (Self.remaining self.new)) }
        ensures err { IfErr result (λ e. FailsFrom (Alone IsLenenc) e
            (Self.remaining self.old) (Self.remaining self.new)) }
    {
        let mut buf = [0u8; 1];
        read_exact(self, &mut buf)?;
        let first = buf[0];
        if first <= 250 {
            return Ok(u64::from(first));
        }
        if first == 252 {
            let mut two = [0u8; 2];
            read_exact(self, &mut two)?;
            return Ok(u64::from(LittleEndian::read_u16(&two)));
        }
        if first == 253 {
            let mut three = [0u8; 3];
            read_exact(self, &mut three)?;
            return Ok(u64::from(LittleEndian::read_u24(&three)));
        }
        if first == 254 {
            let mut eight = [0u8; 8];
            read_exact(self, &mut eight)?;
            return Ok(LittleEndian::read_u64(&eight));
        }
        Err(WireFault::BadNumber)
    }

    /// Reads a length-encoded string. The string grows with the bytes that arrive, never by the length alone.
    /// The error is also `Memory` if it can't grow.
    final fn read_lenenc_str(&mut self, alloc: Global) -> Result<Vec<u8>, WireFault>
    where
        Self: Sized,
        ensures ok { IfOk result (λ s. ReadsFrom (Alone IsLenencString) s.items
            (Self.remaining self.old) (Self.remaining self.new)) }
        ensures err { IfErr result (λ e.
            FailsFrom (Alone IsLenencString) e (Self.remaining self.old) (Self.remaining self.new)
            ⊎ RunsOutOfMemory e (Self.remaining self.old) (Self.remaining self.new)) }
    {
        let length = self.read_lenenc_int()?;
        let mut text = Vec::new(alloc);
        read_more(self, length, &mut text)?;
        Ok(text)
    }
}

impl<R: Read> ReadMysqlExt for R {}
