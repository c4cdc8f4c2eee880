//! Length-encoded integers and strings to a writer.

ghost use Rattle.std.specs.Prelude.{◌≡◌, ◌-◌, ◌^◌, OnOk, IfOk, IfErr, length, min};
ghost use Rattle.std.specs.Io.KnownBytes.{Appends};
ghost use Rattle.wire_buf.specs.Numbers.{lenenc_encoded};
ghost use Rattle.wire_buf.specs.declared.fault.WireFault.TheVariants.{Write as WriteFault};
ghost use Rattle.wire_fields.specs.Strings.{lenenc_string_encoded};
ghost use Rattle.wire_buf.specs.Transfers.{WritesPrefix};

use std::io::Write;
use wire_buf::{WireFault, write_all};
use wire_fields::{lenenc_bytes, lenenc_str_len};

/// Writes length-encoded integers and strings to any writer, as in `mysql_common`.
///
/// Returns `Write` if the writer fails, if it takes no byte although there are some, or if it is interrupted
/// 2^63 - 1 times; a prefix of the value's bytes is then written.
pub trait WriteMysqlExt: Write {
    /// Writes the shortest encoding of a length-encoded integer. Returns the number of bytes written.
    final fn write_lenenc_int(&mut self, x: u64) -> Result<u64, WireFault>
    where
        Self: Sized,
        ensures written { OnOk result (Appends (Self.contents self.old) (Self.contents self.new)
            (lenenc_encoded x)) }
        ensures count { IfOk result (λ n. n ≡ length (lenenc_encoded x)) }
        ensures err { IfErr result (λ e. (e ≡ WriteFault) × WritesPrefix (lenenc_encoded x)
            (Self.contents self.old) (Self.contents self.new)) }
    {
        let (bytes, len) = lenenc_bytes(x);
        write_all(self, &bytes[..len])?;
        Ok(len as u64)
    }

    /// Writes a length-encoded string. Returns the number of bytes written, at most `u64::MAX`.
    final fn write_lenenc_str(&mut self, bytes: &[u8]) -> Result<u64, WireFault>
    where
        Self: Sized,
        ensures written { OnOk result (Appends (Self.contents self.old) (Self.contents self.new)
            (lenenc_string_encoded bytes.now)) }
        ensures count { IfOk result
            (λ n. n ≡ min (length (lenenc_string_encoded bytes.now)) (2 ^ 64 - 1)) }
        ensures err { IfErr result (λ e. (e ≡ WriteFault) × WritesPrefix
            (lenenc_string_encoded bytes.now) (Self.contents self.old) (Self.contents self.new)) }
    {
        self.write_lenenc_int(bytes.len() as u64)?;
        write_all(self, bytes)?;
        Ok(lenenc_str_len(bytes))
    }
}

impl<W: Write> WriteMysqlExt for W {}
