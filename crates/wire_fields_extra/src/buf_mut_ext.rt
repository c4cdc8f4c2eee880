//! Appends integers and strings with a length prefix to a buffer.

ghost use Rattle.std.specs.Prelude.{◌≡◌, ◌≤◌, ◌++◌, Some, length, take, OnOk, IfErr};
ghost use Rattle.wire_buf.specs.Numbers.{IsLenenc, IsLittle, IsSignedLittle, IsLenencString, IsShortString, IsLongString, lenenc_encoded};
ghost use Rattle.wire_buf.specs.Writing.{Writes, WriteFails};
ghost use Rattle.wire_buf.specs.declared.fault.WireFault.TheVariants.{Memory};
ghost use Rattle.wire_fields.specs.Ints.{little_encoded, signed_little_encoded};
ghost use Rattle.wire_fields.specs.Strings.{lenenc_string_encoded, counted_encoded};

use bytes::BufMut;
use wire_buf::WireFault;
use wire_fields::lenenc_bytes;

/// Writes integers and strings with a length prefix to any buffer of the crate `bytes`, and to a `Vec`, as in
/// `mysql_common`. Each call returns `Memory` if the buffer can't grow; an error appends nothing.
pub trait BufMutExt: BufMut {
    /// Appends the shortest encoding of a length-encoded integer.
    final fn put_lenenc_int(&mut self, n: u64) -> Result<(), WireFault>
    where
        Self: Sized,
        ensures ok { OnOk result (Writes (λ v. Some (lenenc_encoded v)) IsLenenc n
            (Self.written self.old) (Self.written self.new)) }
        ensures err { IfErr result (λ e. (e ≡ Memory)
            × (Self.written self.new ≡ Self.written self.old)) }
    {
        let (bytes, len) = lenenc_bytes(n);
        self.put_slice(&bytes[..len])?;
        Ok(())
    }

    /// Appends a length-encoded string.
    final fn put_lenenc_str(&mut self, s: &[u8]) -> Result<(), WireFault>
    where
        Self: Sized,
        ensures ok { OnOk result (Writes (λ v. Some (lenenc_string_encoded v)) IsLenencString
            s.now (Self.written self.old) (Self.written self.new)) }
        ensures err { IfErr result (λ e. (e ≡ Memory)
            × (Self.written self.new ≡ Self.written self.old)) }
    {
        let (bytes, len) = lenenc_bytes(s.len() as u64);
        put_both(self, &bytes[..len], s)
    }

    /// Appends an unsigned 3-byte little-endian integer. Returns `Form` if it has more than 24 bits.
    final fn put_u24_le(&mut self, x: u32) -> Result<(), WireFault>
    where
        Self: Sized,
        ensures ok { OnOk result (Writes (little_encoded 3) (IsLittle 3) x
            (Self.written self.old) (Self.written self.new)) }
        ensures err { IfErr result (λ e. WriteFails (little_encoded 3) x e
            (Self.written self.old) (Self.written self.new)) }
    {
        if x >= 0x100_0000 {
            return Err(WireFault::Form);
        }
        self.put_slice(&x.to_le_bytes()[..3])?;
        Ok(())
    }

    /// Appends a signed 3-byte little-endian integer. Returns `Form` if it doesn't fit in 24 bits.
    final fn put_i24_le(&mut self, x: i32) -> Result<(), WireFault>
    where
        Self: Sized,
        ensures ok { OnOk result (Writes (signed_little_encoded 3) (IsSignedLittle 3) x
            (Self.written self.old) (Self.written self.new)) }
        ensures err { IfErr result (λ e. WriteFails (signed_little_encoded 3) x e
            (Self.written self.old) (Self.written self.new)) }
    {
        if x < -0x80_0000 || x >= 0x80_0000 {
            return Err(WireFault::Form);
        }
        self.put_slice(&x.to_le_bytes()[..3])?;
        Ok(())
    }

    /// Appends an unsigned 6-byte little-endian integer. Returns `Form` if it has more than 48 bits.
    final fn put_u48_le(&mut self, x: u64) -> Result<(), WireFault>
    where
        Self: Sized,
        ensures ok { OnOk result (Writes (little_encoded 6) (IsLittle 6) x
            (Self.written self.old) (Self.written self.new)) }
        ensures err { IfErr result (λ e. WriteFails (little_encoded 6) x e
            (Self.written self.old) (Self.written self.new)) }
    {
        if x >= 0x1_0000_0000_0000 {
            return Err(WireFault::Form);
        }
        self.put_slice(&x.to_le_bytes()[..6])?;
        Ok(())
    }

    /// Appends an unsigned 7-byte little-endian integer. Returns `Form` if it has more than 56 bits.
    final fn put_u56_le(&mut self, x: u64) -> Result<(), WireFault>
    where
        Self: Sized,
        ensures ok { OnOk result (Writes (little_encoded 7) (IsLittle 7) x
            (Self.written self.old) (Self.written self.new)) }
        ensures err { IfErr result (λ e. WriteFails (little_encoded 7) x e
            (Self.written self.old) (Self.written self.new)) }
    {
        if x >= 0x100_0000_0000_0000 {
            return Err(WireFault::Form);
        }
        self.put_slice(&x.to_le_bytes()[..7])?;
        Ok(())
    }

    /// Appends a signed 7-byte little-endian integer. Returns `Form` if it doesn't fit in 56 bits.
    final fn put_i56_le(&mut self, x: i64) -> Result<(), WireFault>
    where
        Self: Sized,
        ensures ok { OnOk result (Writes (signed_little_encoded 7) (IsSignedLittle 7) x
            (Self.written self.old) (Self.written self.new)) }
        ensures err { IfErr result (λ e. WriteFails (signed_little_encoded 7) x e
            (Self.written self.old) (Self.written self.new)) }
    {
        if x < -0x80_0000_0000_0000 || x >= 0x80_0000_0000_0000 {
            return Err(WireFault::Form);
        }
        self.put_slice(&x.to_le_bytes()[..7])?;
        Ok(())
    }

    /// Appends a string after its length in one byte, truncated to 255 bytes.
    final fn put_u8_str(&mut self, s: &[u8]) -> Result<(), WireFault>
    where
        Self: Sized,
        ensures ok { OnOk result (Writes (counted_encoded 1) IsShortString (take 255 s.now)
            (Self.written self.old) (Self.written self.new)) }
        ensures err { IfErr result (λ e. (e ≡ Memory)
            × (Self.written self.new ≡ Self.written self.old)) }
    {
        let text = truncated(s, 255);
        put_both(self, &[text.len() as u8], text)
    }

    /// Appends a string after its length in four little-endian bytes, truncated to 4,294,967,295 bytes.
    final fn put_u32_str(&mut self, s: &[u8]) -> Result<(), WireFault>
    where
        Self: Sized,
        ensures ok { OnOk result (Writes (counted_encoded 4) IsLongString
            (take 4294967295 s.now) (Self.written self.old) (Self.written self.new)) }
        ensures err { IfErr result (λ e. (e ≡ Memory)
            × (Self.written self.new ≡ Self.written self.old)) }
    {
        let text = truncated(s, 0xffff_ffff);
        put_both(self, &(text.len() as u32).to_le_bytes(), text)
    }
}

impl<T: BufMut> BufMutExt for T {}

/// Appends both, or nothing. The room for both is reserved first, so that the buffer grows once.
fn put_both<B: BufMut>(buf: &mut B, prefix: &[u8], back: &[u8]) -> Result<(), WireFault>
    ensures ok { OnOk result
        (B.written buf.new ≡ B.written buf.old ++ (prefix.now ++ back.now)) }
    ensures err { IfErr result (λ e. (e ≡ Memory) × (B.written buf.new ≡ B.written buf.old)) }
{
    buf.reserve(prefix.len() + back.len())?;
    buf.put_slice(prefix)?;
    buf.put_slice(back)?;
    Ok(())
}

/// Returns the first `max` bytes of the text, or all of them if there are fewer.
fn truncated(text: &[u8], max: usize) -> &[u8]
    ensures value { result.now ≡ take max text.now }
    ensures size { length result.now ≤ max }
{
    &text[..text.len().min(max)]
}
