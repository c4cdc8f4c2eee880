//! Numbers and texts in a record.

ghost use Rattle.std.specs.Prelude.{◌≡◌, ◌≤◌, ◌<◌, ◌+◌, ◌-◌, ◌^◌, ◌++◌, OnOk, take, drop, length, vec_len};
ghost use Rattle.byteorder.specs.Endian.{little_bytes};
ghost use Rattle.library_log.specs.RecordLayouts.{text_bytes};

use std::alloc::AllocError;

/// The length of a number of eight bytes.
const WORD_LEN: usize = 8;

/// Appends a number of four bytes.
pub(crate) fn put_half(number: u32, out: &mut Vec<u8>) -> Result<(), AllocError>
    ensures appended { OnOk result (out.new.items ≡ out.old.items ++ little_bytes 4 number) }
    ensures len { OnOk result (vec_len out.new ≡ vec_len out.old + 4) }
    ensures small { number < 2 ^ 32 }
{
    out.extend_from_slice(&number.to_le_bytes())
}

/// Appends a number of eight bytes.
pub(crate) fn put_word(number: u64, out: &mut Vec<u8>) -> Result<(), AllocError>
    ensures appended { OnOk result (out.new.items ≡ out.old.items ++ little_bytes 8 number) }
    ensures len { OnOk result (vec_len out.new ≡ vec_len out.old + 8) }
{
    out.extend_from_slice(&number.to_le_bytes())
}

/// Appends a text after its length.
pub(crate) fn put_text(text: &[u8], out: &mut Vec<u8>) -> Result<(), AllocError>
    ensures appended { OnOk result (out.new.items ≡ out.old.items ++ text_bytes text.now) }
    ensures len { OnOk result (vec_len out.new ≡ vec_len out.old + 8 + length text.now) }
    ensures small { length text.now < 2 ^ 64 }
{
    put_word(text.len() as u64, out)?;
    out.extend_from_slice(text)
}

/// Writes a number of eight bytes at an offset, over those that are there.
pub(crate) fn set_word(number: u64, at: usize, out: &mut Vec<u8>)
    requires { at + 8 ≤ vec_len out.old }
    ensures written { out.new.items ≡ take at out.old.items ++ (little_bytes 8 number ++ drop (at + 8) out.old.items) }
    ensures len { vec_len out.new ≡ vec_len out.old }
{
    out[at..at + WORD_LEN].copy_from_slice(&number.to_le_bytes());
}

/// Writes the number of the bytes after a length at this offset into it.
pub(crate) fn set_len(at: usize, out: &mut Vec<u8>)
    requires { at + 8 ≤ vec_len out.old }
    ensures written { out.new.items ≡ take at out.old.items ++ (little_bytes 8 (vec_len out.old - (at + 8)) ++ drop (at + 8) out.old.items) }
    ensures len { vec_len out.new ≡ vec_len out.old }
{
    let len = out.len() - (at + WORD_LEN);
    set_word(len as u64, at, out);
}
