//! Checksums.

ghost use Rattle.std.specs.Prelude.{◌≡◌};
ghost use Rattle.crc32.specs.Checksums.{crc32_of};

use crc32::crc32;

/// The CRC-32 of bytes, with which MySQL checksums the events of a binary log.
#[unsafe(no_mangle)]
pub extern "C" fn cuvragyen_crc32(bytes: &[u8]) -> u32
    ensures { result ≡ crc32_of bytes.now }
{
    crc32(bytes)
}
