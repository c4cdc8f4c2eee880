//! The bytes of a log that may be compressed.

ghost use Rattle.std.specs.Prelude.{◌≡◌, ◌⊎◌, Bool, List, ℕ, [], Some, IfOk, IfErr, OnOk};
ghost use Rattle.wire_buf.specs.Watched.{inner_of, has_failed};
ghost use Rattle.inflate.specs.Wrappings.{AppendsMembers};
ghost use Rattle.zstd_decoder.specs.Frames.{AppendsFrames};
ghost use Rattle.events_frames.specs.Frames.{IsReadCause};
ghost use Rattle.changes_commands.specs.Unpacked.{Begins, IsUnpackFault, TakesAll, Unpacks};
ghost use Rattle.changes_commands.specs.declared.unpacking.UnpackFault.TheVariants.{Gzip, Memory, Zstandard};

use events_frames::{EventError, gather};
use inflate::{InflateDecoder, InflateError};
use std::alloc::Global;
use std::io::Read;
use thiserror::Error;
use wire_buf::Watched;
use zstd_decoder::{ZstdDecoder, ZstdError};

/// The number of the first bytes that show how a file is compressed.
const FIRST_LEN: u64 = 4;

/// How a gzip file begins (RFC 1952).
const GZIP: [u8; 2] = [0x1f, 0x8b];

/// How a Zstandard file begins (RFC 8878).
const ZSTANDARD: [u8; 4] = [0x28, 0xb5, 0x2f, 0xfd];

/// How a file is compressed.
#[derive(Clone, Copy)]
pub(crate) enum Compression {
    Absent,
    Gzip,
    Zstandard,
}

/// Why a log can't be decompressed.
#[derive(Clone, Copy, Debug, PartialEq, Eq, Error)]
pub enum UnpackFault {
    /// Reading failed.
    #[error("reading failed")]
    Read,
    /// Out of memory.
    #[error("out of memory")]
    Memory,
    /// The data of the gzip file can't be decompressed.
    #[error("the gzip file is damaged: {0}")]
    Gzip(InflateError),
    /// The frames of the Zstandard file can't be decompressed.
    #[error("the Zstandard file is damaged: {0}")]
    Zstandard(ZstdError),
}

impl Compression {
    ghost use Rattle.changes_commands.specs.Unpacked.{compression_of};

    /// That of a file with these first bytes.
    fn of(first: &[u8]) -> Compression
        ensures { result ≡ compression_of first.now }
    {
        if first.starts_with(&GZIP) {
            Compression::Gzip
        } else if first.starts_with(&ZSTANDARD) {
            Compression::Zstandard
        } else {
            Compression::Absent
        }
    }
}

/// Why bytes weren't taken.
fn fault_of(fault: EventError) -> UnpackFault
    ensures { (failed : Bool) (file : List ℕ) → IsReadCause failed fault → IsUnpackFault failed file result }
{
    match fault {
        EventError::Memory => UnpackFault::Memory,
        _ => UnpackFault::Read,
    }
}

/// Takes the first four bytes of a reader, or all if it has fewer.
fn take_first<R: Read>(reader: &mut Watched<R>, bytes: &mut Vec<u8>) -> Result<(), UnpackFault>
    requires { bytes.old.items ≡ [] }
    ensures ok { OnOk result ((file : List ℕ) → R.remaining (inner_of reader.old) ≡ Some file → Begins file bytes.new.items (R.remaining (inner_of reader.new))) }
    ensures err { IfErr result (λ e. (file : List ℕ) → IsUnpackFault (has_failed reader.new) file e) }
{
    match gather(reader, FIRST_LEN, bytes) {
        Ok(()) => Ok(()),
        Err(fault) => Err(fault_of(fault)),
    }
}

/// Appends what a reader has left.
fn take_rest<R: Read>(reader: &mut Watched<R>, bytes: &mut Vec<u8>) -> Result<(), UnpackFault>
    ensures ok { OnOk result ((left : List ℕ) → R.remaining (inner_of reader.old) ≡ Some left → TakesAll left (R.remaining (inner_of reader.new)) bytes.old.items bytes.new.items) }
    ensures err { IfErr result (λ e. (file : List ℕ) → IsUnpackFault (has_failed reader.new) file e) }
{
    match gather(reader, u64::MAX, bytes) {
        Ok(()) => Ok(()),
        Err(fault) => Err(fault_of(fault)),
    }
}

/// The content of a gzip file.
fn gunzip(alloc: Global, packed: &[u8]) -> Result<Vec<u8>, UnpackFault>
    ensures ok { IfOk result (λ content. AppendsMembers packed.now [] content.items) }
    ensures err { IfErr result (λ e. (e ≡ Memory) ⊎ ((why : _) × (e ≡ Gzip why))) }
{
    let mut content = Vec::new(alloc);
    match InflateDecoder::new().decode_gzip(packed, &mut content, usize::MAX) {
        Ok(()) => Ok(content),
        Err(InflateError::Memory) => Err(UnpackFault::Memory),
        Err(error) => Err(UnpackFault::Gzip(error)),
    }
}

/// The content of a Zstandard file.
fn unzstd(alloc: Global, packed: &[u8]) -> Result<Vec<u8>, UnpackFault>
    ensures ok { IfOk result (λ content. AppendsFrames packed.now [] content.items) }
    ensures err { IfErr result (λ e. (e ≡ Memory) ⊎ ((why : _) × (e ≡ Zstandard why))) }
{
    let mut content = Vec::new(alloc);
    match ZstdDecoder::new(alloc).decode(packed, &mut content, usize::MAX) {
        Ok(()) => Ok(content),
        Err(ZstdError::Memory) => Err(UnpackFault::Memory),
        Err(error) => Err(UnpackFault::Zstandard(error)),
    }
}

/// Reads a log that may be a gzip or Zstandard file, which its first bytes show. Returns the first bytes of the log; the others are
/// those that the reader has left: none, if the log was compressed.
///
/// - `Read`: the reader failed.
/// - `Gzip`, `Zstandard`: the file can't be decompressed.
/// - `Memory`: out of memory.
pub fn unpack<R: Read>(alloc: Global, reader: &mut Watched<R>) -> Result<Vec<u8>, UnpackFault>
    ensures ok { IfOk result (λ first. (file : List ℕ) → R.remaining (inner_of reader.old) ≡ Some file → Unpacks file first.items (R.remaining (inner_of reader.new))) }
    ensures err { IfErr result (λ e. (file : List ℕ) → R.remaining (inner_of reader.old) ≡ Some file → IsUnpackFault (has_failed reader.new) file e) }
{
    let mut bytes = Vec::new(alloc);
    take_first(reader, &mut bytes)?;
    match Compression::of(&bytes) {
        Compression::Absent => Ok(bytes),
        Compression::Gzip => {
            take_rest(reader, &mut bytes)?;
            gunzip(alloc, &bytes)
        }
        Compression::Zstandard => {
            take_rest(reader, &mut bytes)?;
            unzstd(alloc, &bytes)
        }
    }
}
