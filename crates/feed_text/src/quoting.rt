//! Bytes in quotes, and the bytes that a quoted text stands for.

ghost use Rattle.std.specs.Prelude.{◌≡◌, ◌≤◌, ◌++◌, OnOk, IfErr, not, length, take, take_while};
ghost use Rattle.std.specs.List.{flat_map};
ghost use Rattle.feed_writers.specs.Quoting.{is_plain_byte, escape, quoted};
ghost use Rattle.feed_text.specs.TextPieces.{IsAppendError};

use feed_writers::{is_plain, plain_len, put_escapes};
use rows_errors::RowsError;
use std::alloc::Allocator;

/// The length of a piece that is escaped and appended at once.
const ESCAPED_AT_ONCE: usize = 16;

/// Appends bytes in single quotes: 0x20 to 0x7e except quote and backslash unchanged, each other byte as a backslash and two
/// lower case hexadecimal digits. `Memory`: out of memory; nothing is appended.
pub fn quote<A: Allocator>(bytes: &[u8], out: &mut Vec<u8, A>) -> Result<(), RowsError>
    ensures ok { OnOk result (out.new.items ≡ out.old.items ++ quoted bytes.now) }
    ensures err { IfErr result (λ e. IsAppendError e out.old.items out.new.items) }
{
    let start = out.len();
    let Ok(()) = append_quoted(bytes, out) else {
        out.truncate(start);
        return Err(RowsError::Memory);
    };
    Ok(())
}

/// Appends quoted bytes. An error may leave a part of them.
fn append_quoted<A: Allocator>(bytes: &[u8], out: &mut Vec<u8, A>) -> Result<(), RowsError>
    ensures ok { OnOk result (out.new.items ≡ out.old.items ++ quoted bytes.now) }
    ensures kept { take (length out.old.items) out.new.items ≡ out.old.items }
{
    out.push(b'\'')?;
    let mut rest = bytes;
    while !rest.is_empty() {
        let (plain, after) = rest.split_at(plain_len(rest));
        if plain.is_empty() {
            let (others, after) = rest.split_at(escaped_len(rest));
            append_escapes(others, out)?;
            rest = after;
        } else {
            out.extend_from_slice(plain)?;
            rest = after;
        }
    }
    out.push(b'\'')?;
    Ok(())
}

/// Appends the escapes of at most sixteen bytes, or nothing.
fn append_escapes<A: Allocator>(bytes: &[u8], out: &mut Vec<u8, A>) -> Result<(), RowsError>
    requires { length bytes.now ≤ 16 }
    ensures ok { OnOk result (out.new.items ≡ out.old.items ++ flat_map escape bytes.now) }
    ensures err { IfErr result (λ e. IsAppendError e out.old.items out.new.items) }
{
    let start = out.len();
    out.resize(start + 3 * bytes.len(), 0)?;
    let end = put_escapes(out.as_mut_slice(), start, bytes);
    out.truncate(end);
    Ok(())
}

/// Counts the bytes at the start that have to be escaped, among the first sixteen.
fn escaped_len(bytes: &[u8]) -> usize
    ensures { result ≡ length (take_while (λ b. not (is_plain_byte b)) (take 16 bytes.now)) }
{
    bytes
        .iter()
        .take(ESCAPED_AT_ONCE)
        .take_while(|byte| !is_plain(**byte))
        .count()
}
