//! The quoted text of decimals, directly from MySQL's packed bytes.

ghost use Rattle.std.specs.Prelude.{◌≡◌, ◌≤◌, ◌+◌, OnOk, IfErr, length};
ghost use Rattle.rows_values.specs.PackedTexts.{PutsOrNone};
ghost use Rattle.feed_text.specs.DecimalText.{quoted_decimal, AppendsSome, IsDecimalError};

use rows_errors::RowsError;
use rows_values::put_decimal_text;
use std::alloc::Allocator;

/// Appends the quoted text of a packed decimal with `precision` digits, `scale` of them after the point. Between the quotes is
/// the text that [`put_decimal_text`] writes. An error appends nothing:
///
/// - `Decimal`: the bytes aren't a packed decimal: `scale` is past `precision`, the length isn't that of the digits, or a group
///   of k digits is 10^k or more.
/// - `Memory`: out of memory.
pub fn put_decimal<A: Allocator>(
    bytes: &[u8],
    precision: u8,
    scale: u8,
    out: &mut Vec<u8, A>,
) -> Result<(), RowsError>
    ensures ok { OnOk result (AppendsSome (quoted_decimal precision scale bytes.now) out.old.items out.new.items) }
    ensures err { IfErr result (λ e. IsDecimalError e (quoted_decimal precision scale bytes.now) out.old.items out.new.items) }
{
    let (precision, scale) = (usize::from(precision), usize::from(scale));
    let start = out.len();
    out.resize(start + (precision + 5), b'\'')?;
    let Some(end) = write_quoted(out.as_mut_slice(), start, precision, scale, bytes) else {
        out.truncate(start);
        return Err(RowsError::Decimal);
    };
    out.truncate(end);
    Ok(())
}

/// Writes the quoted text at the offset `at`, and returns the offset of its end; `None` if the bytes aren't a packed decimal. The
/// bytes before `at` are unchanged.
#[inline(always)]
pub(crate) fn write_quoted(
    text: &mut [u8],
    at: usize,
    precision: usize,
    scale: usize,
    bytes: &[u8],
) -> Option<usize>
    requires { at + (precision + 5) ≤ length text.old }
    ensures { PutsOrNone (quoted_decimal precision scale bytes.now) (precision + 5) at text.old text.new result }
{
    text[at] = b'\'';
    match put_decimal_text(text, at + 1, precision, scale, bytes) {
        Some(end) => {
            text[end] = b'\'';
            Some(end + 1)
        }
        None => None,
    }
}
