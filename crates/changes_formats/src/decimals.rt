//! Decimals as Debezium has them: the Base64 of the unscaled number in two's complement, the highest byte first, in as few bytes as it
//! has (`org.apache.kafka.connect.data.Decimal`).

ghost use Rattle.std.specs.Prelude.{◌≡◌, ◌≤◌, ◌+◌, ◌-◌, ◌*◌, IfErr, OnOk};
ghost use Rattle.changes_statements.specs.NoStatements.{IsMemoryOr, PacksNoDecimal};
ghost use Rattle.changes_statements.specs.declared.no_statement.NoStatement.{NoStatement};

use crate::numbers::DECIMAL_ROOM;
use crate::strings::put_base64_string;
use changes_statements::NoStatement;
use feed_text::TextBuffer;
use rows_values::put_decimal_text;
use std::alloc::Global;

/// The room for a number of 255 digits, and its sign.
const BYTES_ROOM: usize = 128;

/// A number without its sign: its bytes, the lowest first.
#[derive(Clone, Copy)]
struct Magnitude {
    bytes: [u8; BYTES_ROOM],
    /// How many bytes it has; those after them are 0.
    len: usize,
}

/// Ten times a byte and what is carried to it: the lowest byte of the sum, and what is carried on.
fn times_ten(byte: u8, carry: u8) -> (u8, u8)
    ensures { result.0 + 256 * result.1 ≡ 10 * byte + carry }
{
    let sum = u32::from(byte) * 10 + u32::from(carry);
    ((sum % 256) as u8, (sum / 256) as u8)
}

/// The inverted bits of a byte and what is carried to them: the lowest byte of the sum, and what is carried on.
fn complement(byte: u8, carry: u8) -> (u8, u8)
    ensures { result.0 + 256 * result.1 ≡ 255 - byte + carry }
{
    let sum = u32::from(255 - byte) + u32::from(carry);
    ((sum % 256) as u8, (sum / 256) as u8)
}

impl Magnitude {
    /// Appends a decimal digit: the number becomes ten times itself and the digit. Bytes for which there is no room are lost.
    fn add_digit(&mut self, digit: u8) {
        let mut carry = digit;
        for index in 0..BYTES_ROOM {
            if index >= self.len {
                if carry == 0 {
                    return;
                }
                self.len = index + 1;
            }
            let (lowest, carried) = times_ten(self.bytes[index], carry);
            self.bytes[index] = lowest;
            carry = carried;
        }
    }

    /// The number that the digits of a text are, without a sign and a point.
    fn of(digits: &[u8]) -> Magnitude {
        let mut number = Magnitude {
            bytes: [0; BYTES_ROOM],
            len: 0,
        };
        for byte in digits {
            if byte.is_ascii_digit() {
                number.add_digit(*byte % 16);
            }
        }
        number
    }

    /// How many bytes have the number and its sign.
    fn room(&self) -> usize
        ensures low { 1 ≤ result }
        ensures high { result ≤ 128 }
    {
        self.len.saturating_add(1).min(BYTES_ROOM)
    }

    /// Makes the bytes those of the negative number.
    fn negate(&mut self) {
        let room = self.room();
        let mut carry = 1u8;
        for byte in &mut self.bytes[..room] {
            let (lowest, carried) = complement(*byte, carry);
            *byte = lowest;
            carry = carried;
        }
    }

    /// How few bytes have the number and its sign: those above them only repeat the sign.
    fn signed_len(&self) -> usize
        ensures low { 1 ≤ result }
        ensures high { result ≤ 128 }
    {
        let room = self.room();
        let sign = self.bytes[room - 1];
        for skipped in 1..room {
            let index = room - skipped;
            if self.bytes[index] != sign || self.bytes[index - 1] / 128 != sign / 128 {
                return index + 1;
            }
        }
        1
    }
}

/// Appends the unscaled number of a decimal.
///
/// - `Row`: the bytes pack no decimal.
/// - `Memory`: out of memory.
pub(crate) fn put_unscaled(
    precision: u8,
    scale: u8,
    bytes: &[u8],
    out: &mut TextBuffer<Global>,
) -> Result<(), NoStatement>
    ensures ok { OnOk result ((why : NoStatement) → PacksNoDecimal precision scale bytes.now why → ⊥) }
    ensures err { IfErr result (IsMemoryOr (PacksNoDecimal precision scale bytes.now)) }
{
    let mut digits = [0; DECIMAL_ROOM];
    let (precision, scale) = (usize::from(precision), usize::from(scale));
    let Some(end) = put_decimal_text(&mut digits, 0, precision, scale, bytes) else {
        return Err(NoStatement::Row);
    };
    let mut number = Magnitude::of(&digits[..end]);
    if digits[0] == b'-' {
        number.negate();
    }
    let len = number.signed_len();
    let mut signed = [0; BYTES_ROOM];
    for index in 0..len {
        signed[len - 1 - index] = number.bytes[index];
    }
    put_base64_string(&signed[..len], out)?;
    Ok(())
}
