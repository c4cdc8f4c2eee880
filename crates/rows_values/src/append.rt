//! Appends a decimal's text to a buffer.

ghost use Rattle.std.specs.Prelude.{◌≡◌, ◌++◌, OnOk, OnErr, length, take};
ghost use Rattle.rows_values.specs.Digits.{AreDigits};
ghost use Rattle.rows_values.specs.Decimals.{decimal_parts};
ghost use Rattle.rows_values.specs.PrintedDecimals.{decimal_text, sign_text, glyphs, whole_text, fraction_text};

use crate::display::significant;
use crate::fields::Decimal;
use std::alloc::{AllocError, Allocator};

impl Decimal {
    /// Appends the text that `Display` writes. The error is out of memory; nothing is then appended.
    pub fn append_text<A: Allocator>(&self, out: &mut Vec<u8, A>) -> Result<(), AllocError>
        ensures ok { OnOk result (out.new.items ≡ out.old.items ++ decimal_text (decimal_parts self.now)) }
        ensures err { OnErr result (out.new.items ≡ out.old.items) }
    {
        let start = out.len();
        let Ok(()) = self.append_parts(out) else {
            out.truncate(start);
            return Err(AllocError);
        };
        Ok(())
    }

    /// Appends the text, or a part of it if out of memory.
    fn append_parts<A: Allocator>(&self, out: &mut Vec<u8, A>) -> Result<(), AllocError>
        ensures ok { OnOk result (out.new.items ≡ out.old.items ++ decimal_text (decimal_parts self.now)) }
        ensures kept { take (length out.old.items) out.new.items ≡ out.old.items }
    {
        append_sign(self.negative, out)?;
        append_whole(&self.before, out)?;
        append_fraction(&self.after, out)
    }
}

/// Appends a minus if `negative`.
fn append_sign<A: Allocator>(negative: bool, out: &mut Vec<u8, A>) -> Result<(), AllocError>
    ensures ok { OnOk result (out.new.items ≡ out.old.items ++ sign_text negative) }
    ensures err { OnErr result (out.new.items ≡ out.old.items) }
{
    if negative {
        out.push(b'-')?;
    }
    Ok(())
}

/// Appends the digits before the point without leading zeros, or a zero; a part of this if out of memory.
fn append_whole<A: Allocator>(digits: &[u8], out: &mut Vec<u8, A>) -> Result<(), AllocError>
    requires { AreDigits digits.now }
    ensures ok { OnOk result (out.new.items ≡ out.old.items ++ whole_text digits.now) }
    ensures kept { take (length out.old.items) out.new.items ≡ out.old.items }
{
    let shown = significant(digits);
    if shown.is_empty() {
        out.push(b'0')?;
        return Ok(());
    }
    append_glyphs(shown, out)
}

/// Appends a point and the digits, if there are any; a part of this if out of memory.
fn append_fraction<A: Allocator>(digits: &[u8], out: &mut Vec<u8, A>) -> Result<(), AllocError>
    requires { AreDigits digits.now }
    ensures ok { OnOk result (out.new.items ≡ out.old.items ++ fraction_text digits.now) }
    ensures kept { take (length out.old.items) out.new.items ≡ out.old.items }
{
    if digits.is_empty() {
        return Ok(());
    }
    out.push(b'.')?;
    append_glyphs(digits, out)
}

/// Appends digits as characters; only the first of them if out of memory.
fn append_glyphs<A: Allocator>(digits: &[u8], out: &mut Vec<u8, A>) -> Result<(), AllocError>
    requires { AreDigits digits.now }
    ensures ok { OnOk result (out.new.items ≡ out.old.items ++ glyphs digits.now) }
    ensures kept { take (length out.old.items) out.new.items ≡ out.old.items }
{
    for digit in digits {
        out.push(b'0' + *digit)?;
    }
    Ok(())
}
