//! Parses a text as a decimal.

ghost use Rattle.std.specs.Prelude.{◌≡◌, ◌<◌, ◌+◌, ◌==◌, IfOk, IfErr, Some, Err, true, false};
ghost use Rattle.std.specs.Str.{trim, IsUtf8};
ghost use Rattle.std.specs.List.{before_first, after_first, list_all};
ghost use Rattle.std.specs.Char.{is_ascii_digit};
ghost use Rattle.rows_values.specs.Decimals.{decimal_parts};
ghost use Rattle.rows_values.specs.declared.parse.ParseDecimalError.TheVariants.{Memory, Text};
ghost use Rattle.rows_values.specs.PrintedDecimals.{text_value, from_digit_texts as sequence_as, has_only_digits as is_sequence_as, one_zero as one_zero_of, has_minus, after_sign, digits_of as digits_in, are_zeros as are_zeros_in, are_allowed as are_allowed_in, IsTextFault, decimal_error};

use crate::digits::leading;
use crate::fields::Decimal;
use rows_errors::RowsError;
use std::alloc::{AllocError, AllocFailed, Global};
use std::str;
use thiserror::Error;

/// Why a text can't be parsed as a decimal.
#[derive(Clone, Copy, Debug, PartialEq, Eq, Error)]
pub enum ParseDecimalError {
    /// The text isn't a sign, digits, and a point and digits, with at least one digit.
    #[error("the text is no decimal")]
    Text,
    /// Out of memory.
    #[error("out of memory")]
    Memory,
}

impl From<AllocError> for ParseDecimalError {
    ghost from_gives = { λ e f. f ≡ Memory };

    fn from(_error: AllocError) -> ParseDecimalError {
        ParseDecimalError::Memory
    }
}

impl<T: Drop> From<AllocFailed<T>> for ParseDecimalError {
    ghost from_gives = { λ e f. f ≡ Memory };

    fn from(_error: AllocFailed<T>) -> ParseDecimalError {
        ParseDecimalError::Memory
    }
}

impl From<ParseDecimalError> for RowsError {
    ghost from_gives = { λ e f. f ≡ decimal_error e };

    /// A text that is no decimal is `Decimal`.
    fn from(error: ParseDecimalError) -> RowsError {
        match error {
            ParseDecimalError::Text => RowsError::Decimal,
            ParseDecimalError::Memory => RowsError::Memory,
        }
    }
}

impl Decimal {
    /// Parses a text, ignoring the white space around it. While it begins with `00`, its first character is
    /// dropped. Then come an optional sign, digits, and optionally a point and digits, with at least one
    /// digit. Other leading zeros are kept as digits. If all digits are zeros, there is no sign.
    ///
    /// - `Text`: the text is anything else, such as a number with an exponent.
    /// - `Memory`: out of memory.
    pub fn from_str(alloc: Global, text: &str) -> Result<Decimal, ParseDecimalError>
        ensures ok { IfOk result (λ d. text_value (trim text.now) ≡ Some (decimal_parts d)) }
        ensures err { IfErr result (λ e. IsTextFault e (text_value (trim text.now))) }
    {
        parse_trimmed(alloc, text.trim().as_bytes())
    }

    /// Parses bytes as `from_str` parses a text. Returns `Text` for any byte that isn't a digit, a sign or a
    /// point, even white space.
    pub fn parse_str_bytes(alloc: Global, bytes: &[u8]) -> Result<Decimal, ParseDecimalError>
        ensures ok { IfOk result (λ d. (are_allowed_in bytes.now ≡ true)
            × (text_value bytes.now ≡ Some (decimal_parts d))) }
        ensures err { IfErr result (λ e. are_allowed_in bytes.now ≡ true → IsTextFault e (text_value bytes.now)) }
        ensures other_bytes { are_allowed_in bytes.now ≡ false → result ≡ Err Text }
    {
        if !are_allowed(bytes) {
            return Err(ParseDecimalError::Text);
        }
        parse_trimmed(alloc, bytes)
    }

    /// Parses UTF-8 bytes as `from_str` parses their text. Returns `Text` if they aren't UTF-8.
    pub fn parse_bytes(alloc: Global, bytes: &[u8]) -> Result<Decimal, ParseDecimalError>
        ensures ok { IfOk result (λ d. IsUtf8 bytes.now
            × (text_value (trim bytes.now) ≡ Some (decimal_parts d))) }
        ensures err { IfErr result (λ e. IsUtf8 bytes.now → IsTextFault e (text_value (trim bytes.now))) }
        ensures not_utf8 { (IsUtf8 bytes.now → ⊥) → result ≡ Err Text }
    {
        match str::from_utf8(bytes) {
            Ok(text) => Decimal::from_str(alloc, text),
            Err(_) => Err(ParseDecimalError::Text),
        }
    }
}

/// Returns the decimal of a text without white space around it.
#[tactic(auto, unfolding(crate::specs::PrintedDecimals::text_value))]
fn parse_trimmed(alloc: Global, text: &[u8]) -> Result<Decimal, ParseDecimalError>
    ensures ok { IfOk result (λ d. text_value text.now ≡ Some (decimal_parts d)) }
    ensures err { IfErr result (λ e. IsTextFault e (text_value text.now)) }
{
    let text = one_zero(text);
    let (minus, body) = split_sign(text);
    let (before, after) = split_point(body);
    from_digit_texts(alloc, minus, before, after)
}

/// Returns the decimal of the characters before and after the point.
#[tactic(auto, unfolding(crate::specs::PrintedDecimals::from_digit_texts))]
fn from_digit_texts(
    alloc: Global,
    minus: bool,
    before: &[u8],
    after: &[u8],
) -> Result<Decimal, ParseDecimalError>
    ensures ok { IfOk result (λ d. sequence_as minus before.now after.now ≡ Some (decimal_parts d)) }
    ensures err { IfErr result (λ e. IsTextFault e (sequence_as minus before.now after.now)) }
{
    if !has_only_digits(before, after) {
        return Err(ParseDecimalError::Text);
    }
    let negative = minus && !(are_zeros(before) && are_zeros(after));
    let before = digits_of(alloc, before)?;
    let after = digits_of(alloc, after)?;
    Ok(Decimal {
        negative,
        before,
        after,
    })
}

/// Returns the text without all but one of its leading zeros.
fn one_zero(text: &[u8]) -> &[u8]
    ensures { result.now ≡ one_zero_of text.now }
{
    let zeros = leading(text, b'0');
    &text[zeros.saturating_sub(1)..]
}

/// Returns whether the text begins with a minus, and the text after a sign.
fn split_sign(text: &[u8]) -> (bool, &[u8])
    ensures minus { result.0 ≡ has_minus text.now }
    ensures body { result.1.now ≡ after_sign text.now }
{
    match text.split_first() {
        Some((b'-', body)) => (true, body),
        Some((b'+', body)) => (false, body),
        _ => (false, text),
    }
}

/// Returns the text before the first point, and the text after it.
fn split_point(body: &[u8]) -> (&[u8], &[u8])
    ensures before { result.0.now ≡ before_first (λ c. c == 46) body.now }
    ensures after { result.1.now ≡ after_first (λ c. c == 46) body.now }
{
    for (i, byte) in body.iter().enumerate() {
        if *byte == b'.' {
            return (&body[..i], &body[i + 1..]);
        }
    }
    (body, &body[body.len()..])
}

/// Returns whether there is a digit, and nothing but digits.
#[tactic(auto, unfolding(crate::specs::PrintedDecimals::has_only_digits))]
fn has_only_digits(before: &[u8], after: &[u8]) -> bool
    ensures { result ≡ is_sequence_as before.now after.now }
{
    let none = before.is_empty() && after.is_empty();
    !none && are_digits(before) && are_digits(after)
}

/// Returns the values of digit characters.
fn digits_of(alloc: Global, text: &[u8]) -> Result<Vec<u8>, AllocError>
    ensures { IfOk result (λ ds. ds.items ≡ digits_in text.now) }
{
    text.iter().map(|c| c.saturating_sub(b'0')).collect(alloc)
}

/// Returns whether all characters are digits.
fn are_digits(text: &[u8]) -> bool
    ensures { result ≡ list_all is_ascii_digit text.now }
{
    text.iter().all(|c| c.is_ascii_digit())
}

/// Returns whether all characters are zeros.
fn are_zeros(text: &[u8]) -> bool
    ensures { result ≡ are_zeros_in text.now }
{
    text.iter().all(|c| *c == b'0')
}

/// Returns whether all characters are digits, signs or points.
fn are_allowed(text: &[u8]) -> bool
    ensures { result ≡ are_allowed_in text.now }
{
    text.iter().all(|c| c.is_ascii_digit() || *c == b'+' || *c == b'-' || *c == b'.')
}
