//! Server versions such as `8.0.32-log`.

ghost use Rattle.std.specs.Prelude.{◌≡◌, option_map, option_copied, min};
ghost use Rattle.wire_fields.specs.Version.{version_of, numbers_at, number_at, after_point as after_point_of, leading_digits as leading_digits_of, version_digits_number};

/// Returns the three numbers of a server version. Each number has at least one digit and is below 256, the
/// first two are followed by a point, and the text after the third is ignored. Returns (0, 0, 0) for any
/// other text.
pub fn split_version(version: &[u8]) -> (u8, u8, u8)
    ensures { result ≡ version_of version.now }
{
    three_numbers(version).unwrap_or((0, 0, 0))
}

/// Returns the three numbers, if the text begins with them.
#[tactic(auto, unfolding(crate::specs::Version::numbers_at))]
fn three_numbers(version: &[u8]) -> Option<(u8, u8, u8)>
    ensures { result ≡ numbers_at version.now }
{
    let (major, rest) = number(version)?;
    let rest = after_point(rest)?;
    let (minor, rest) = number(rest)?;
    let rest = after_point(rest)?;
    let (patch, _) = number(rest)?;
    Some((major, minor, patch))
}

/// Returns the number at the start, and the text after its last digit.
#[tactic(auto, unfolding(crate::specs::Version::number_at))]
fn number(text: &[u8]) -> Option<(u8, &[u8])>
    ensures { option_map (λ p. (p.0, p.1.now)) result ≡ number_at text.now }
{
    let digits = leading_digits(text);
    if digits.is_empty() {
        return None;
    }
    let value = capped_value(digits);
    if value > 255 {
        return None;
    }
    Some((value as u8, &text[digits.len()..]))
}

/// Returns the text after a point, if it begins with one.
#[tactic(auto, unfolding(crate::specs::Version::after_point))]
fn after_point(text: &[u8]) -> Option<&[u8]>
    ensures { option_map (λ r. r.now) result ≡ after_point_of text.now }
{
    let (first, rest) = text.split_first()?;
    if *first == b'.' { Some(rest) } else { None }
}

/// Returns the digits at the start.
fn leading_digits(text: &[u8]) -> &[u8]
    ensures { result.now ≡ leading_digits_of text.now }
{
    for (i, byte) in text.iter().enumerate() {
        if !byte.is_ascii_digit() {
            return &text[..i];
        }
    }
    text
}

/// Returns the number that the digits make up, or 256 if it is more.
fn capped_value(digits: &[u8]) -> u32
    ensures { result ≡ min (version_digits_number digits.now) 256 }
{
    let mut value = 0;
    for digit in digits {
        value = (10 * value + u32::from(digit.saturating_sub(b'0'))).min(256);
    }
    value
}
