//! Writes digits at an offset of a buffer that has room for them. Each writer returns the offset of their
//! end.

ghost use Rattle.std.specs.Prelude.{◌≡◌, ◌≤◌, ◌<◌, ◌+◌, ◌-◌, ◌^◌, ◌++◌, ◌∷◌, [], length, take};
ghost use Rattle.rows_values.specs.PackedTexts.{digits_text};

/// The two digits of each number below 100.
pub static PAIRS: [u8; 200] =
    *b"00010203040506070809101112131415161718192021222324252627282930313233343536373839404142434445464748495051525354555657585960616263646566676869707172737475767778798081828384858687888990919293949596979899";

/// Writes a byte, and returns the offset after it.
#[inline(always)]
pub fn put_byte(text: &mut [u8], at: usize, byte: u8) -> usize
    requires { at < length text.old }
    ensures end { result ≡ at + 1 }
    ensures text { take result text.new ≡ take at text.old ++ byte ∷ [] }
{
    text[at] = byte;
    at + 1
}

/// Writes the two digits of a number below 100, and returns the offset after them.
#[inline(always)]
pub fn put_two(text: &mut [u8], at: usize, number: u32) -> usize
    requires small { number < 100 }
    requires room { at + 2 ≤ length text.old }
    ensures end { result ≡ at + 2 }
    ensures text { take result text.new ≡ take at text.old ++ digits_text 2 number }
{
    let from = number as usize * 2;
    let (tens, ones) = (PAIRS[from], PAIRS[from + 1]);
    let end = put_byte(text, at, tens);
    put_byte(text, end, ones)
}

/// Writes the four digits of a number below 10,000, and returns the offset after them.
#[inline(always)]
pub fn put_four(text: &mut [u8], at: usize, number: u32) -> usize
    requires small { number < 10000 }
    requires room { at + 4 ≤ length text.old }
    ensures end { result ≡ at + 4 }
    ensures text { take result text.new ≡ take at text.old ++ digits_text 4 number }
{
    let end = put_two(text, at, number / 100);
    put_two(text, end, number % 100)
}

/// Writes the digits of a number below 100,000,000.
#[inline(always)]
fn put_eight(text: &mut [u8], at: usize, number: u32) -> usize
    requires small { number < 100000000 }
    requires room { at + 8 ≤ length text.old }
    ensures end { result ≡ at + 8 }
    ensures text { take result text.new ≡ take at text.old ++ digits_text 8 number }
{
    let end = put_four(text, at, number / 10_000);
    put_four(text, end, number % 10_000)
}

/// Writes the last digit of a number, or none.
#[inline(always)]
fn put_one_at_most(text: &mut [u8], at: usize, count: usize, number: u32) -> usize
    requires few { count ≤ 1 }
    requires room { at + count ≤ length text.old }
    ensures end { result ≡ at + count }
    ensures text { take result text.new ≡ take at text.old ++ digits_text count number }
{
    if count == 0 {
        return at;
    }
    put_byte(text, at, b'0' + (number % 10) as u8)
}

/// Writes the last digits of a number, three at most.
#[inline(always)]
fn put_three_at_most(text: &mut [u8], at: usize, count: usize, number: u32) -> usize
    requires few { count ≤ 3 }
    requires room { at + count ≤ length text.old }
    ensures end { result ≡ at + count }
    ensures text { take result text.new ≡ take at text.old ++ digits_text count number }
{
    if count < 2 {
        return put_one_at_most(text, at, count, number);
    }
    let end = put_one_at_most(text, at, count - 2, number / 100);
    put_two(text, end, number % 100)
}

/// Writes the last digits of a number, nine at most.
#[inline(always)]
pub(crate) fn put_last_digits(text: &mut [u8], at: usize, count: usize, number: u32) -> usize
    requires few { count ≤ 9 }
    requires room { at + count ≤ length text.old }
    ensures end { result ≡ at + count }
    ensures text { take result text.new ≡ take at text.old ++ digits_text count number }
{
    if count < 4 {
        return put_three_at_most(text, at, count, number);
    }
    if count < 8 {
        let end = put_three_at_most(text, at, count - 4, number / 10_000);
        return put_four(text, end, number % 10_000);
    }
    let end = put_one_at_most(text, at, count - 8, number / 100_000_000);
    put_eight(text, end, number % 100_000_000)
}

/// Returns the number of digits of a number.
#[inline(always)]
pub(crate) fn digit_count(number: u32) -> usize
    requires some { 0 < number }
    requires small { number < 1000000000 }
    ensures some { 0 < result }
    ensures few { result ≤ 9 }
    ensures low { 10 ^ (result - 1) ≤ number }
    ensures high { number < 10 ^ result }
{
    if number < 10_000 {
        if number < 100 {
            if number < 10 { 1 } else { 2 }
        } else if number < 1_000 {
            3
        } else {
            4
        }
    } else if number < 1_000_000 {
        if number < 100_000 { 5 } else { 6 }
    } else if number < 10_000_000 {
        7
    } else if number < 100_000_000 {
        8
    } else {
        9
    }
}
