//! Bytes in hexadecimal.

ghost use Rattle.std.specs.Prelude.{◌≡◌, ◌≤◌, ◌+◌, ◌*◌, ◌++◌, length, take};
ghost use Rattle.hex.specs.Hex.{encode_lower};

/// Writes the two lower case hexadecimal digits of each byte.
#[inline(always)]
pub fn put_hexadecimal(text: &mut [u8], at: usize, bytes: &[u8]) -> usize
    requires few { length bytes.now ≤ 8 }
    requires room { at + 2 * length bytes.now ≤ length text.old }
    ensures end { result ≡ at + 2 * length bytes.now }
    ensures text { take result text.new ≡ take at text.old ++ encode_lower bytes.now }
{
    let end = at + 2 * bytes.len();
    let Ok(()) = hex::encode_to_slice(bytes, &mut text[at..end]) else {
        unreachable!()
    };
    end
}
