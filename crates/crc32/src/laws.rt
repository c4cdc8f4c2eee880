//! Laws of the checksum, and worked values. Each is a function that does nothing, whose contract is the law.

ghost use Rattle.std.specs.Prelude.{◌≡◌, ◌<◌, ◌*◌, ◌^◌, ◌-◌, ◌↔◌, ◌∷◌, [], ℕ, List, codes, map, sum, slice_index};
ghost use Rattle.crc32.specs.Checksums.{initial_register, after_bytes, crc32_of};
ghost use Rattle.crc32.specs.Division.{IsRemainder, generator};

/// The register after the last byte is the remainder of the division, and no other number is.
pub fn registers_are_remainders()
    ensures { (bytes : List ℕ) (remainder : ℕ) → ((i : ℕ) → slice_index bytes i < 256) → IsRemainder bytes remainder ↔ (remainder ≡ after_bytes initial_register bytes) }
{}

/// The generator is the sum of the powers of x that the standard lists.
pub fn worked_generator()
    ensures { generator ≡ sum (map (λ power. 2 ^ (32 - power)) (32 ∷ 26 ∷ 23 ∷ 22 ∷ 16 ∷ 12 ∷ 11 ∷ 10 ∷ 8 ∷ 7 ∷ 5 ∷ 4 ∷ 2 ∷ 1 ∷ 0 ∷ [])) }
{}

/// The checksums of no bytes and of "123456789", the published check value.
pub fn worked_checksums()
    ensures nothing { crc32_of [] ≡ 0 }
    ensures digits { crc32_of (codes "123456789") ≡ 0xcbf4_3926 }
{}
