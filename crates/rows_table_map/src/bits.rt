//! Bits of bytes, in either order.

ghost use Rattle.std.specs.Prelude.{◌≤◌, ◌*◌, length};

/// Bits of bytes in sequence: from the lowest bit of each byte to its highest, or from the highest to the
/// lowest.
#[derive(Clone, Copy)]
pub struct Bits<'a> {
    bytes: &'a [u8],
    len: usize,
    from_highest: bool,
    ghost fits: { len ≤ 8 * length bytes.now },
}

impl<'a> Bits<'a> {
    ghost use Rattle.std.specs.Prelude.{◌≡◌, ◌≤◌, ◌<◌, ◌*◌, ◌==◌, ℕ, length};
    ghost use Rattle.rows_table_map.specs.BitCounts.{first_ones as first_ones_of};
    ghost use Rattle.rows_table_map.specs.BitLists.{lowest_bit, highest_bit, bit_of, len_of, bit_at, count_below, all_bits};

    /// Returns the first `len` bits of these bytes, each byte from its lowest bit on, as in a null bitmap.
    pub fn lowest(bytes: &'a [u8], len: usize) -> Bits<'a>
        requires { len ≤ 8 * length bytes.now }
        ensures len { len_of result ≡ len }
        ensures bits { (i : ℕ) → bit_of result i ≡ lowest_bit bytes.entry.now i }
    {
        Bits {
            bytes,
            len,
            from_highest: false,
        }
    }

    /// Returns the first `len` bits of these bytes, each byte from its highest bit on, as in the signedness
    /// of columns.
    pub fn highest(bytes: &'a [u8], len: usize) -> Bits<'a>
        requires { len ≤ 8 * length bytes.now }
        ensures len { len_of result ≡ len }
        ensures bits { (i : ℕ) → bit_of result i ≡ highest_bit bytes.entry.now i }
    {
        Bits {
            bytes,
            len,
            from_highest: true,
        }
    }

    /// Returns the number of bits.
    pub fn len(&self) -> usize
        ensures { result ≡ len_of self.now }
    {
        self.len
    }

    /// Returns whether there are no bits.
    pub fn is_empty(&self) -> bool
        ensures { result ≡ (len_of self.now == 0) }
    {
        self.len == 0
    }

    /// Returns the bit at this index, or None if the index is out of range.
    pub fn get(&self, index: usize) -> Option<bool>
        ensures { result ≡ bit_at self.now index }
    {
        if index >= self.len {
            return None;
        }
        let byte = self.bytes[index / 8];
        let position = (index % 8) as u32;
        let shift = if self.from_highest {
            7 - position
        } else {
            position
        };
        Some((byte >> shift) % 2 == 1)
    }

    /// Returns the number of bits that are set.
    pub fn count_ones(&self) -> usize
        ensures { result ≡ count_below (bit_of self.now) (len_of self.now) }
    {
        let whole = self.len / 8;
        let mut count = 0;
        for byte in &self.bytes[..whole] {
            count += byte.count_ones() as usize;
        }
        let left = self.len % 8;
        if left > 0 {
            count += Bits::first_ones(self.bytes[whole], left as u32, self.from_highest);
        }
        count
    }

    /// Returns how many of the first `count` bits of a byte are set, from its lowest or from its highest bit
    /// on.
    fn first_ones(byte: u8, count: u32, from_highest: bool) -> usize
        requires some { 0 < count }
        requires few { count < 8 }
        ensures value { result ≡ first_ones_of from_highest byte count }
        ensures bound { result ≤ count }
    {
        let others = 8 - count;
        let first = if from_highest {
            byte >> others
        } else {
            byte << others
        };
        first.count_ones() as usize
    }

    /// Returns an iterator over the bits in order.
    pub fn iter(&self) -> BitsIter<'a>
        ensures { result ≡ all_bits self.now }
    {
        BitsIter {
            bits: *self,
            next: 0,
        }
    }
}

impl<'a> IntoIterator for Bits<'a> {
    ghost use Rattle.std.specs.Prelude.{◌≡◌};
    ghost use Rattle.rows_table_map.specs.BitLists.{all_bits};

    type Item = bool;

    type IntoIter = BitsIter<'a>;

    ghost into_iter_gives = { λ bits it. it ≡ all_bits bits };

    /// Returns an iterator over the bits in order.
    fn into_iter(self) -> BitsIter<'a> {
        self.iter()
    }
}

/// Two are equal if they have the same bits in the same order, however the bytes store them.
impl PartialEq for Bits<'_> {
    ghost use Rattle.std.specs.Bool.{beq};
    ghost use Rattle.std.specs.Cmp.{bool_eq_equiv, on_per, partial_equiv_from_equiv};
    ghost use Rattle.std.specs.Cmp.Lexicographic.{lists_equiv, pointwise};
    ghost use Rattle.rows_table_map.specs.BitLists.{bit_list};

    ghost eq = { λ a b. pointwise beq (bit_list a) (bit_list b) };

    ghost laws = { on_per bit_list (partial_equiv_from_equiv (lists_equiv bool_eq_equiv)) };

    fn eq(&self, other: &Bits<'_>) -> bool {
        if self.len != other.len {
            return false;
        }
        for index in 0..self.len {
            if self.get(index) != other.get(index) {
                return false;
            }
        }
        true
    }
}

impl Eq for Bits<'_> {
    ghost use Rattle.std.specs.Cmp.{bool_eq_equiv, on_equiv};
    ghost use Rattle.std.specs.Cmp.Lexicographic.{lists_equiv};
    ghost use Rattle.rows_table_map.specs.BitLists.{bit_list};

    ghost laws = { on_equiv bit_list (lists_equiv bool_eq_equiv) };
}

/// The bits of [`Bits`] in order.
#[derive(Clone, Copy)]
pub struct BitsIter<'a> {
    bits: Bits<'a>,
    next: usize,
}

impl<'a> Iterator for BitsIter<'a> {
    ghost use Rattle.std.specs.Iterator.{at_most};
    ghost use Rattle.rows_table_map.specs.BitLists.{TakesBit, remaining_bits};

    type Item = bool;

    ghost next_gives = { TakesBit };

    ghost remaining = { λ it. at_most (remaining_bits it) };

    fn next(&mut self) -> Option<bool> {
        if self.next >= self.bits.len {
            return None;
        }
        let bit = self.bits.get(self.next);
        self.next += 1;
        bit
    }
}
