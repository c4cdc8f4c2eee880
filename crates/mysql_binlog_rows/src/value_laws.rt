//! Laws of times, values and decimals, and worked ones. Each is a function that does nothing, whose contract is the law.

ghost use Rattle.std.specs.Prelude.{◌≡◌, ◌↔◌, ◌∷◌, [], pos, neg_ℤ, true, false, map, ◌≤◌, ◌<◌, ◌-◌, ◌*◌, ◌^◌, ◌⊎◌, ◌-ℤ◌, ◌+ℤ◌, ◌*ℤ◌, ℕ, List, drop, Some, None, codes, ◌+◌, length, Bool};
ghost use Rattle.rows_table_map.specs.BitLists.{lowest_bit, highest_bit, bit_list};
ghost use Rattle.rows_values.specs.Values.{SameValue, span_value, date_value};
ghost use Rattle.rows_values.specs.Columns.{parts_of};
ghost use Rattle.rows_values.specs.RowValues.{values_of, columns_of, SameCell};
ghost use Rattle.std.specs.List.{AllZip, range_with_len};
ghost use Rattle.rows_table_map.specs.contracts.bits.BitsPartialEq.TheImpl.{ghosts as bits_equality};
ghost use Rattle.rows_values.specs.contracts.rows.value.ValuePartialEq.TheImpl.{ghosts as value_equality};
ghost use Rattle.rows_values.specs.contracts.rows.column.ColumnPartialEq.TheImpl.{ghosts as column_equality};
ghost use Rattle.rows_values.specs.contracts.rows.row.RowPartialEq.TheImpl.{ghosts as row_equality};
ghost use Rattle.rows_values.specs.contracts.times.mysql_time.MysqlTimePartialEq.TheImpl.{ghosts as time_equality};
ghost use Rattle.rows_values.specs.declared.rows.value.Value.TheVariants.{Date, Time};
ghost use Rattle.byteorder.specs.Endian.{big_number};
ghost use Rattle.wire_buf.specs.Encoding.{AreBytes};
ghost use Rattle.rows_packed_times.specs.PackedTimes.{packed_time, fraction_len, time2, datetime2};
ghost use Rattle.rows_values.specs.TimeFields.{span_fields, date_fields};
ghost use Rattle.rows_values.specs.TimeBits.{span_number, span_time, date_number, date_time};
ghost use Rattle.rows_values.specs.TimeTexts.{time_text};
ghost use Rattle.std.specs.Ordering.{nat_cmp};
ghost use Rattle.std.specs.Cmp.Lexicographic.{slice_cmp};
ghost use Rattle.rows_values.specs.Digits.{AreDigits, group_size};
ghost use Rattle.rows_values.specs.Decimals.{DecimalParts, packed_encoding, packed_size, normalized, digits_number, number_cmp, IsPacked, NonePacked, Unpacks, without_zero_groups, DropsZeroGroups};
ghost use Rattle.rows_values.specs.Unpacked.{unpacked, normalized_of, packed_text};
ghost use Rattle.rows_values.specs.PrintedDecimals.{text_value, decimal_text, shown_value};

use rows_table_map::Bits;
use rows_values::{
    Column, DIG_BASE, DIG_PER_DEC, DIG_TO_BYTES, MysqlTime, MysqlTimestampType, POWERS_10, Row,
    Value,
};

/// Values are equal by `==` exactly if they are the same.
pub fn equal_values_are_the_same()
    ensures { (a b : Value) → (value_equality.eq a b ≡ true) ↔ SameValue a b }
{}

/// Columns are equal by `==` exactly if all their parts are, and times if all their fields are.
pub fn equal_columns_and_times_are_the_same()
    ensures columns { (a b : Column) → (column_equality.eq a b ≡ true) ↔ (parts_of a ≡ parts_of b) }
    ensures times { (a b : MysqlTime) → (time_equality.eq a b ≡ true) ↔ (a ≡ b) }
{}

/// Bits are equal by `==` exactly if the same bits are in the same order.
pub fn equal_bits_are_the_same()
    ensures { (a b : Bits) → (bits_equality.eq a b ≡ true) ↔ (bit_list a ≡ bit_list b) }
{}

/// Rows are equal by `==` exactly if their values are the same, one by one, and their columns have the same
/// parts.
pub fn equal_rows_are_the_same()
    ensures { (a b : Row) → (row_equality.eq a b ≡ true)
        ↔ (AllZip SameCell (values_of a) (values_of b) × (map parts_of (columns_of a) ≡ map parts_of (columns_of b))) }
{}

/// The `TIME2` cell `7f ff fe f6` with two fractional digits, which packs -16877216, and the `DATETIME2` cell
/// `99 83 b0 90 f9` without fractional digits.
pub fn worked_time_values()
    ensures span { span_value (neg_ℤ (pos 16877216)) ≡ Time true 0 0 0 1 100000 }
    ensures date { date_value (datetime2 (fraction_len 0) (153 ∷ 131 ∷ 176 ∷ 144 ∷ 249 ∷ [])) ≡ Date 2009 9 24 9 3 57 0 }
{}

/// The same three bits in a byte: from the lowest on in `05`, from the highest on in `a0`.
pub fn worked_bits()
    ensures lowest { map (lowest_bit (5 ∷ [])) (0 ∷ 1 ∷ 2 ∷ []) ≡ true ∷ false ∷ true ∷ [] }
    ensures highest { map (highest_bit (160 ∷ [])) (0 ∷ 1 ∷ 2 ∷ []) ≡ true ∷ false ∷ true ∷ [] }
{}

/// A `TIME2` by cases, as MySQL reads it. The whole part is the number of the first three bytes less 2^23;
/// the fraction is the number of the n bytes after them, in units of 100^(3 - n) microseconds. From zero on,
/// and without a fraction, the packed time is made of both. Below zero with a fraction, it is made of the
/// whole part plus one and the fraction less 256^n.
pub fn times_by_cases()
    ensures from_zero { (n : ℕ) (bytes : List ℕ) → n ≤ 3 → AreBytes bytes → (2 ^ 23 ≤ big_number 3 bytes) ⊎ (big_number n (drop 3 bytes) ≡ 0)
        → time2 n bytes ≡ packed_time (pos (big_number 3 bytes) -ℤ pos (2 ^ 23)) (pos (big_number n (drop 3 bytes) * 100 ^ (3 - n))) }
    ensures below_zero { (n : ℕ) (bytes : List ℕ) → n ≤ 3 → AreBytes bytes → big_number 3 bytes < 2 ^ 23 → 0 < big_number n (drop 3 bytes)
        → time2 n bytes ≡ packed_time ((pos (big_number 3 bytes) -ℤ pos (2 ^ 23)) +ℤ pos 1) ((pos (big_number n (drop 3 bytes)) -ℤ pos (256 ^ n)) *ℤ pos (100 ^ (3 - n))) }
{}

/// A packed time of given fields has these fields, and so does a packed date.
pub fn packed_fields_are_read_back()
    ensures span { (hour minute second micros : ℕ) → hour < 1024 → minute < 64 → second < 64 → micros < 2 ^ 24
        → span_fields (pos (span_number hour minute second micros)) ≡ span_time false hour minute second micros }
    ensures span_below_zero { (hour minute second micros : ℕ) → 0 < span_number hour minute second micros → hour < 1024 → minute < 64 → second < 64 → micros < 2 ^ 24
        → span_fields (neg_ℤ (pos (span_number hour minute second micros))) ≡ span_time true hour minute second micros }
    ensures date { (kind : MysqlTimestampType) (year month day hour minute second micros : ℕ) → month < 13 → day < 32 → hour < 32 → minute < 64 → second < 64 → micros < 2 ^ 24
        → date_fields kind (pos (date_number year month day hour minute second micros)) ≡ date_time kind year month day hour minute second micros }
{}

/// The `TIME2` cell `7f ff fe f6` with two fractional digits: 1.1 seconds before zero.
pub fn worked_time()
    ensures packed { time2 (fraction_len 2) (127 ∷ 255 ∷ 254 ∷ 246 ∷ []) ≡ neg_ℤ (pos 16877216) }
    ensures text_of_six_digits { time_text (Some 6) (span_fields (neg_ℤ (pos 16877216))) ≡ codes "-00:00:01.100000" }
    ensures text { time_text None (span_fields (neg_ℤ (pos 16877216))) ≡ codes "-00:00:01" }
{}

/// Packed bytes with the same numbers of digits before and after the point are ordered as their numbers. A
/// negative zero is just below zero.
pub fn numbers_in_order()
    ensures { (before after : ℕ) (v w : DecimalParts) (a b : List ℕ) → 0 < before + after → IsPacked before after v a → IsPacked before after w b
        → slice_cmp nat_cmp a b ≡ number_cmp v.negative (digits_number v) w.negative (digits_number w) }
{}

/// Bytes are the packed format of at most one value, for given numbers of digits before and after the point;
/// and they unpack to at most one decimal, even without any digits.
pub fn packed_bytes_are_uniquely_read()
    ensures value { (before after : ℕ) (v w : DecimalParts) (bytes : List ℕ) → 0 < before + after → IsPacked before after v bytes → IsPacked before after w bytes → v ≡ w }
    ensures made { (keep : Bool) (before after : ℕ) (d e : DecimalParts) (bytes : List ℕ) → Unpacks keep before after d bytes → Unpacks keep before after e bytes → d ≡ e }
{}

/// The value that is computed from bytes is the one whose packed format they are. Without any digits a value
/// may have either sign; it unpacks to zero all the same.
pub fn packed_bytes_are_unpacked()
    ensures sound { (precision scale : ℕ) (v : DecimalParts) (bytes : List ℕ) → AreBytes bytes → unpacked precision scale bytes ≡ Some v
        → (scale ≤ precision) × IsPacked (precision - scale) scale v bytes }
    ensures complete { (precision scale : ℕ) (v : DecimalParts) (bytes : List ℕ) → 0 < precision → scale ≤ precision → IsPacked (precision - scale) scale v bytes
        → unpacked precision scale bytes ≡ Some v }
    ensures kept_sound { (keep : Bool) (precision scale : ℕ) (d : DecimalParts) (bytes : List ℕ) → AreBytes bytes → normalized_of keep (unpacked precision scale bytes) ≡ Some d
        → (scale ≤ precision) × Unpacks keep (precision - scale) scale d bytes }
    ensures kept_complete { (keep : Bool) (precision scale : ℕ) (d : DecimalParts) (bytes : List ℕ) → scale ≤ precision → Unpacks keep (precision - scale) scale d bytes
        → normalized_of keep (unpacked precision scale bytes) ≡ Some d }
{}

/// Worked unpackings: 1234567890.1234 and its negative, their texts, negative zeros and their texts; and
/// bytes that pack no decimal, because a group is too large, bytes are too few or too many, or the scale
/// exceeds the precision.
pub fn worked_unpacking()
    ensures positive { unpacked 14 4 (129 ∷ 13 ∷ 251 ∷ 56 ∷ 210 ∷ 4 ∷ 210 ∷ [])
        ≡ Some (record { negative = false; before = 1 ∷ 2 ∷ 3 ∷ 4 ∷ 5 ∷ 6 ∷ 7 ∷ 8 ∷ 9 ∷ 0 ∷ []; after = 1 ∷ 2 ∷ 3 ∷ 4 ∷ [] }) }
    ensures negative { unpacked 14 4 (126 ∷ 242 ∷ 4 ∷ 199 ∷ 45 ∷ 251 ∷ 45 ∷ [])
        ≡ Some (record { negative = true; before = 1 ∷ 2 ∷ 3 ∷ 4 ∷ 5 ∷ 6 ∷ 7 ∷ 8 ∷ 9 ∷ 0 ∷ []; after = 1 ∷ 2 ∷ 3 ∷ 4 ∷ [] }) }
    ensures positive_text { packed_text 14 4 (129 ∷ 13 ∷ 251 ∷ 56 ∷ 210 ∷ 4 ∷ 210 ∷ []) ≡ Some (codes "1234567890.1234") }
    ensures negative_text { packed_text 14 4 (126 ∷ 242 ∷ 4 ∷ 199 ∷ 45 ∷ 251 ∷ 45 ∷ []) ≡ Some (codes "-1234567890.1234") }
    ensures half_text { packed_text 3 2 (128 ∷ 50 ∷ []) ≡ Some (codes "0.50") }
    ensures negative_zero_text { packed_text 4 2 (127 ∷ 255 ∷ []) ≡ Some (codes "-0.00") }
    ensures whole_zero_text { packed_text 5 0 (127 ∷ 255 ∷ 255 ∷ []) ≡ Some (codes "0") }
    ensures no_digits_text { packed_text 0 0 [] ≡ Some (codes "0") }
    ensures hundred_failed { unpacked 2 0 (228 ∷ []) ≡ None }
    ensures short_failed { unpacked 4 0 (128 ∷ []) ≡ None }
    ensures long_failed { unpacked 2 0 (128 ∷ 0 ∷ []) ≡ None }
    ensures scale_failed { unpacked 2 3 (128 ∷ 0 ∷ []) ≡ None }
{}

/// Only leading zeros are dropped, up to the first group that isn't zero.
pub fn only_zero_groups_are_dropped()
    ensures { (ds : List ℕ) → DropsZeroGroups ds (without_zero_groups ds) }
{}

/// The packed format of digits has the size that `packed_size` gives, and unpacks to these digits. So what
/// `write_bin` writes is read back, if the precision is kept.
pub fn packed_bytes_are_read_back()
    ensures size { (v : DecimalParts) → length (packed_encoding v) ≡ packed_size (length v.before) (length v.after) }
    ensures unpacked { (v : DecimalParts) → AreDigits v.before → AreDigits v.after → 0 < length v.before + length v.after
        → unpacked (length v.before + length v.after) (length v.after) (packed_encoding v) ≡ Some v }
    ensures kept { (v : DecimalParts) → 0 < length v.before + length v.after → normalized true v ≡ v }
{}

/// The powers of ten, and the values of the other named numbers of groups.
pub fn named_numbers()
    ensures powers { POWERS_10 ≡ map (λ k. pos (10 ^ k)) (range_with_len 0 10) }
    ensures group { DIG_PER_DEC ≡ 9 }
    ensures base { DIG_BASE ≡ 10 ^ DIG_PER_DEC }
    ensures sizes { DIG_TO_BYTES ≡ map group_size (range_with_len 0 10) }
{}

/// The text of a value is parsed back to the value, without leading zeros, and without a sign if it is zero.
pub fn texts_are_parsed_back()
    ensures { (v : DecimalParts) → AreDigits v.before → AreDigits v.after → text_value (decimal_text v) ≡ Some (shown_value v) }
{}

/// Worked decimals: the packed bytes of 1234567890.1234, of its negative and of 0.50, and their texts, a text
/// and its value, negative zeros without and with digits after the point, the byte e4, which packs no two
/// digits, and texts that are no decimal.
pub fn worked_decimals()
    ensures positive { packed_encoding (record { negative = false; before = 1 ∷ 2 ∷ 3 ∷ 4 ∷ 5 ∷ 6 ∷ 7 ∷ 8 ∷ 9 ∷ 0 ∷ []; after = 1 ∷ 2 ∷ 3 ∷ 4 ∷ [] })
        ≡ 129 ∷ 13 ∷ 251 ∷ 56 ∷ 210 ∷ 4 ∷ 210 ∷ [] }
    ensures negative { packed_encoding (record { negative = true; before = 1 ∷ 2 ∷ 3 ∷ 4 ∷ 5 ∷ 6 ∷ 7 ∷ 8 ∷ 9 ∷ 0 ∷ []; after = 1 ∷ 2 ∷ 3 ∷ 4 ∷ [] })
        ≡ 126 ∷ 242 ∷ 4 ∷ 199 ∷ 45 ∷ 251 ∷ 45 ∷ [] }
    ensures half { packed_encoding (record { negative = false; before = 0 ∷ []; after = 5 ∷ 0 ∷ [] }) ≡ 128 ∷ 50 ∷ [] }
    ensures taken { text_value (codes "0.50") ≡ Some (record { negative = false; before = 0 ∷ []; after = 5 ∷ 0 ∷ [] }) }
    ensures shown { decimal_text (record { negative = true; before = 0 ∷ 0 ∷ 7 ∷ []; after = [] }) ≡ codes "-7" }
    ensures positive_text { decimal_text (record { negative = false; before = 1 ∷ 2 ∷ 3 ∷ 4 ∷ 5 ∷ 6 ∷ 7 ∷ 8 ∷ 9 ∷ 0 ∷ []; after = 1 ∷ 2 ∷ 3 ∷ 4 ∷ [] })
        ≡ codes "1234567890.1234" }
    ensures negative_text { decimal_text (record { negative = true; before = 1 ∷ 2 ∷ 3 ∷ 4 ∷ 5 ∷ 6 ∷ 7 ∷ 8 ∷ 9 ∷ 0 ∷ []; after = 1 ∷ 2 ∷ 3 ∷ 4 ∷ [] })
        ≡ codes "-1234567890.1234" }
    ensures half_text { decimal_text (record { negative = false; before = 0 ∷ []; after = 5 ∷ 0 ∷ [] }) ≡ codes "0.50" }
    ensures negative_zero { packed_encoding (record { negative = true; before = 0 ∷ 0 ∷ []; after = 0 ∷ 0 ∷ [] }) ≡ 127 ∷ 255 ∷ [] }
    ensures negative_zero_text { decimal_text (normalized false (record { negative = true; before = 0 ∷ 0 ∷ []; after = 0 ∷ 0 ∷ [] })) ≡ codes "-0.00" }
    ensures no_digits_left { decimal_text (normalized false (record { negative = true; before = 0 ∷ 0 ∷ 0 ∷ 0 ∷ 0 ∷ []; after = [] })) ≡ codes "0" }
    ensures no_digits { decimal_text (normalized true (record { negative = true; before = []; after = [] })) ≡ codes "0" }
    ensures hundred_failed { NonePacked 2 0 (228 ∷ []) }
    ensures exponent_failed { text_value (codes "1e3") ≡ None }
    ensures point_alone_failed { text_value (codes ".") ≡ None }
    ensures two_points_failed { text_value (codes "1.2.3") ≡ None }
{}
