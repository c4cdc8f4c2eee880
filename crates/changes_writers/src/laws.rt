//! Laws of the texts, each stated as the contract of a function that does nothing.

ghost use Rattle.std.specs.Prelude.{◌≡◌, ℕ, ◌≤◌, List, ◌++◌, All, Ok, IsTrue, IsUtf8, from_bits};
ghost use Rattle.std.specs.Float.{binary32, binary64, float_is_finite};
ghost use Rattle.base64.specs.Engines.{standard};
ghost use Rattle.base64.specs.GeneralPurpose.{IsBytes, decode_of, encode_of};
ghost use Rattle.changes_writers.specs.Base64Texts.{base64_object, base64_string};
ghost use Rattle.feed_writers.specs.declared.times.Clock.{Clock};
ghost use Rattle.feed_writers.specs.declared.times.Day.{Day};
ghost use Rattle.changes_writers.specs.CivilDates.{IsDate, IsTimeOfDay, second_number};
ghost use Rattle.changes_writers.specs.FloatTexts.{IsDoubleJson, IsFloatJson};
ghost use Rattle.changes_writers.specs.JsonNumbers.{IsJsonNumber};
ghost use Rattle.changes_writers.specs.JsonStrings.{json_string};

/// A string shows its bytes and where it ends, whatever follows it: equal strings come from equal bytes, and no string is a
/// proper prefix of another.
pub fn strings_end()
    ensures { (a b s t : List ℕ) → json_string a ++ s ≡ json_string b ++ t → (a ≡ b) × (s ≡ t) }
{}

/// A string has no control characters, and so no line feed.
pub fn strings_have_no_control_characters()
    ensures { (bytes : List ℕ) → All (λ b. 32 ≤ b) (json_string bytes) }
{}

/// The string of a text in UTF-8 is a text in UTF-8.
pub fn strings_are_utf8()
    ensures { (bytes : List ℕ) → IsUtf8 bytes → IsUtf8 (json_string bytes) }
{}

/// No text begins both with a string and with an object of Base64.
pub fn strings_are_no_objects()
    ensures { (a b s t : List ℕ) → json_string a ++ s ≡ base64_object b ++ t → ⊥ }
{}

/// Base64 is read back, and its strings and objects show their bytes and where they end.
pub fn base64_is_read_back()
    ensures bytes { (bytes : List ℕ) → IsBytes bytes → decode_of standard (encode_of standard bytes) ≡ Ok bytes }
    ensures strings { (a b s t : List ℕ) → IsBytes a → IsBytes b → base64_string a ++ s ≡ base64_string b ++ t → (a ≡ b) × (s ≡ t) }
    ensures objects { (a b s t : List ℕ) → IsBytes a → IsBytes b → base64_object a ++ s ≡ base64_object b ++ t → (a ≡ b) × (s ≡ t) }
{}

/// The text of a finite float is a number of JSON, and a text is that of one float only. NaNs count as one.
pub fn floats_are_read_back()
    ensures float_numbers { (bits : ℕ) (text : List ℕ) → IsTrue (float_is_finite (from_bits binary32 bits)) → IsFloatJson bits text → IsJsonNumber text }
    ensures double_numbers { (bits : ℕ) (text : List ℕ) → IsTrue (float_is_finite (from_bits binary64 bits)) → IsDoubleJson bits text → IsJsonNumber text }
    ensures floats { (a b : ℕ) (text : List ℕ) → IsFloatJson a text → IsFloatJson b text → from_bits binary32 a ≡ from_bits binary32 b }
    ensures doubles { (a b : ℕ) (text : List ℕ) → IsDoubleJson a text → IsDoubleJson b text → from_bits binary64 a ≡ from_bits binary64 b }
{}

/// A number of seconds is that of one date and time of day only. So `utc_of_seconds` returns the only one with its seconds.
pub fn seconds_have_one_date()
    ensures { (d e : Day) (c k : Clock) → IsDate d → IsDate e → IsTimeOfDay c → IsTimeOfDay k → second_number d c ≡ second_number e k → (d ≡ e) × (c.hour ≡ k.hour) × (c.minute ≡ k.minute) × (c.second ≡ k.second) }
{}
