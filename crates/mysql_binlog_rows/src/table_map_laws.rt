//! Laws about table maps, and about the entries, lists and fields of their optional metadata. Each is a function without code; its
//! contract is the law.

ghost use Rattle.std.specs.Prelude.{◌≡◌, ◌↔◌, ℕ, List, Ok, true};
ghost use Rattle.wire_buf.specs.Encoding.{Begins};
ghost use Rattle.rows_errors.specs.Readings.{Reading};
ghost use Rattle.rows_table_map.specs.Entries.{NumberEncoding, StringEncoding, PairEncoding, lenenc_at, string_at, pair_at};
ghost use Rattle.rows_table_map.specs.MetadataFields.{FieldEncoding, tagged_at};
ghost use Rattle.rows_table_map.specs.Members.{MembersEncoding, members_at};
ghost use Rattle.rows_table_map.specs.EntryErrors.{NumberEntryFails, StringEntryFails, PairEntryFails};
ghost use Rattle.rows_table_map.specs.Lists.{AreListItems, numbers, strings, pairs};
ghost use Rattle.rows_table_map.specs.MetadataViews.{field_view};
ghost use Rattle.rows_table_map.specs.contracts.field.OptionalMetadataFieldPartialEq.TheImpl.{ghosts as field_equality};
ghost use Rattle.rows_table_map.specs.TableMaps.{IsMapWrittenWhole};
ghost use Rattle.rows_table_map.specs.MapViews.{map_of};
ghost use Rattle.rows_table_map.specs.contracts.table_map.TableMapEventPartialEq.TheImpl.{ghosts as map_equality};

use rows_table_map::{OptionalMetadataField, TableMapEvent};

/// A table map that was read with post-header length 8, which servers use today, is written completely. So reading the written
/// bytes, with this length, gives the same table map.
pub fn maps_are_written_completely()
    ensures { IsMapWrittenWhole }
{}

/// Table maps are equal by `==` exactly if their contents are.
pub fn equal_maps_have_equal_contents()
    ensures { (a b : TableMapEvent) → (map_equality.eq a b ≡ true) ↔ (map_of a ≡ map_of b) }
{}

/// The entry that is read from bytes is the one that a prefix of them encodes, whatever follows it.
pub fn entries_are_read()
    ensures numbers { (v : ℕ) (bytes rest : List ℕ)
        → (lenenc_at bytes ≡ Ok (v, rest)) ↔ Begins (NumberEncoding v) bytes rest }
    ensures strings { (v bytes rest : List ℕ)
        → (string_at bytes ≡ Ok (v, rest)) ↔ Begins (StringEncoding v) bytes rest }
    ensures pairs { (v : ℕ × ℕ) (bytes rest : List ℕ)
        → (pair_at bytes ≡ Ok (v, rest)) ↔ Begins (PairEncoding v) bytes rest }
    ensures fields { (v : ℕ × List ℕ) (bytes rest : List ℕ)
        → (tagged_at bytes ≡ Ok (v, rest)) ↔ Begins (FieldEncoding v) bytes rest }
    ensures members { (v : List (List ℕ)) (bytes rest : List ℕ)
        → (members_at bytes ≡ Ok (v, rest)) ↔ Begins (MembersEncoding v) bytes rest }
{}

/// The items of a list are its entries in order, and, if bytes remain that don't begin with an entry, the error last.
pub fn lists_are_read()
    ensures numbers { (bytes : List ℕ) (items : List (Reading ℕ))
        → (numbers bytes ≡ items) ↔ AreListItems NumberEncoding NumberEntryFails bytes items }
    ensures strings { (bytes : List ℕ) (items : List (Reading (List ℕ)))
        → (strings bytes ≡ items) ↔ AreListItems StringEncoding StringEntryFails bytes items }
    ensures pairs { (bytes : List ℕ) (items : List (Reading (ℕ × ℕ)))
        → (pairs bytes ≡ items) ↔ AreListItems PairEncoding PairEntryFails bytes items }
{}

/// Fields are equal by `==` exactly if they have the same type and the same value.
pub fn equal_fields_are_the_same()
    ensures { (a b : OptionalMetadataField) → (field_equality.eq a b ≡ true) ↔ (field_view a ≡ field_view b) }
{}
