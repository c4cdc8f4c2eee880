//! Laws about rows events by type, and worked examples. Each is a function without code; its contract is the law or the computed
//! result.

ghost use Rattle.std.specs.Prelude.{◌≡◌, ◌↔◌, ◌∷◌, ◌++◌, [], true, length, replicate, option_map, Some};
ghost use Rattle.rows_event_body.specs.RowsEventFields.{only_if};
ghost use Rattle.rows_event_body.specs.RowsEventTypes.{rows_event_type, images_of, has_before, has_after};
ghost use Rattle.rows_event_body.specs.RowsEvents.{bits_size, written_ctx};
ghost use Rattle.rows_event_body.specs.declared.rows_event_type.RowsEventType.{RowsEventType as RowsType};
ghost use Rattle.rows_event_body.specs.declared.rows_event_type.RowsEventType.TheVariants as rows;
ghost use Rattle.events_owned.specs.RowsContexts.{event_type_of, described_ctx};
ghost use Rattle.events_owned.specs.RowsViews.{rows_of, data_of};
ghost use Rattle.events_owned.specs.contracts.rows_event_data.RowsEventDataPartialEq.TheImpl.{ghosts as data_equality};

use crate::kinds::RowsKind;
use crate::rows_event_data::RowsEventData;
use crate::rows_event_of::RowsEventOf;

/// Converting the type of a rows event to an event type and back gives the same type.
pub fn types_are_read_back()
    ensures { (t : RowsType) → rows_event_type (event_type_of t) ≡ Some t }
{}

/// If a format description lists no post-header lengths, events are read with those that servers use today; with these, what is
/// written is read as the same event.
pub fn default_contexts_are_those_of_writing()
    ensures { (t : RowsType) → described_ctx t [] ≡ written_ctx t }
{}

/// The rows of an event have the images of its kind, with a bit for each column.
pub fn images_are_those_of_the_kind<K: RowsKind>()
    ensures before { (e : RowsEventOf K K.RowsKind) → option_map length (rows_of e).before ≡ only_if (has_before (images_of K.ROWS_TYPE)) (bits_size (rows_of e).columns) }
    ensures after { (e : RowsEventOf K K.RowsKind) → option_map length (rows_of e).after ≡ only_if (has_after (images_of K.ROWS_TYPE)) (bits_size (rows_of e).columns) }
{}

/// If a format description lists no post-header lengths, a write rows event is read with 10 and 10, so it has extra data, and one
/// of version 1 with 8 and 10. In a list that begins with 24 zeros, the 6 after them is the length of type 25, and the 8 after
/// four more zeros that of type 30.
pub fn worked_contexts()
    ensures write { described_ctx rows.WriteRows [] ≡ record { event_type = rows.WriteRows; post_header_len = 10; write_post_header_len = 10 } }
    ensures version_1 { described_ctx rows.WriteRowsV1 [] ≡ record { event_type = rows.WriteRowsV1; post_header_len = 8; write_post_header_len = 10 } }
    ensures said { described_ctx rows.DeleteRowsV1 (replicate 24 0 ++ 6 ∷ replicate 4 0 ++ 8 ∷ []) ≡ record { event_type = rows.DeleteRowsV1; post_header_len = 6; write_post_header_len = 8 } }
{}

/// Rows events of one kind are equal by `==` exactly if their contents are.
pub fn equal_events_say_the_same<K: RowsKind>()
    ensures { (a b : RowsEventOf K K.RowsKind) → (⟦<RowsEventOf<'static, K> as PartialEq>⟧.eq a b ≡ true) ↔ (rows_of a ≡ rows_of b) }
{}

/// Rows events of any types are equal by `==` exactly if their contents are.
pub fn equal_data_say_the_same()
    ensures { (a b : RowsEventData) → (data_equality.eq a b ≡ true) ↔ (data_of a ≡ data_of b) }
{}
