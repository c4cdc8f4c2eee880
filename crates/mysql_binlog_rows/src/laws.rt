//! The laws of the parts and of the whole. Each is a function without code; its contract is the law.

ghost use Rattle.std.specs.Prelude.{◌≡◌};
ghost use Rattle.rows_event_body.specs.RowPairs.{planned_table, mapped_table};
ghost use Rattle.rows_event_body.specs.PlanViews.{IsPlanOf};
ghost use Rattle.rows_event_body.specs.declared.plan.ColumnPlan.{ColumnPlan};
ghost use Rattle.rows_table_map.specs.declared.table_map.TableMapEvent.{TableMapEvent};

pub use crate::cell_laws::{
    cells_are_read, images_are_read, kept_values_are_those_of_cells, lists_of_rows_are_read,
    no_cell_is_prefix_of_another, no_image_is_prefix_of_another, rows_are_read,
};
pub use crate::event_laws::{equal_events_say_the_same, events_are_written_whole};
pub use crate::json_laws::{
    diffs_are_read, lists_of_diffs_are_read, worked_budget, worked_depth, worked_objects,
    worked_pointer,
};
pub use crate::table_map_laws::{
    entries_are_read, equal_fields_are_the_same, equal_maps_have_equal_contents, lists_are_read,
    maps_are_written_completely,
};
pub use crate::value_laws::{
    equal_bits_are_the_same, equal_columns_and_times_are_the_same, equal_rows_are_the_same,
    equal_values_are_the_same, named_numbers, numbers_in_order, only_zero_groups_are_dropped,
    packed_bytes_are_read_back, packed_bytes_are_uniquely_read, packed_bytes_are_unpacked,
    packed_fields_are_read_back, texts_are_parsed_back, times_by_cases, worked_bits,
    worked_decimals, worked_time, worked_time_values, worked_unpacking,
};
pub use rows_constants_extra::laws::{
    numbers_are_distinct, orders_are_of_numbers, transaction_numbers, worked_numbers,
};

/// A plan that was made of a table map has all that rows need of the map: `rows_by` with the plan gives what `rows` gives with the
/// map.
pub fn plans_give_the_rows_of_their_maps()
    ensures { (plan : ColumnPlan) (map : TableMapEvent) → IsPlanOf plan map → planned_table plan ≡ mapped_table map }
{}
