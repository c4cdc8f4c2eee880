//! The values in cells: packed times and dates, MySQL's DECIMAL, and plain values with their columns and rows.
//!
//! `rows_packed_times`, which is re-exported here, defines the number that the bytes of a cell pack, `specs/TimeFields.antt` the
//! fields of such a number, and `specs/TimeTexts.antt` the text of a time. [`Decimal`] holds a sign and the digits before and after
//! the point: `specs/Digits.antt` defines how digits are packed, `specs/Decimals.antt` what is read and written, `specs/PrintedDecimals.antt`
//! the text that is printed and parsed, and `specs/Unpacked.antt` which decimal given bytes pack, and its text.
//! `specs/Values.antt` defines which values are the same and the value of a packed time.
#![tactic(auto)]

mod append;
mod decimal;
mod digit_text;
mod digits;
mod display;
mod fields;
mod group_number;
mod groups;
mod numbers;
mod order;
mod packed_check;
mod packed_text;
mod packing;
mod parse;
mod rows;
mod times;
mod unpacking;

pub use digit_text::{PAIRS, put_byte, put_four, put_two};
pub use digits::{DIG_BASE, DIG_PER_DEC, DIG_TO_BYTES, Digit, POWERS_10, decimal_bin_size};
pub use fields::Decimal;
pub use numbers::{DecimalNumbers, decimal_numbers};
pub use packed_check::packs_decimal;
pub use packed_text::put_decimal_text;
pub use parse::ParseDecimalError;
pub use rows::{Column, Row, Value, datetime_from_packed, new_row_raw, time_from_packed};
pub use rows_packed_times::{
    DATETIMEF_INT_OFS, TIMEF_INT_OFS, TIMEF_OFS, datetime_of, fraction_size,
    my_packed_time_get_frac_part, my_packed_time_get_int_part, my_packed_time_make,
    my_packed_time_make_int, time_of, timestamp_of,
};
pub use times::{MysqlTime, MysqlTimestampType};
