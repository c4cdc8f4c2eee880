//! Writers of digits, dates, escapes and quoted bytes, at an offset of a buffer with room for them.
//!
//! Each writer takes the offset of its text, and returns the offset of its end. It leaves the text before its own unchanged; the
//! bytes after it aren't text yet, and it may overwrite them. The specifications of the texts are in `specs/`.
#![tactic(auto)]

mod blocks;
mod column_labels;
mod digits;
mod escapes;
mod hexadecimal;
mod plain;
mod quoted;
mod times;

pub use column_labels::put_column_label;
pub use digits::{put_bytes, put_fixed_digits, put_number, put_padded, put_signed};
pub use escapes::put_escapes;
pub use hexadecimal::put_hexadecimal;
pub use plain::{is_plain, plain_len};
pub use quoted::{put_few_quoted, put_plain_quoted, put_quoted, put_quoted_content};
pub use rows_values::put_byte;
pub use times::{Clock, Day, put_clock, put_day};
