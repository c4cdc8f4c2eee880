//! Writers of JSON: strings, Base64, integers, floats, dates and times, at an offset of a buffer with room for them.
//!
//! Each writer takes the offset of its text, and returns the offset of its end. It leaves the text before its own unchanged; the
//! bytes after it aren't text yet, and it may overwrite them. The specifications of the texts are in `specs/`.
#![tactic(auto)]

mod base64_text;
mod calendar;
mod escapes;
mod floats;
pub mod laws;
mod numbers;
mod plain;
mod strings;
mod times;

pub use base64_text::{base64_len, put_base64, put_base64_object, put_base64_string};
pub use calendar::utc_of_seconds;
pub use floats::{put_double, put_float};
pub use numbers::put_signed_integer;
pub use strings::{put_plain_string, put_string, put_string_content, put_utf8_string};
pub use times::{put_date, put_datetime, put_duration};
