//! Dates, times of day and time spans: packed in 64 bits, as fields, and as text.

mod mysql_time;
mod text;

pub use mysql_time::{MysqlTime, MysqlTimestampType};
