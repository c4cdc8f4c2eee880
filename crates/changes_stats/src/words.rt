//! The counts in words.

use crate::counts::RowCounts;
use crate::totals::Totals;
use changes_commands::Text;
use changes_writers::utc_of_seconds;
use feed_writers::{put_byte, put_day, put_number, put_padded};
use std::alloc::AllocError;

/// The length of the longest bar.
const BAR_LEN: u64 = 50;

/// The width of a number.
const NUMBER_WIDTH: usize = 14;

/// How many pairs of tables are shown.
const PAIRS: usize = 10;

/// Appends a number at the right of its width.
fn put_right(number: u64, text: &mut Text) {
    let mut digits = [0; 20];
    let len = put_number(&mut digits, 0, number);
    for _ in len..NUMBER_WIDTH {
        text.push(b' ');
    }
    text.put(&digits[..len]);
}

/// Appends the date and the time of a second, in UTC.
pub(crate) fn put_time(seconds: u32, text: &mut Text) {
    let (day, clock) = utc_of_seconds(i64::from(seconds), 0);
    let mut short = [0; 80];
    let end = put_day(&mut short, 0, day);
    let end = put_byte(&mut short, end, b' ');
    let end = put_padded(&mut short, end, 2, clock.hour);
    let end = put_byte(&mut short, end, b':');
    let end = put_padded(&mut short, end, 2, clock.minute);
    let end = put_byte(&mut short, end, b':');
    let end = put_padded(&mut short, end, 2, clock.second);
    text.put(&short[..end]);
}

/// Appends a line of counts.
fn put_counts(counts: RowCounts, transactions: u64, name: &[u8], text: &mut Text) {
    put_right(counts.inserted, text);
    put_right(counts.updated, text);
    put_right(counts.deleted, text);
    put_right(counts.bytes, text);
    put_right(transactions, text);
    text.words("  ");
    text.put(name);
    text.push(b'\n');
}

/// Appends the rows by table.
fn put_tables(totals: &Totals, text: &mut Text) -> Result<(), AllocError> {
    text.words("      inserted       updated       deleted   event bytes  transactions  table\n");
    for (_, number) in &totals.tables.by_rows()? {
        let name = totals.tables.name(*number);
        if let Some(table) = totals.tables.totals.get(name) {
            put_counts(table.counts, table.transactions, name, text);
        }
    }
    put_counts(totals.counts.rows, totals.counts.transactions, b"all", text);
    if totals.counts.statements > 0 {
        text.words("statements: ");
        text.unsigned(totals.counts.statements);
        text.push(b'\n');
    }
    if let Some((first, last)) = totals.course.times {
        text.words("from ");
        put_time(first, text);
        text.words(" to ");
        put_time(last, text);
        text.words(" UTC\n");
    }
    Ok(())
}

/// Appends the largest transactions.
fn put_largest(totals: &Totals, text: &mut Text) {
    if totals.largest.list.is_empty() {
        return;
    }
    text.words(
        "\nthe largest transactions\n          rows         bytes  log, from and to position, time, GTID, tables\n",
    );
    for large in &totals.largest.list {
        put_right(large.rows, text);
        put_right(large.bytes, text);
        text.words("  ");
        text.put(&large.file);
        text.push(b' ');
        text.unsigned(u64::from(large.begin));
        text.push(b' ');
        text.unsigned(u64::from(large.end));
        text.push(b' ');
        put_time(large.seconds, text);
        text.push(b' ');
        text.gtid(large.gtid.get());
        text.push(b' ');
        text.put(&large.tables);
        text.push(b'\n');
    }
}

/// The length of the bar of so many of the most rows.
fn bar_len(rows: u64, most: u64) -> u64 {
    if rows == 0 || most == 0 {
        return 0;
    }
    (rows.saturating_mul(BAR_LEN) / most).max(1)
}

/// Appends the course.
fn put_course(totals: &Totals, text: &mut Text) {
    if totals.course.periods.is_empty() {
        return;
    }
    text.words("\nrows over time\n");
    let most = totals.course.most_rows();
    for (start, period) in &totals.course.periods {
        put_time(*start, text);
        put_right(period.rows, text);
        text.words("  ");
        for _ in 0..bar_len(period.rows, most) {
            text.push(b'#');
        }
        text.push(b'\n');
    }
}

/// Appends the tables that change together, the most frequent first.
fn put_pairs(totals: &Totals, text: &mut Text) -> Result<(), AllocError> {
    let mut order = Vec::new(text.alloc());
    for (pair, count) in &totals.tables.pairs {
        order.push((u64::MAX - *count, *pair))?;
    }
    if order.is_empty() {
        return Ok(());
    }
    order.sort()?;
    text.words("\ntables that change together\n  transactions\n");
    for (index, (rest, pair)) in order.iter().enumerate() {
        if index >= PAIRS {
            break;
        }
        put_right(u64::MAX - *rest, text);
        text.words("  ");
        text.put(totals.tables.name(pair.0));
        text.words(", ");
        text.put(totals.tables.name(pair.1));
        text.push(b'\n');
    }
    Ok(())
}

/// Appends the counts in words. `AllocError`: out of memory.
pub fn put_words(totals: &Totals, text: &mut Text) -> Result<(), AllocError> {
    put_tables(totals, text)?;
    put_largest(totals, text);
    put_course(totals, text);
    put_pairs(totals, text)
}
