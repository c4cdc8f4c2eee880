//! A drawing of the counts: the course, and the shares of the tables (SVG 1.1).

use crate::totals::Totals;
use crate::words::put_time;
use changes_commands::Text;
use std::alloc::AllocError;

/// The width of the drawing, and the height of the course.
const WIDTH: u64 = 800;

const HEIGHT: u64 = 200;

/// The height of a line of the shares.
const LINE: u64 = 20;

/// How many tables are drawn.
const TABLES: usize = 12;

/// Appends an attribute with a number.
fn put_number(name: &str, number: u64, text: &mut Text) {
    text.push(b' ');
    text.words(name);
    text.words("=\"");
    text.unsigned(number);
    text.push(b'"');
}

/// Appends text with the characters that XML keeps for itself as references; bytes that aren't printable ASCII are `?`.
fn put_escaped(bytes: &[u8], text: &mut Text) {
    for byte in bytes {
        match *byte {
            b'<' => text.words("&lt;"),
            b'&' => text.words("&amp;"),
            32..=126 => text.push(*byte),
            _ => text.push(b'?'),
        }
    }
}

/// Appends a bar.
fn put_bar(x: u64, y: u64, width: u64, height: u64, text: &mut Text) {
    text.words("<rect");
    put_number("x", x, text);
    put_number("y", y, text);
    put_number("width", width, text);
    put_number("height", height, text);
    text.words(" fill=\"#4477aa\"/>\n");
}

/// Begins a label.
fn begin_label(x: u64, y: u64, text: &mut Text) {
    text.words("<text");
    put_number("x", x, text);
    put_number("y", y, text);
    text.push(b'>');
}

/// The share of a number in another, of so much.
fn share(number: u64, of: u64, whole: u64) -> u64 {
    if of == 0 {
        return 0;
    }
    number.saturating_mul(whole) / of
}

/// Appends the course: a bar for each period with rows, at its time.
fn put_course(totals: &Totals, text: &mut Text) {
    let Some((first, last)) = totals.course.times else {
        return;
    };
    let period = u64::from(totals.course.period.max(1));
    let begin = u64::from(first) / period;
    let count = (u64::from(last) / period)
        .saturating_sub(begin)
        .saturating_add(1);
    let width = (WIDTH / count).max(1);
    let most = totals.course.most_rows();
    for (start, rows) in &totals.course.periods {
        let place = (u64::from(*start) / period).saturating_sub(begin);
        let height = share(rows.rows, most, HEIGHT);
        put_bar(
            share(place, count, WIDTH),
            HEIGHT.saturating_sub(height),
            width,
            height,
            text,
        );
    }
    begin_label(0, HEIGHT + LINE, text);
    put_time(first, text);
    text.words(" to ");
    put_time(last, text);
    text.words(" UTC, at most ");
    text.unsigned(most);
    text.words(" rows in ");
    text.unsigned(period);
    text.words(" s</text>\n");
}

/// Appends the shares of the tables with the most rows.
fn put_shares(totals: &Totals, text: &mut Text) -> Result<(), AllocError> {
    let all = totals.counts.rows.rows();
    let mut y = HEIGHT + 2 * LINE;
    for (index, (rest, number)) in totals.tables.by_rows()?.iter().enumerate() {
        if index >= TABLES {
            break;
        }
        let rows = u64::MAX - *rest;
        put_bar(0, y, share(rows, all, WIDTH / 2), LINE - 4, text);
        begin_label(WIDTH / 2 + 8, y.saturating_add(LINE - 8), text);
        put_escaped(totals.tables.name(*number), text);
        text.words(": ");
        text.unsigned(rows);
        text.words("</text>\n");
        y = y.saturating_add(LINE);
    }
    Ok(())
}

/// Appends a drawing of the course and of the shares of the tables. `AllocError`: out of memory.
pub fn put_drawing(totals: &Totals, text: &mut Text) -> Result<(), AllocError> {
    let lines = totals.tables.names.len().min(TABLES) as u64;
    text.words(
        "<svg xmlns=\"http://www.w3.org/2000/svg\" font-family=\"sans-serif\" font-size=\"12\"",
    );
    put_number("width", WIDTH, text);
    put_number("height", HEIGHT + (lines + 3) * LINE, text);
    text.words(">\n");
    put_course(totals, text);
    put_shares(totals, text)?;
    text.words("</svg>\n");
    Ok(())
}
