//! The counts as JSON.

ghost use Rattle.std.specs.Prelude.{◌++◌};
ghost use Rattle.std.specs.Fmt.{decimal};
ghost use Rattle.changes_commands.specs.GrowingTexts.{IsLonger};

use crate::counts::RowCounts;
use crate::largest::LargeTransaction;
use crate::totals::Totals;
use changes_commands::Text;
use std::alloc::AllocError;

/// Appends a label and a number.
fn put_number(label: &str, number: u64, text: &mut Text)
    ensures { IsLonger text.old text.new (label.now ++ decimal number) }
{
    text.words(label);
    text.unsigned(number);
}

/// Appends the members of counts.
fn put_counts(counts: RowCounts, text: &mut Text) {
    put_number(",\"inserted\":", counts.inserted, text);
    put_number(",\"updated\":", counts.updated, text);
    put_number(",\"deleted\":", counts.deleted, text);
    put_number(",\"bytes\":", counts.bytes, text);
}

/// Appends the tables, those with the most rows first.
fn put_tables(totals: &Totals, text: &mut Text) -> Result<(), AllocError> {
    text.words(",\"tables\":[");
    for (index, (_, number)) in totals.tables.by_rows()?.iter().enumerate() {
        if index > 0 {
            text.push(b',');
        }
        let name = totals.tables.name(*number);
        if let Some(table) = totals.tables.totals.get(name) {
            text.words("{\"table\":");
            text.text(name);
            put_counts(table.counts, text);
            put_number(",\"transactions\":", table.transactions, text);
            text.push(b'}');
        }
    }
    text.push(b']');
    Ok(())
}

/// Appends one of the largest transactions.
fn put_large(large: &LargeTransaction, text: &mut Text) {
    put_number("{\"rows\":", large.rows, text);
    put_number(",\"bytes\":", large.bytes, text);
    text.words(",\"file\":");
    text.text(&large.file);
    put_number(",\"begin\":", u64::from(large.begin), text);
    put_number(",\"position\":", u64::from(large.end), text);
    put_number(",\"ts\":", u64::from(large.seconds), text);
    text.words(",\"gtid\":");
    text.gtid(large.gtid.get());
    text.words(",\"tables\":");
    text.text(&large.tables);
    text.push(b'}');
}

/// Appends the largest transactions.
fn put_largest(totals: &Totals, text: &mut Text) {
    text.words(",\"largest\":[");
    for (index, large) in totals.largest.list.iter().enumerate() {
        if index > 0 {
            text.push(b',');
        }
        put_large(large, text);
    }
    text.push(b']');
}

/// Appends the course.
fn put_course(totals: &Totals, text: &mut Text) {
    text.words(",\"course\":[");
    for (index, (start, period)) in totals.course.periods.iter().enumerate() {
        if index > 0 {
            text.push(b',');
        }
        put_number("{\"ts\":", u64::from(*start), text);
        put_number(",\"rows\":", period.rows, text);
        put_number(",\"transactions\":", period.transactions, text);
        text.push(b'}');
    }
    text.push(b']');
}

/// Appends the pairs of tables that change together.
fn put_pairs(totals: &Totals, text: &mut Text) {
    text.words(",\"together\":[");
    for (index, (pair, count)) in totals.tables.pairs.iter().enumerate() {
        if index > 0 {
            text.push(b',');
        }
        text.words("{\"tables\":[");
        text.text(totals.tables.name(pair.0));
        text.push(b',');
        text.text(totals.tables.name(pair.1));
        text.push(b']');
        put_number(",\"transactions\":", *count, text);
        text.push(b'}');
    }
    text.push(b']');
}

/// Appends the counts as a JSON object, and a line feed. `AllocError`: out of memory.
pub fn put_json(totals: &Totals, text: &mut Text) -> Result<(), AllocError> {
    put_number("{\"transactions\":", totals.counts.transactions, text);
    put_number(",\"statements\":", totals.counts.statements, text);
    put_counts(totals.counts.rows, text);
    put_number(",\"transaction_bytes\":", totals.counts.bytes, text);
    if let Some((first, last)) = totals.course.times {
        put_number(",\"first\":", u64::from(first), text);
        put_number(",\"last\":", u64::from(last), text);
    }
    put_number(",\"period\":", u64::from(totals.course.period), text);
    put_tables(totals, text)?;
    put_largest(totals, text);
    put_course(totals, text);
    put_pairs(totals, text);
    text.words("}\n");
    Ok(())
}
