//! What a line says of where its change comes from.

ghost use Rattle.std.specs.Prelude.{◌≡◌, ◌*◌, ◌-◌, ◌++◌, OnOk};
ghost use Rattle.std.specs.Fmt.{decimal};
ghost use Rattle.events_frames.specs.Headers.{event_header_of};
ghost use Rattle.feed_text.specs.Buffers.{text_in};
ghost use Rattle.changes_formats.specs.FormatLineTexts.{place_text};

use crate::strings::put_content;
use crate::tables::FormatTable;
use changes_statements::{RowCells, RowChange};
use events_frames::BinlogEventHeader;
use feed_checks::Gtid;
use feed_text::TextBuffer;
use std::alloc::{AllocError, Global};

/// Where a row comes from: its log, its transaction and its event.
#[derive(Clone, Copy)]
pub(crate) struct LineOrigin<'t> {
    /// The name of the log.
    pub(crate) file: &'t [u8],
    pub(crate) gtid: Option<Gtid<'t>>,
    /// The number of the transaction's XID_EVENT.
    pub(crate) xid: Option<u64>,
    pub(crate) thread_id: Option<u64>,
    /// The header of the event of the row.
    pub(crate) header: BinlogEventHeader,
    /// The number of the transaction among those so far, from 1.
    pub(crate) transaction: u64,
}

/// A changed row of a table.
#[derive(Clone, Copy)]
pub(crate) struct LineRow<'t, 'c, 'a> {
    pub(crate) table: &'t FormatTable,
    pub(crate) change: RowChange<&'c RowCells<'a>>,
    /// Its number in its event, from 0.
    pub(crate) number: u64,
}

impl LineOrigin<'_> {
    /// The time of the event, in milliseconds since 1970.
    pub(crate) fn millis(self) -> u64
        ensures { result ≡ (event_header_of self.entry.header).timestamp * 1000 }
    {
        u64::from(self.header.timestamp()) * 1000
    }

    /// The position at which the event begins; 0 if the header has a size greater than its position.
    pub(crate) fn start(self) -> u32
        ensures { result ≡ (event_header_of self.entry.header).log_pos - (event_header_of self.entry.header).event_size }
    {
        self.header
            .log_pos()
            .saturating_sub(self.header.event_size())
    }
}

/// Appends a key, and a number.
pub(crate) fn put_number_member(
    key: &[u8],
    number: u64,
    out: &mut TextBuffer<Global>,
) -> Result<(), AllocError>
    ensures { OnOk result (text_in out.new ≡ text_in out.old ++ (key.now ++ decimal number)) }
{
    out.put_text(key)?;
    out.put_number(number)
}

/// Appends the name of the log and the position after the event as a string, with a colon between them.
pub(crate) fn put_place(
    origin: LineOrigin<'_>,
    out: &mut TextBuffer<Global>,
) -> Result<(), AllocError>
    ensures { OnOk result (text_in out.new ≡ text_in out.old ++ place_text origin.entry.file.now (event_header_of origin.entry.header).log_pos) }
{
    out.put(b'"')?;
    put_content(origin.file, out)?;
    out.put(b':')?;
    out.put_number(u64::from(origin.header.log_pos()))?;
    out.put(b'"')
}
