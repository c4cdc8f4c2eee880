//! MariaDB's table maps as MySQL's servers write them.

ghost use Rattle.std.specs.Prelude.{◌≡◌, ◌≤◌, ℕ, List, IfOk, length, drop, if◌then◌else◌};
ghost use Rattle.table_schemas.specs.YearSigns.{mysql_fields};
ghost use Rattle.table_schemas.specs.YearSignViews.{signs_of};
ghost use Rattle.table_schemas.specs.MysqlTableMaps.{before_fields, mysql_if_short, mysql_map, mysql_map_in, unsummed};

use crate::described::Described;
use crate::schemas::{checked, put_longer};
use crate::signs::{YearSigns, year_signs};
use events_frames::BinlogEventHeader;
use std::alloc::{AllocError, Global};

/// The length of a checksum.
const CHECKSUM_LEN: usize = 4;

/// The maximum length of an event before its checksum.
const MAX_LEN: usize = 0xffff_fffb;

/// Makes table maps as MySQL's servers write them: without the signs of YEAR columns.
#[derive(Drop)]
pub(crate) struct MysqlMaps {
    alloc: Global,
    /// The optional metadata of the newest.
    fields: Vec<u8>,
    /// The newest.
    pub(crate) event: Vec<u8>,
}

/// The bytes of an event before its checksum, right or not.
fn unsummed(event: &[u8], has_checksum: bool) -> &[u8]
    ensures { result.now ≡ unsummed has_checksum event.now }
{
    let len = if has_checksum { CHECKSUM_LEN } else { 0 };
    let (bytes, _) = event.split_at(event.len().saturating_sub(len));
    bytes
}

/// The body of an event; none, if it is shorter than a header.
fn body_of(event: &[u8]) -> &[u8]
    ensures { result.now ≡ drop 19 event.now }
{
    let (_, body) = event.split_at(BinlogEventHeader::LEN.min(event.len()));
    body
}

/// The bytes of a table map before its optional metadata.
fn before_fields<'e>(event: &'e [u8], signs: &YearSigns<'_>) -> &'e [u8]
    requires { 19 ≤ length event.now }
    ensures before { result.now ≡ before_fields event.now (signs_of signs.now) }
    ensures long { 19 ≤ length result.now }
{
    let (header, body) = event.split_at(BinlogEventHeader::LEN);
    let len = header.len() + body.len().saturating_sub(signs.fields_len());
    let (before, _) = event.split_at(len);
    before
}

impl MysqlMaps {
    /// None was made.
    pub(crate) fn new(alloc: Global) -> MysqlMaps {
        MysqlMaps {
            alloc,
            fields: Vec::new(alloc),
            event: Vec::new(alloc),
        }
    }

    /// Makes the table map in place of one in a log that is described so, and returns true; or returns false, and it is as it should be: a
    /// server of MySQL wrote it, it has no signs of YEAR columns, or it or its checksum can't be read. `AllocError`: out of memory.
    pub(crate) fn put(&mut self, event: &[u8], described: Described) -> Result<bool, AllocError>
        requires { 19 ≤ length event.now }
        ensures { IfOk result (λ is_made. (if is_made then self.new.event.items else event.now) ≡ mysql_map_in described event.now) }
    {
        if !described.is_mariadb {
            return Ok(false);
        }
        self.put_mariadb(event, described.has_checksum)
    }

    /// The same of one of MariaDB's.
    fn put_mariadb(&mut self, event: &[u8], has_checksum: bool) -> Result<bool, AllocError>
        requires { 19 ≤ length event.now }
        ensures { IfOk result (λ is_made. (if is_made then self.new.event.items else event.now) ≡ mysql_map has_checksum event.now) }
    {
        let Some(signs) = year_signs(body_of(unsummed(event, has_checksum))) else {
            return Ok(false);
        };
        let Some(bytes) = checked(event, has_checksum) else {
            return Ok(false);
        };
        self.put_by(bytes, &signs, has_checksum)
    }

    /// The same by the bytes before the checksum, and the signs in them.
    fn put_by(
        &mut self,
        bytes: &[u8],
        signs: &YearSigns<'_>,
        has_checksum: bool,
    ) -> Result<bool, AllocError>
        requires { 19 ≤ length bytes.now }
        ensures { (event : List ℕ) → IfOk result (λ is_made. (if is_made then self.new.event.items else event) ≡ mysql_if_short has_checksum event (before_fields bytes.now (signs_of signs.now)) (mysql_fields (signs_of signs.now))) }
    {
        self.fields.clear();
        signs.put_mysql_fields(self.alloc, &mut self.fields)?;
        let before = before_fields(bytes, signs);
        if before.len() + self.fields.len() > MAX_LEN {
            return Ok(false);
        }
        put_longer(before, &self.fields, has_checksum, &mut self.event)?;
        Ok(true)
    }
}
