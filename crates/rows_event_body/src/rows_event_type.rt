//! The types of rows events, and the images of their rows.

ghost use Rattle.std.specs.Prelude.{◌≡◌, Some};
ghost use Rattle.rows_event_body.specs.RowsEventTypes.{rows_event_type, images_of, writes_extra, has_before as has_before_of, has_after as has_after_of, has_partial_after as has_partial_after_of};

use rows_constants::EventType;

/// The type of a rows event: an [`EventType`] restricted to rows events.
#[derive(Clone, Copy, Debug, PartialEq, Eq, Hash)]
pub enum RowsEventType {
    /// `WRITE_ROWS_EVENT_V1`.
    WriteRowsV1,
    /// `UPDATE_ROWS_EVENT_V1`.
    UpdateRowsV1,
    /// `DELETE_ROWS_EVENT_V1`.
    DeleteRowsV1,
    /// `WRITE_ROWS_EVENT`.
    WriteRows,
    /// `UPDATE_ROWS_EVENT`.
    UpdateRows,
    /// `DELETE_ROWS_EVENT`.
    DeleteRows,
    /// `PARTIAL_UPDATE_ROWS_EVENT`.
    PartialUpdateRows,
}

impl RowsEventType {
    /// Returns the type as one of a rows event; None if it is the type of another event, or one of the three `PRE_GA_` types,
    /// whose events aren't supported.
    pub fn of(event_type: EventType) -> Option<RowsEventType>
        ensures { result ≡ rows_event_type event_type }
    {
        match event_type {
            EventType::WRITE_ROWS_EVENT_V1 => Some(RowsEventType::WriteRowsV1),
            EventType::UPDATE_ROWS_EVENT_V1 => Some(RowsEventType::UpdateRowsV1),
            EventType::DELETE_ROWS_EVENT_V1 => Some(RowsEventType::DeleteRowsV1),
            EventType::WRITE_ROWS_EVENT => Some(RowsEventType::WriteRows),
            EventType::UPDATE_ROWS_EVENT => Some(RowsEventType::UpdateRows),
            EventType::DELETE_ROWS_EVENT => Some(RowsEventType::DeleteRows),
            EventType::PARTIAL_UPDATE_ROWS_EVENT => Some(RowsEventType::PartialUpdateRows),
            _ => None,
        }
    }

    /// Returns the type as an `EventType`.
    pub fn event_type(self) -> EventType
        ensures { rows_event_type result ≡ Some self }
    {
        match self {
            RowsEventType::WriteRowsV1 => EventType::WRITE_ROWS_EVENT_V1,
            RowsEventType::UpdateRowsV1 => EventType::UPDATE_ROWS_EVENT_V1,
            RowsEventType::DeleteRowsV1 => EventType::DELETE_ROWS_EVENT_V1,
            RowsEventType::WriteRows => EventType::WRITE_ROWS_EVENT,
            RowsEventType::UpdateRows => EventType::UPDATE_ROWS_EVENT,
            RowsEventType::DeleteRows => EventType::DELETE_ROWS_EVENT,
            RowsEventType::PartialUpdateRows => EventType::PARTIAL_UPDATE_ROWS_EVENT,
        }
    }

    /// Returns the images that each row has in events of this type.
    pub fn images(self) -> RowImages
        ensures { result ≡ images_of self }
    {
        match self {
            RowsEventType::WriteRowsV1 | RowsEventType::WriteRows => RowImages::After,
            RowsEventType::DeleteRowsV1 | RowsEventType::DeleteRows => RowImages::Before,
            RowsEventType::UpdateRowsV1 | RowsEventType::UpdateRows => RowImages::BeforeAndAfter,
            RowsEventType::PartialUpdateRows => RowImages::BeforeAndPartialAfter,
        }
    }

    /// Returns whether events of this type are written with extra data: all except those of version 1.
    pub(crate) fn writes_extra_data(self) -> bool
        ensures { result ≡ writes_extra self }
    {
        match self {
            RowsEventType::WriteRowsV1
            | RowsEventType::UpdateRowsV1
            | RowsEventType::DeleteRowsV1 => false,
            RowsEventType::WriteRows
            | RowsEventType::UpdateRows
            | RowsEventType::DeleteRows
            | RowsEventType::PartialUpdateRows => true,
        }
    }
}

/// The images that a rows event has for each row: before the change, after it, or both.
#[derive(Clone, Copy, Debug, PartialEq, Eq, Hash)]
pub enum RowImages {
    /// A deleted row.
    Before,
    /// An inserted row.
    After,
    /// An updated row, before and after the update.
    BeforeAndAfter,
    /// An updated row, before and after the update; JSON documents in the after image may be encoded as diffs.
    BeforeAndPartialAfter,
}

impl RowImages {
    /// Returns whether each row has a before image.
    pub fn has_before(self) -> bool
        ensures { result ≡ has_before_of self }
    {
        match self {
            RowImages::Before | RowImages::BeforeAndAfter | RowImages::BeforeAndPartialAfter =>
                true,
            RowImages::After => false,
        }
    }

    /// Returns whether each row has an after image.
    pub fn has_after(self) -> bool
        ensures { result ≡ has_after_of self }
    {
        match self {
            RowImages::After | RowImages::BeforeAndAfter | RowImages::BeforeAndPartialAfter => true,
            RowImages::Before => false,
        }
    }

    /// Returns whether JSON documents in the after image may be encoded as diffs.
    pub fn has_partial_after(self) -> bool
        ensures { result ≡ has_partial_after_of self }
    {
        match self {
            RowImages::BeforeAndPartialAfter => true,
            RowImages::Before | RowImages::After | RowImages::BeforeAndAfter => false,
        }
    }
}
