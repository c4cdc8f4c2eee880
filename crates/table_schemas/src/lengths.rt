//! How long the table maps are that were made, for the offsets of events in a log.

/// How many bytes were given in place of how many.
#[derive(Clone, Copy)]
struct Bytes {
    given: u64,
    own: u64,
}

/// How long the table maps are that were made so far, and those in place of which they were.
#[derive(Clone, Copy)]
pub(crate) struct Lengths {
    /// Those of all.
    all: Bytes,
    /// Those of the newest.
    newest: Bytes,
}

impl Lengths {
    /// None was made.
    pub(crate) fn none() -> Lengths {
        let none = Bytes { given: 0, own: 0 };
        Lengths {
            all: none,
            newest: none,
        }
    }

    /// One more table map was given of so many bytes, in place of one of so many; whether it was made.
    pub(crate) fn and(self, is_made: bool, given: usize, own: usize) -> Lengths {
        if !is_made {
            return self;
        }
        let newest = Bytes {
            given: given as u64,
            own: own as u64,
        };
        Lengths {
            all: Bytes {
                given: self.all.given.saturating_add(newest.given),
                own: self.all.own.saturating_add(newest.own),
            },
            newest,
        }
    }

    /// The offset of an event among the other source's bytes, by that among the bytes given; whether it is the newest that was made.
    pub(crate) fn own_offset(self, offset: u64, is_newest: bool) -> u64 {
        let before = self.all;
        if !is_newest {
            return offset
                .saturating_sub(before.given)
                .saturating_add(before.own);
        }
        let given = before.given.saturating_sub(self.newest.given);
        let own = before.own.saturating_sub(self.newest.own);
        offset.saturating_sub(given).saturating_add(own)
    }
}
