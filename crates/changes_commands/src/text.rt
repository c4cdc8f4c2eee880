//! Text that grows, for messages and JSON.

ghost use Rattle.std.specs.Prelude.{◌≡◌, ◌∷◌, ◌++◌, ◌||◌, [], OnOk, true, false, codes, is_err, length};
ghost use Rattle.changes_tables.specs.MemberTexts.{utf8_json};
ghost use Rattle.std.specs.Fmt.{decimal};

use changes_origins::{put_gtid, put_utf8};
use feed_checks::Gtid;
use feed_text::TextBuffer;
use std::alloc::{AllocError, Global};
use std::fmt::{Debug, Display};
use std::io::Write;
use std::str;

/// Text that remembers whether memory ran out: then bytes are missing, and `ended` is an error.
#[derive(Drop)]
pub struct Text {
    alloc: Global,
    bytes: TextBuffer<Global>,
    is_short: bool,
}

impl Text {
    ghost use Rattle.changes_commands.specs.GrowingTexts.{bytes_in, IsLonger, Grows};

    /// No text.
    pub fn new(alloc: Global) -> Text
        ensures bytes { bytes_in result ≡ [] }
        ensures whole { result.is_short ≡ false }
    {
        Text {
            alloc,
            bytes: TextBuffer::new(alloc),
            is_short: false,
        }
    }

    /// Where memory for what is written comes from.
    pub fn alloc(&self) -> Global {
        self.alloc
    }

    /// The bytes.
    pub fn bytes(&self) -> &[u8]
        ensures { result.now ≡ bytes_in self.now }
    {
        self.bytes.as_slice()
    }

    /// How many bytes there are.
    pub fn len(&self) -> usize
        ensures { result ≡ length (bytes_in self.now) }
    {
        self.bytes.len()
    }

    /// Drops all bytes. Whether memory ran out stays.
    pub fn clear(&mut self)
        ensures bytes { bytes_in self.new ≡ [] }
        ensures whole { self.new.is_short ≡ self.old.is_short }
    {
        self.bytes.clear();
    }

    /// Remembers that memory ran out, if it did.
    fn note(&mut self, appended: Result<(), AllocError>)
        ensures bytes { bytes_in self.new ≡ bytes_in self.old }
        ensures whole { self.new.is_short ≡ (self.old.is_short || is_err appended) }
    {
        self.is_short |= appended.is_err();
    }

    /// Remembers that memory ran out.
    pub(crate) fn run_short(&mut self)
        ensures bytes { bytes_in self.new ≡ bytes_in self.old }
        ensures short { self.new.is_short ≡ true }
    {
        self.is_short = true;
    }

    /// Appends a byte.
    pub fn push(&mut self, byte: u8)
        ensures { IsLonger self.old self.new (byte ∷ []) }
    {
        let appended = self.bytes.put(byte);
        self.note(appended);
    }

    /// Appends bytes.
    pub fn put(&mut self, bytes: &[u8])
        ensures { IsLonger self.old self.new bytes.now }
    {
        let appended = self.bytes.put_text(bytes);
        self.note(appended);
    }

    /// Appends a text, which may be short itself.
    pub fn append(&mut self, other: &Text)
        ensures bytes { IsLonger self.old self.new (bytes_in other.now) }
        ensures whole { self.new.is_short ≡ false → other.now.is_short ≡ false }
    {
        self.put(other.bytes());
        self.is_short |= other.is_short;
    }

    /// Appends words.
    pub fn words(&mut self, words: &str)
        ensures { IsLonger self.old self.new words.now }
    {
        self.put(words.as_bytes());
    }

    /// Appends what a value is shown as to programmers.
    pub fn debug<T: Debug>(&mut self, value: &T)
        ensures { Grows self.old self.new }
    {
        let mut shown = Vec::new(self.alloc);
        if write!(shown, "{value:?}").is_err() {
            self.is_short = true;
        }
        self.put(&shown);
    }

    /// Appends what a value is shown as to people.
    pub(crate) fn shown<T: Display>(&mut self, value: &T)
        ensures { Grows self.old self.new }
    {
        let mut shown = Vec::new(self.alloc);
        if write!(shown, "{value}").is_err() {
            self.is_short = true;
        }
        self.put(&shown);
    }

    /// Appends an integer.
    pub fn unsigned(&mut self, number: u64)
        ensures { IsLonger self.old self.new (decimal number) }
    {
        let appended = self.bytes.put_number(number);
        self.note(appended);
    }

    /// Appends a label, and then an integer.
    pub(crate) fn label(&mut self, label: &[u8], number: u64)
        ensures { IsLonger self.old self.new (label.now ++ decimal number) }
    {
        self.put(label);
        self.unsigned(number);
    }

    /// Appends `null`.
    pub fn null(&mut self)
        ensures { IsLonger self.old self.new (codes "null") }
    {
        self.put(b"null");
    }

    /// Appends a string of JSON.
    pub fn string(&mut self, text: &str)
        ensures { IsLonger self.old self.new (utf8_json text.now) }
    {
        self.text(text.as_bytes());
    }

    /// Appends bytes as a string of JSON if they are UTF-8, and else as `{"base64":..}`.
    pub fn text(&mut self, bytes: &[u8])
        ensures { IsLonger self.old self.new (utf8_json bytes.now) }
    {
        let appended = put_utf8(bytes, &mut self.bytes);
        self.note(appended);
    }

    /// Appends a name as a string of JSON, with replacement characters where it isn't UTF-8.
    #[tactic(auto, using(crate::proofs::GrowingLemmas::grows_by))]
    pub fn name(&mut self, bytes: &[u8])
        ensures { Grows self.old self.new }
    {
        match str::from_utf8(bytes) {
            Ok(text) => self.string(text),
            Err(_) => match String::from_utf8_lossy(self.alloc, bytes) {
                Ok(text) => self.string(&text),
                Err(_) => self.is_short = true,
            },
        }
    }

    /// Appends a GTID as JSON: `"uuid:number"`, `"uuid:tag:number"`, or null.
    pub fn gtid(&mut self, gtid: Option<Gtid<'_>>)
        ensures { Grows self.old self.new }
    {
        let appended = put_gtid(gtid, &mut self.bytes);
        self.note(appended);
    }

    /// Whether all of the text is there.
    pub fn ended(&self) -> Result<(), AllocError>
        ensures { OnOk result (self.now.is_short ≡ false) }
    {
        if self.is_short {
            Err(AllocError)
        } else {
            Ok(())
        }
    }
}
