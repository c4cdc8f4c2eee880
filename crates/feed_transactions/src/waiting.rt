//! Bytes that wait to be written, so that many are written at once.

ghost use Rattle.std.specs.Prelude.{◌≡◌, ◌≤◌, ◌<◌, ◌+◌, ◌-◌, ◌++◌, [], length, OnOk, IfOk, IfErr, true, false};
ghost use Rattle.feed_text.specs.DocumentForms.{AppendsOne};
ghost use Rattle.std.specs.Io.KnownBytes.{Appends};
ghost use Rattle.wire_buf.specs.Watched.{inner_of, has_failed};
ghost use Rattle.feed_transactions.specs.TextStates.{text_if_shown};
ghost use Rattle.feed_checks.specs.LogFormat.{joined};
ghost use Rattle.feed_transactions.specs.InterruptedWrites.{IsInterruptedWrite};
ghost use Rattle.feed_transactions.specs.declared.waiting.TheConstants.{MAX_WAITING_LEN};

use crate::writing::put_all;
use feed_checks::Verdict;
use feed_text::WritingInRoom;
use feed_writers::put_bytes;
use std::alloc::{AllocError, Global};
use std::io::Write;
use wire_buf::Watched;

/// The number of bytes that may wait: 128 KiB.
pub const MAX_WAITING_LEN: usize = 0x2_0000;

/// The maximum length of a text that waits, in bytes: 16 KiB. Longer ones are written without a copy.
pub const MAX_COPIED_LEN: usize = 0x4000;

/// Bytes that wait to be written.
#[derive(Drop)]
pub struct WaitingBytes {
    buffer: Vec<u8>,
    len: usize,
    ghost within: { len ≤ length buffer.items },
    ghost sized: { length buffer.items ≡ MAX_WAITING_LEN },
}

impl WaitingBytes {
    ghost use Rattle.feed_transactions.specs.Waiting.{bytes_of, WritesSome};

    /// Returns a buffer in which no bytes wait.
    #[tactic(auto, unfolding(crate::specs::Waiting::bytes_of))]
    pub fn new(alloc: Global) -> Result<WaitingBytes, AllocError>
        ensures { IfOk result (λ waiting. bytes_of waiting ≡ []) }
    {
        let mut buffer = Vec::new(alloc);
        buffer.resize(MAX_WAITING_LEN, 0)?;
        Ok(WaitingBytes { buffer, len: 0 })
    }

    /// The number of bytes that can be appended.
    #[inline(always)]
    pub fn room(&self) -> usize
        ensures { result + length (bytes_of self.now) ≡ MAX_WAITING_LEN }
    {
        MAX_WAITING_LEN - self.len
    }

    /// Appends bytes to the waiting ones.
    #[inline(always)]
    pub fn append(&mut self, bytes: &[u8])
        requires { length (bytes_of self.old) + length bytes.now ≤ MAX_WAITING_LEN }
        ensures bytes { bytes_of self.new ≡ bytes_of self.old ++ bytes.now }
        ensures len { length (bytes_of self.new) ≡ length (bytes_of self.old) + length bytes.now }
    {
        self.len = put_bytes(self.buffer.as_mut_slice(), self.len, bytes);
    }

    /// Appends as much of a text as there is room for, and returns what is left.
    #[tactic(auto, unfolding(crate::specs::Waiting::bytes_of))]
    #[inline(always)]
    pub fn put_in_room<W: WritingInRoom>(&mut self, writing: W) -> W::Left
        ensures { AppendsOne (λ x. W.Wrote writing x result) (bytes_of self.old) (bytes_of self.new) }
    {
        let (len, left) = writing.put(self.buffer.as_mut_slice(), self.len);
        self.len = len;
        left
    }

    /// Writes the waiting bytes. `Write`: the writer failed after a prefix of them. None wait then.
    #[tactic(auto, unfolding(crate::specs::Waiting::bytes_of))]
    #[inline(never)]
    pub fn write_all<W: Write>(&mut self, writer: &mut Watched<W>) -> Result<(), Verdict>
        ensures ok { OnOk result (Appends (W.contents (inner_of writer.old)) (W.contents (inner_of writer.new)) (bytes_of self.old)) }
        ensures none { bytes_of self.new ≡ [] }
        ensures emptied { length (bytes_of self.new) ≡ 0 }
        ensures fault { IfErr result (IsInterruptedWrite (W.contents (inner_of writer.old)) (W.contents (inner_of writer.new)) (bytes_of self.old) (has_failed writer.new)) }
    {
        let len = self.len;
        self.len = 0;
        put_all(writer, &self.buffer[..len])
    }

    /// Writes the waiting bytes if that is due, with the error of `write_all`.
    #[inline(always)]
    pub fn write_if<W: Write>(
        &mut self,
        is_due: bool,
        writer: &mut Watched<W>,
    ) -> Result<(), Verdict>
        ensures ok { OnOk result (WritesSome (W.contents (inner_of writer.old)) (W.contents (inner_of writer.new)) (bytes_of self.old) [] (bytes_of self.new)) }
        ensures none { OnOk result (is_due ≡ true → bytes_of self.new ≡ []) }
        ensures emptied { OnOk result (is_due ≡ true → length (bytes_of self.new) ≡ 0) }
        ensures kept { is_due ≡ false → self.new ≡ self.old }
        ensures fault { IfErr result (IsInterruptedWrite (W.contents (inner_of writer.old)) (W.contents (inner_of writer.new)) (bytes_of self.old) (has_failed writer.new)) }
    {
        if is_due {
            self.write_all(writer)
        } else {
            Ok(())
        }
    }

    /// Writes a text after the waiting bytes. A short one waits. `Write`: the writer failed after a prefix of the waiting bytes and
    /// of the text.
    #[inline(always)]
    pub fn put<W: Write>(&mut self, text: &[u8], writer: &mut Watched<W>) -> Result<(), Verdict>
        ensures ok { OnOk result (WritesSome (W.contents (inner_of writer.old)) (W.contents (inner_of writer.new)) (bytes_of self.old) text.now (bytes_of self.new)) }
        ensures fault { IfErr result (IsInterruptedWrite (W.contents (inner_of writer.old)) (W.contents (inner_of writer.new)) (bytes_of self.old ++ text.now) (has_failed writer.new)) }
    {
        if text.len() > MAX_COPIED_LEN {
            return self.put_long(text, writer);
        }
        self.write_if(self.room() < text.len(), writer)?;
        self.append(text);
        Ok(())
    }

    /// Writes the waiting bytes and a text, with the error of `put`.
    fn put_long<W: Write>(&mut self, text: &[u8], writer: &mut Watched<W>) -> Result<(), Verdict>
        ensures ok { OnOk result (WritesSome (W.contents (inner_of writer.old)) (W.contents (inner_of writer.new)) (bytes_of self.old) text.now (bytes_of self.new)) }
        ensures fault { IfErr result (IsInterruptedWrite (W.contents (inner_of writer.old)) (W.contents (inner_of writer.new)) (bytes_of self.old ++ text.now) (has_failed writer.new)) }
    {
        self.write_all(writer)?;
        put_all(writer, text)
    }

    /// Writes the text of the transaction that an event showed, if it showed one, with the error of `put`.
    #[inline(always)]
    pub fn put_shown<W: Write>(
        &mut self,
        is_shown: bool,
        text: &[u8],
        writer: &mut Watched<W>,
    ) -> Result<(), Verdict>
        ensures ok { OnOk result (WritesSome (W.contents (inner_of writer.old)) (W.contents (inner_of writer.new)) (bytes_of self.old) (joined (text_if_shown is_shown text.now)) (bytes_of self.new)) }
        ensures fault { IfErr result (IsInterruptedWrite (W.contents (inner_of writer.old)) (W.contents (inner_of writer.new)) (bytes_of self.old ++ joined (text_if_shown is_shown text.now)) (has_failed writer.new)) }
    {
        if is_shown {
            self.put(text, writer)
        } else {
            Ok(())
        }
    }
}
