//! `io::Read` for a `ParseBuf`.

ghost use Rattle.std.specs.Prelude.{◌≡◌, ◌++◌, Some, Ok, IfOk, length, take, drop, min};
ghost use Rattle.std.specs.Io.{ReadsAtMost};
ghost use Rattle.std.specs.Io.KnownBytes.{ReadConsumes};

use super::ParseBuf;
use std::io;
use std::io::Read;

/// Reads the next bytes: as many as remain and fit. It never fails.
impl Read for ParseBuf<'_> {
    ghost remaining = { λ buf. Some buf.0.now };

    fn read(&mut self, buf: &mut [u8]) -> io::Result<usize>
        ensures bound { ReadsAtMost result buf.new }
        ensures bytes { ReadConsumes (Some self.old.0.now) (Some self.new.0.now) result buf.new }
        ensures count { result ≡ Ok (min (length self.old.0.now) (length buf.old)) }
        ensures copied { IfOk result (λ n. buf.new ≡ take n self.old.0.now ++ drop n buf.old) }
        ensures rest { IfOk result (λ n. self.new.0.now ≡ drop n self.old.0.now) }
    {
        self.0.read(buf)
    }
}
