//! A step of a run.

ghost use Rattle.std.specs.Prelude.{◌≡◌, take};

/// One answer to a follower: the size of the binary log at the time, and the bytes of the answer that arrive.
#[derive(Clone, Copy, Debug, PartialEq, Eq)]
pub struct Step {
    /// The size of the binary log at the time, in bytes.
    pub size: usize,
    /// How many bytes of the answer arrive.
    pub count: usize,
}

impl Step {
    /// The bytes of an answer that arrive: the first `count`, or all if there are fewer.
    pub fn arrived(self, answer: &[u8]) -> &[u8]
        ensures { result.now ≡ take self.count answer.entry.now }
    {
        &answer[..self.count.min(answer.len())]
    }
}
