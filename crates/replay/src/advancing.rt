// A trace is read into a buffer, after what is left of the bytes before.
ghost use Rattle.std.specs.Prelude.{◌≡◌};
ghost use Rattle.replay.specs.Advancing.{advance_of, Advances, kept_of};

use crate::{Advanced, Progress};

impl Progress {
    // All whole fields from the front of a buffer's first bytes on; what is left of these goes to its front.
    pub fn advance(self, buffer: &mut [u8], filled: usize) -> Advanced
        ensures { Advances (advance_of self buffer.old filled) result buffer.new }
    {
        let end = filled.min(buffer.len());
        let fed = self.feed(&buffer[..end]);
        buffer.copy_within(fed.used..end, 0);
        Advanced {
            progress: fed.progress,
            left: end - fed.used,
        }
    }
}

// The bytes of a buffer from one offset on, up to another, go to its front.
pub fn keep(buffer: &mut [u8], from: usize, end: usize)
    ensures { buffer.new ≡ kept_of buffer.old from end }
{
    let last = end.min(buffer.len());
    if from < last {
        buffer.copy_within(from..last, 0);
    }
}
