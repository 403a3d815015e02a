//! A source without an end, of which nothing is known.
ghost use Rattle.std.specs.Prelude.{false, None};

use warc_frame::{ReadFault, Source, raise};

/// It gives bytes at any offset, as many as are asked for.
#[derive(Drop)]
pub(crate) struct EndlessSource {
    reads: u64,
    asked: u64,
}

impl EndlessSource {
    /// A source that nobody has read.
    pub(crate) fn new() -> EndlessSource {
        EndlessSource { reads: 0, asked: 0 }
    }

    /// How often it was read, and the offset that was asked for last.
    pub(crate) fn reads(&self) -> (u64, u64) {
        (self.reads, self.asked)
    }
}

impl Source for EndlessSource {
    ghost seen = { λ s. record {
      holds = None;
      faults = 0;
      reads = s.reads;
      asked = s.asked;
      watches = λ _. false;
      watched_reads = 0;
      next = None;
      jumps = 0;
    } };

    /// It never fails.
    fn read_at(&mut self, at: u64, buf: &mut [u8]) -> Result<usize, ReadFault> {
        self.reads = raise(self.reads);
        self.asked = at;
        buf.fill(b'a');
        Ok(buf.len())
    }
}
