//! A source whose reads are watched, for example to show progress.
ghost use Rattle.std.specs.Prelude.{◌≡◌};

use warc_frame::{ReadFault, Source};

/// Sees each read of a source, when it has ended.
pub trait Watcher {
    /// Bytes were read at an offset.
    fn see(&self, at: u64, bytes: &[u8]);
}

/// Passes each read on, and lets it be seen. Contracts see the source alone.
#[derive(Drop)]
pub struct WatchedSource<'a, S, W> {
    source: S,
    watcher: &'a W,
}

impl<'a, S: Source, W: Watcher> WatchedSource<'a, S, W> {
    /// This source, whose reads this watcher sees.
    pub fn new(source: S, watcher: &'a W) -> WatchedSource<'a, S, W>
        ensures { result.source ≡ source }
    {
        WatchedSource { source, watcher }
    }
}

impl<'a, S: Source, W: Watcher> Source for WatchedSource<'a, S, W> {
    ghost seen = { λ w. S.seen w.source };

    /// It returns what the source returns.
    fn read_at(&mut self, at: u64, buf: &mut [u8]) -> Result<usize, ReadFault> {
        let answer = self.source.read_at(at, buf);
        if let Ok(n) = answer {
            self.watcher.see(at, &buf[..n]);
        }
        answer
    }
}
