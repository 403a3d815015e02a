//! The command that says what a number that the program prints means.
ghost use Rattle.std.specs.Prelude.{◌≡◌};
ghost use Rattle.warc_arguments.specs.Explanations.{explained};
ghost use Rattle.warc_commands.specs.Devices.{used};
ghost use Rattle.warc_commands.specs.Explaining.{ExplainEnds};

use crate::console::{Console, Ended, Input};
use warc_arguments::{Status, explanation_of};
use warc_frame::Sink;

impl<W: Sink, E: Sink> Console<W, E> {
    /// Writes what a number means, and what to do. Nothing is read.
    pub(crate) fn explain<S: Input>(&mut self, number: &str, source: S) -> Ended<S>
        ensures ends { ExplainEnds (explained number.now) (used (S.seen source) W.seen E.seen self.old)
            (used (S.seen result.1) W.seen E.seen self.new) result.0 }

        // The source still holds what it held.
        ensures kept { (S.seen result.1).holds ≡ (S.seen source).holds }
    {
        match explanation_of(number) {
            Some(text) => (self.show(text), source),
            None => {
                self.err.report("warc: bad number\n");
                (Status::Failed, source)
            }
        }
    }
}
