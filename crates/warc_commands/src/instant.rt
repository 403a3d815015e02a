//! The command that prints the instant of a date.
ghost use Rattle.std.specs.Prelude.{◌≡◌, ◌∷◌, [], codes};
ghost use Rattle.std.specs.List.{concat};
ghost use Rattle.warc_commands.specs.Devices.{outputs, used};
ghost use Rattle.warc_commands.specs.Instants.{InstantEnds, IsInstantShown, instant_line};
ghost use Rattle.warc_frame.specs.Effects.{Puts, SendsText};
ghost use Rattle.warc_commands.specs.Words.{ByWord, read_moment};

use crate::console::{Console, Ended, Input};
use crate::words::read_moment;
use warc_arguments::Status;
use warc_frame::{OutBuffer, OutFault, SendFault, Sink, put_all};
use warc_replay::{date_front, date_rest};

/// Adds a line in two parts to the output.
fn put_parts<'a, W: Sink>(
    front: &'a [u8],
    rest: &'a [u8],
    buffer: &mut OutBuffer,
    out: &mut W,
) -> Result<(), SendFault>
    ensures { Puts (W.seen out.old) (W.seen out.new) buffer.old buffer.new result
        (concat (front.now ∷ rest.now ∷ codes "\n" ∷ [])) }
{
    put_all(&[front, rest, b"\n"], buffer, out)
}

/// Writes the line of a date: its instant in full.
fn send_instant<W: Sink>(date: &[u8], out: &mut W) -> Result<(), OutFault>
    ensures { SendsText (W.seen out.old) (W.seen out.new) result (instant_line date.now) }
{
    let front = date_front(date);
    let mut buffer = OutBuffer::new();
    put_parts(front, date_rest(front.len()), &mut buffer, out)?;
    buffer.flush(out)?;
    Ok(())
}

impl<W: Sink, E: Sink> Console<W, E> {
    /// Writes the instant of the date that a word is. Nothing is read.
    pub(crate) fn instant<S: Input>(&mut self, date: &str, source: S) -> Ended<S>
        ensures ends { ByWord (λ instant. InstantEnds date.now) (read_moment date.now)
            (used (S.seen source) W.seen E.seen self.old) (used (S.seen result.1) W.seen E.seen self.new) result.0 }

        // The source still holds what it held.
        ensures kept { (S.seen result.1).holds ≡ (S.seen source).holds }
    {
        match read_moment(date) {
            Ok(_) => (self.show_instant(date.as_bytes()), source),
            Err(fault) => (self.err.refuse_word(fault), source),
        }
    }

    /// Writes the instant of a date.
    fn show_instant(&mut self, date: &[u8]) -> Status
        ensures { IsInstantShown date.now (outputs W.seen E.seen self.old) (outputs W.seen E.seen self.new) result }
    {
        match send_instant(date, &mut self.out) {
            Ok(()) => Status::Done,
            Err(fault) => self.err.fail(fault),
        }
    }
}
