//! The commands that give the body of the capture of a URI as of a date, and the lines that they write.
ghost use Rattle.std.specs.Prelude.{◌≡◌, ◌≤◌, ◌++◌, codes, length};
ghost use Rattle.warc_answer.specs.ReasonText.{reason_text};
ghost use Rattle.warc_commands.specs.Devices.{outputs, used};
ghost use Rattle.warc_commands.specs.Program.{ReplayEnds, Reports, answer_text, number_or_dash, replay_line, replay_status, reported_line, yes_or_no};
ghost use Rattle.warc_commands.specs.Reads.{ReadsTimes};
ghost use Rattle.warc_commands.specs.Runs.{Runs, run_seen};
ghost use Rattle.warc_commands.specs.Stored.{DatedAs, StoredReplayEnds};
ghost use Rattle.warc_commands.specs.Words.{ByUri, read_uri};

use crate::console::{Console, Heap, Input, LINE, Reporter, Run};
use crate::words::{read_moment, read_uri};
use arrayvec::ArrayString;
use itoa::Buffer;
use warc::Archive;
use warc_answer::{Answer, Reason, ReplayFault};
use warc_arguments::Status;
use warc_frame::Sink;
use warc_value::Moment;

/// The date as of which a body is wanted, and whether it is wanted as it is stored.
#[derive(Clone, Copy)]
pub(crate) struct AsOf<'a> {
    pub(crate) date: &'a str,
    pub(crate) stored: bool,
}

/// Which page is wanted: its URI, or the hexadecimal digits of it, and as of when.
#[derive(Clone, Copy)]
pub(crate) struct Page<'a> {
    pub(crate) uri: &'a str,
    pub(crate) in_hex: bool,
    pub(crate) as_of: AsOf<'a>,
}

impl<W: Sink, E: Sink> Console<W, E> {
    /// Writes the body for the URI that a word names, as of the first instant of a date.
    pub(crate) fn replay<A: Heap, S: Input>(&mut self, alloc: A, page: Page, source: S) -> Run<S>
        ensures { Runs (ByUri (DatedAs page.entry.as_of.stored page.entry.as_of.date.now) page.entry.in_hex
            (read_uri page.entry.in_hex page.entry.uri.now)) (ReadsTimes 3)
            (used (S.seen source) W.seen E.seen self.old) (outputs W.seen E.seen self.new) (run_seen S.seen result) }
    {
        match read_uri(alloc, page.in_hex, page.uri) {
            Ok(uri) => self.replay_of(alloc, uri.bytes(), page.as_of, source),
            Err(fault) => Ok((self.err.refuse_word(fault), source)),
        }
    }

    /// Writes the body for a URI as of the first instant of a date.
    fn replay_of<A: Heap, S: Input>(
        &mut self,
        alloc: A,
        uri: &[u8],
        as_of: AsOf,
        source: S,
    ) -> Run<S>
        ensures { Runs (DatedAs as_of.entry.stored as_of.entry.date.now uri.now) (ReadsTimes 3)
            (used (S.seen source) W.seen E.seen self.old) (outputs W.seen E.seen self.new) (run_seen S.seen result) }
    {
        let moment = match read_moment(as_of.date) {
            Ok(moment) => moment,
            Err(fault) => return Ok((self.err.refuse_word(fault), source)),
        };
        if as_of.stored {
            return self.stored_as_of(alloc, uri, &moment, source);
        }
        self.replay_as_of(alloc, uri, &moment, source)
    }

    /// Writes the body for a URI as of a moment.
    fn replay_as_of<A: Heap, S: Input>(
        &mut self,
        alloc: A,
        uri: &[u8],
        moment: &Moment,
        source: S,
    ) -> Run<S>
        ensures { Runs (ReplayEnds uri.now moment.now) (ReadsTimes 3)
            (used (S.seen source) W.seen E.seen self.old) (outputs W.seen E.seen self.new) (run_seen S.seen result) }
    {
        let mut archive = Archive::open(alloc, source)?;
        let answer = archive.replay(uri, moment, &mut self.out);
        Ok((self.err.report_replay(answer), archive.into_source()))
    }

    /// Writes what is stored for a URI as of a moment: of the origin of the capture that is chosen.
    fn stored_as_of<A: Heap, S: Input>(
        &mut self,
        alloc: A,
        uri: &[u8],
        moment: &Moment,
        source: S,
    ) -> Run<S>
        ensures { Runs (StoredReplayEnds uri.now moment.now) (ReadsTimes 3)
            (used (S.seen source) W.seen E.seen self.old) (outputs W.seen E.seen self.new) (run_seen S.seen result) }
    {
        let mut archive = Archive::open(alloc, source)?;
        match archive.chosen(uri, moment) {
            Ok(position) => {
                let answer = archive.stored_to(position, &mut self.out);
                Ok((self.err.report_stored(&answer), archive.into_source()))
            }
            Err(unfound) => {
                let reason = Reason::NotFound(unfound);
                let status = self.err.report_replay(Err(ReplayFault::Reason(reason)));
                Ok((status, archive.into_source()))
            }
        }
    }
}

impl<E: Sink> Reporter<E> {
    /// Reports what is said of a body, or why it isn't written, or not whole, and answers the status.
    pub(crate) fn report_replay(&mut self, answer: Result<Answer, ReplayFault>) -> Status
        ensures reported { Reports (replay_line answer) (E.seen self.old.sink) (E.seen self.new.sink) }
        ensures status { result ≡ replay_status answer }
    {
        match answer {
            Ok(answer) => {
                self.report(line_of_answer(&answer).as_str());
                Status::Done
            }
            Err(ReplayFault::Reason(reason)) => {
                self.report(line_of_reason(reason).as_str());
                Status::Found
            }
            Err(ReplayFault::Out(fault)) => self.fail(fault),
        }
    }
}

/// A status in decimal digits, or a dash.
fn status_text(status: Option<u16>, digits: &mut Buffer) -> &str
    ensures text { result.now ≡ number_or_dash status }
    ensures short { length result.now ≤ 5 }
{
    match status {
        Some(status) => digits.format(status),
        None => "-",
    }
}

/// What a mark says.
fn mark_text(mark: bool) -> &'static str
    ensures text { result.now ≡ yes_or_no mark }
    ensures short { length result.now ≤ 3 }
{
    if mark { "yes" } else { "no" }
}

/// The line of what is said of a body.
pub(crate) fn line_of_answer(answer: &Answer) -> ArrayString<LINE>
    ensures { result.bytes ≡ answer_text answer.now ++ codes "\n" }
{
    let mut digits = Buffer::new();
    let mut line = ArrayString::new();
    line.push_str("chosen ");
    line.push_str(digits.format(answer.chosen));
    line.push_str(" given ");
    line.push_str(digits.format(answer.given));
    line.push_str(" status ");
    line.push_str(status_text(answer.status, &mut digits));
    line.push_str(" truncated ");
    line.push_str(mark_text(answer.truncated));
    line.push_str(" length ");
    line.push_str(digits.format(answer.length));
    line.push_str("\n");
    line
}

/// The line that says why there is no body.
fn line_of_reason(reason: Reason) -> ArrayString<LINE>
    ensures { result.bytes ≡ reported_line (reason_text reason) }
{
    let (name, gap, number) = reason.parts();
    let mut digits = Buffer::new();
    let mut line = ArrayString::new();
    line.push_str("warc: ");
    line.push_str(name);
    line.push_str(gap);
    if let Some(number) = number {
        line.push_str(digits.format(number));
    }
    line.push_str("\n");
    line
}
