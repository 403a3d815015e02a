//! The command that gives the body of a capture by its position, or what is stored of it, coded or not.
ghost use Rattle.std.specs.Prelude.{◌≡◌, ◌++◌, ℕ, List, codes, map};
ghost use Rattle.std.specs.List.{concat};
ghost use Rattle.warc_answer.specs.Seen.{stored_seen};
ghost use Rattle.warc_answer.specs.Stored.{answer_with};
ghost use Rattle.warc_replay.specs.Outcomes.{answer_seen};
ghost use Rattle.warc_commands.specs.Devices.{outputs, used};
ghost use Rattle.warc_commands.specs.Program.{Reports, answer_text};
ghost use Rattle.warc_commands.specs.Reads.{ReadsTimes};
ghost use Rattle.warc_commands.specs.Runs.{Runs, run_seen};
ghost use Rattle.warc_commands.specs.Stored.{StoredEnds, coded_text, stored_line, stored_status, GivenAs};
ghost use Rattle.warc_commands.specs.Bodies.{BodyEnds, body_line, body_status};
ghost use Rattle.warc_commands.specs.Words.{ByWord, read_position};

use crate::console::{Console, Heap, Input, Reporter, Run};
use crate::replays::line_of_answer;
use crate::words::read_position;
use std::alloc::Allocator;
use warc::{Archive, BodyFault, StoredAt};
use warc_answer::Answer;
use warc_arguments::Status;
use warc_frame::{OutBuffer, Sink, put_all};

impl<W: Sink, E: Sink> Console<W, E> {
    /// Writes the body that the capture at a position gives, which a word says; or what is stored of its origin.
    pub(crate) fn body<A: Heap, S: Input>(
        &mut self,
        alloc: A,
        position: &str,
        stored: bool,
        source: S,
    ) -> Run<S>
        ensures { Runs (ByWord (GivenAs stored) (read_position position.now)) (ReadsTimes 3)
            (used (S.seen source) W.seen E.seen self.old) (outputs W.seen E.seen self.new) (run_seen S.seen result) }
    {
        let position = match read_position(position) {
            Ok(position) => position,
            Err(fault) => return Ok((self.err.refuse_word(fault), source)),
        };
        if stored {
            return self.stored_at(alloc, position, source);
        }
        self.body_at(alloc, position, source)
    }

    /// Writes the body that the capture at a position gives.
    fn body_at<A: Heap, S: Input>(&mut self, alloc: A, position: usize, source: S) -> Run<S>
        ensures { Runs (BodyEnds position) (ReadsTimes 3)
            (used (S.seen source) W.seen E.seen self.old) (outputs W.seen E.seen self.new) (run_seen S.seen result) }
    {
        let mut archive = Archive::open(alloc, source)?;
        let answer = archive.replay_at(position, &mut self.out);
        Ok((self.err.report_body(answer), archive.into_source()))
    }

    /// Writes what is stored of the origin of the capture at a position.
    fn stored_at<A: Heap, S: Input>(&mut self, alloc: A, position: usize, source: S) -> Run<S>
        ensures { Runs (StoredEnds position) (ReadsTimes 3)
            (used (S.seen source) W.seen E.seen self.old) (outputs W.seen E.seen self.new) (run_seen S.seen result) }
    {
        let mut archive = Archive::open(alloc, source)?;
        let answer = archive.stored_to(position, &mut self.out);
        Ok((self.err.report_stored(&answer), archive.into_source()))
    }
}

impl<E: Sink> Reporter<E> {
    /// Reports what is said of a body, or why it isn't written, or not whole, and answers the status.
    pub(crate) fn report_body(&mut self, answer: Result<Answer, BodyFault>) -> Status
        ensures reported { Reports (body_line answer) (E.seen self.old.sink) (E.seen self.new.sink) }
        ensures status { result ≡ body_status answer }
    {
        match answer {
            Ok(answer) => self.report_replay(Ok(answer)),
            Err(BodyFault::NoRecord) => {
                self.report("warc: E1 NoRecord\n");
                Status::Found
            }
            Err(BodyFault::NoCapture) => {
                self.report("warc: E2 NoCapture\n");
                Status::Found
            }
            Err(BodyFault::Replay(fault)) => self.report_replay(Err(fault)),
        }
    }

    /// Reports what is said of what is stored, or why it isn't written, or not whole, and answers the status.
    pub(crate) fn report_stored<A: Allocator>(
        &mut self,
        answer: &Result<StoredAt<A>, BodyFault>,
    ) -> Status
        ensures reported { Reports (stored_line (answer_seen answer.now))
            (E.seen self.old.sink) (E.seen self.new.sink) }
        ensures status { result ≡ stored_status (answer_seen answer.now) }
    {
        match answer {
            Ok(at) => {
                self.report_stored_line(at);
                Status::Done
            }
            Err(fault) => self.report_body(Err(*fault)),
        }
    }

    /// Reports what is said of what is stored.
    fn report_stored_line<A: Allocator>(&mut self, at: &StoredAt<A>)
        ensures { Reports (answer_text (answer_with at.now.path (stored_seen at.now.stored))
            ++ coded_text at.now.stored.coded at.now.stored.codings.items ++ codes "\n") (E.seen self.old.sink)
            (E.seen self.new.sink) }
    {
        let line = line_of_answer(&Answer {
            chosen: at.path.chosen,
            given: at.path.given,
            status: at.stored.status,
            truncated: at.stored.truncated,
            length: at.stored.length,
        });
        if at.stored.coded {
            self.report_coded(line.as_str(), &at.stored.codings);
        } else {
            self.report(line.as_str());
        }
    }

    /// Writes a line, and before its end what is said of a coded body.
    fn report_coded(&mut self, line: &str, codings: &[u8])
        ensures { (text : List ℕ) → line.now ≡ text ++ codes "\n" →
            Reports (text ++ (codes " coded" ++ codings.now) ++ codes "\n") (E.seen self.old.sink)
            (E.seen self.new.sink) }
    {
        self.report_all(&[without_end(line.as_bytes()), b" coded", codings, b"\n"]);
    }

    /// Writes pieces of a line, as far as the sink takes them.
    fn report_all(&mut self, pieces: &[&[u8]])
        ensures { Reports (concat (map (λ p. p.now) pieces.now)) (E.seen self.old.sink) (E.seen self.new.sink) }
    {
        let mut buffer = OutBuffer::new();
        match put_all(pieces, &mut buffer, &mut self.sink) {
            Ok(()) => match buffer.flush(&mut self.sink) {
                Ok(()) => {}
                Err(_) => {}
            },
            Err(_) => {}
        }
    }
}

/// A line without the byte that ends it.
fn without_end(line: &[u8]) -> &[u8]
    ensures { (text : List ℕ) → line.now ≡ text ++ codes "\n" → result.now ≡ text }
{
    if line.is_empty() {
        line
    } else {
        &line[..line.len() - 1]
    }
}
