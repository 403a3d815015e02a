//! Replays of joined blocks: what is answered and what goes out, and what where a read or a write fails.

use crate::stored::{Block, Named, stored};
use crate::text::{fault_of, say};
use std::alloc::{AllocError, Global};
use suites_script::{Case, Trial};
use warc_answer::{Answer, Path, ReplayFault, is_http_response, replay_joined};
use warc_frame::{MemSink, read_one};
use warc_record::{Typed, type_head};
use warc_segment::Place;
use warc_value::{Wanted, digest};
use warc_vectors::{Break, BrokenSource, BrokenWriter};

/// The heads of origins by their names, that of the origin, and its blocks.
#[derive(Drop)]
pub(crate) struct Replays {
    heads: Vec<Named>,
    head: Vec<u8>,
    blocks: Vec<Block>,
}

const PATH: Path = Path {
    chosen: 1,
    given: 0,
};

/// What is there before a body.
const BEFORE: &[u8] = b"before ";

/// More reads and writes than any case makes.
const MOST: u64 = 5000;

/// How many bytes a read gives at most, and the number of the read that fails, counted from 1; at 0 none does.
#[derive(Clone, Copy)]
struct Reads {
    most: usize,
    number: u64,
}

const WHOLE: Reads = Reads {
    most: usize::MAX,
    number: 0,
};

/// What a replay to a sink answers.
fn replay(
    source: &mut BrokenSource,
    origin: &Typed<'_>,
    places: &[Place],
    sink: &mut MemSink,
) -> Result<Answer, ReplayFault> {
    replay_joined(source, PATH, is_http_response(origin), places, sink)
}

/// What a replay to a writer answers.
fn replay_to_writer(
    source: &mut BrokenSource,
    origin: &Typed<'_>,
    places: &[Place],
    writer: &mut BrokenWriter,
) -> Result<Answer, ReplayFault> {
    replay_joined(source, PATH, is_http_response(origin), places, writer)
}

/// Reports what a replay to a sink that holds other bytes answers, and what goes out after them.
fn send(
    alloc: Global,
    source: &mut BrokenSource,
    origin: &Typed<'_>,
    places: &[Place],
    blocks: &[Block],
) -> Result<Vec<u8>, AllocError> {
    let mut sink = MemSink::new(BEFORE.to_vec(alloc)?);
    let answer = replay(source, origin, places, &mut sink);
    match sink.bytes().strip_prefix(BEFORE) {
        Some(body) => say(alloc, blocks, answer, body),
        None => b"what was there before is changed\n".to_vec(alloc),
    }
}

/// Reports what `send` reports, if the blocks are read as `reads` says.
fn read_and_send(
    alloc: Global,
    origin: &Typed<'_>,
    blocks: &[Block],
    reads: Reads,
) -> Result<Vec<u8>, AllocError> {
    let (bytes, places) = stored(alloc, blocks)?;
    let mut source = BrokenSource::new(bytes, reads.most.max(1), reads.number);
    send(alloc, &mut source, origin, &places, blocks)
}

/// Reports what is answered where one write to a writer breaks, each being of one byte.
fn write_out(
    alloc: Global,
    origin: &Typed<'_>,
    blocks: &[Block],
    writer: &mut BrokenWriter,
) -> Result<Vec<u8>, AllocError> {
    let (bytes, places) = stored(alloc, blocks)?;
    let mut source = BrokenSource::new(bytes, usize::MAX, 0);
    let answer = replay_to_writer(&mut source, origin, &places, writer);
    say(alloc, blocks, answer, writer.bytes())
}

/// Reports what `write_out` reports, if the write of a number breaks.
fn break_write(
    alloc: Global,
    origin: &Typed<'_>,
    blocks: &[Block],
    how: Break,
    number: u64,
) -> Result<Vec<u8>, AllocError> {
    let mut writer = BrokenWriter::new(alloc, number, how).taking(1);
    write_out(alloc, origin, blocks, &mut writer)
}

/// What fails: a read, of which each gives this many bytes at most, or a write.
#[derive(Clone, Copy)]
enum Failing {
    Reads(usize),
    Writes(Break),
}

/// What is answered if the read or write with this number fails.
fn fail_at(
    alloc: Global,
    origin: &Typed<'_>,
    blocks: &[Block],
    failing: Failing,
    number: u64,
) -> Result<Vec<u8>, AllocError> {
    match failing {
        Failing::Reads(most) => read_and_send(alloc, origin, blocks, Reads { most, number }),
        Failing::Writes(how) => break_write(alloc, origin, blocks, how, number),
    }
}

/// Adds what is answered if one read or write fails, from the first one to the first that isn't made. The same answer
/// twice in a row is added once.
fn fail_each(
    alloc: Global,
    origin: &Typed<'_>,
    blocks: &[Block],
    failing: Failing,
    answer: &mut Vec<u8>,
) -> Result<(), AllocError> {
    let whole = fail_at(alloc, origin, blocks, failing, 0)?;
    let mut last = Vec::new(alloc);
    for number in 1..MOST {
        let reported = fail_at(alloc, origin, blocks, failing, number)?;
        if reported != last {
            answer.extend_from_slice(format!(in alloc; "from {number} on: ")?.as_bytes())?;
            answer.extend_from_slice(&reported)?;
            if !reported.ends_with(b"\n") {
                answer.push(b'\n')?;
            }
        }
        if reported == whole {
            return Ok(());
        }
        last = reported;
    }
    answer.extend_from_slice(b"there are more of them\n")
}

/// Reports what is answered, which is the same with reads of 1 byte, of 7 bytes and of all.
fn replay_in_pieces(
    alloc: Global,
    origin: &Typed<'_>,
    blocks: &[Block],
    answer: &mut Vec<u8>,
) -> Result<(), AllocError> {
    let whole = read_and_send(alloc, origin, blocks, WHOLE)?;
    answer.extend_from_slice(&whole)?;
    for most in [1usize, 7] {
        let pieces = read_and_send(alloc, origin, blocks, Reads { most, ..WHOLE })?;
        if pieces != whole {
            answer.extend_from_slice(b"\nbut in pieces: ")?;
            answer.extend_from_slice(&pieces)?;
        }
    }
    Ok(())
}

/// Reports what is answered for a place of a block in a source of these bytes.
fn replay_place(
    alloc: Global,
    origin: &Typed<'_>,
    case: &Case<'_>,
    answer: &mut Vec<u8>,
) -> Result<(), AllocError> {
    let place = Place {
        start: case.number(1),
        len: case.number(2),
        wanted: Wanted::Unchecked,
        truncated: false,
    };
    let mut source = BrokenSource::new(case.given().to_vec(alloc)?, usize::MAX, 0);
    answer.extend_from_slice(&send(alloc, &mut source, origin, &[place], &[])?)
}

/// Answers a case about an origin with this head.
fn answer_about(
    alloc: Global,
    origin: &Typed<'_>,
    blocks: &[Block],
    case: &Case<'_>,
    answer: &mut Vec<u8>,
) -> Result<(), AllocError> {
    match (case.text(0), case.text(1)) {
        ("replay", _) => replay_in_pieces(alloc, origin, blocks, answer),
        ("replay-place", _) => replay_place(alloc, origin, case, answer),
        ("failing-reads", "all") => {
            fail_each(alloc, origin, blocks, Failing::Reads(usize::MAX), answer)
        }
        ("failing-reads", _) => {
            let most = case.number(1) as usize;
            fail_each(alloc, origin, blocks, Failing::Reads(most), answer)
        }
        ("failing-writes", _) => {
            fail_each(alloc, origin, blocks, Failing::Writes(Break::Fails), answer)
        }
        ("empty-writes", _) => {
            fail_each(
                alloc,
                origin,
                blocks,
                Failing::Writes(Break::Takes(0)),
                answer,
            )
        }
        _ => answer.extend_from_slice(b"no such case\n"),
    }
}

impl Replays {
    /// No heads and no blocks.
    pub fn new(alloc: Global) -> Replays {
        Replays {
            heads: Vec::new(alloc),
            head: Vec::new(alloc),
            blocks: Vec::new(alloc),
        }
    }

    /// Gives a record's text a name.
    fn name(&mut self, alloc: Global, case: &Case<'_>) -> Result<(), AllocError> {
        self.heads.push(Named {
            name: case.word(1).to_vec(alloc)?,
            text: case.given().to_vec(alloc)?,
        })?;
        Ok(())
    }

    /// Takes the head of a name as that of the origin, which has no blocks yet.
    fn begin(&mut self, alloc: Global, name: &[u8]) -> Result<(), AllocError> {
        self.blocks.clear();
        for head in &self.heads {
            if head.name.as_slice() == name {
                self.head = head.text.to_vec(alloc)?;
            }
        }
        Ok(())
    }

    /// Adds a block to the origin.
    fn add(&mut self, alloc: Global, case: &Case<'_>) -> Result<(), AllocError> {
        let wanted = match case.text(1) {
            "good" => Wanted::Sha1(digest(case.given())),
            "bad" => Wanted::Sha1(digest(b"another block")),
            _ => Wanted::Unchecked,
        };
        self.blocks.push(Block {
            bytes: case.given().to_vec(alloc)?,
            wanted,
            truncated: case.text(2) == "truncated",
        })?;
        Ok(())
    }

    /// Answers a case about the origin.
    fn answer_case(
        &self,
        alloc: Global,
        case: &Case<'_>,
        answer: &mut Vec<u8>,
    ) -> Result<(), AllocError> {
        let Ok((framed, _)) = read_one(alloc, &self.head) else {
            return answer.extend_from_slice(b"no head\n");
        };
        match type_head(framed.fields()) {
            Ok(origin) => answer_about(alloc, &origin, &self.blocks, case, answer),
            Err(_) => answer.extend_from_slice(b"no head\n"),
        }
    }
}

/// Reports the text of the fault that a case names.
fn say_fault(alloc: Global, case: &Case<'_>, answer: &mut Vec<u8>) -> Result<(), AllocError> {
    match fault_of(case.text(1), case.optional_number(2)) {
        Some(fault) => answer.extend_from_slice(format!(in alloc; "{fault}\n")?.as_bytes()),
        None => answer.extend_from_slice(b"no such fault\n"),
    }
}

impl Trial for Replays {
    fn answer(
        &mut self,
        alloc: Global,
        case: &Case<'_>,
        answer: &mut Vec<u8>,
    ) -> Result<(), AllocError> {
        match case.text(0) {
            "head" => self.name(alloc, case),
            "stored" => self.begin(alloc, case.word(1)),
            "block" => self.add(alloc, case),
            "fault" => say_fault(alloc, case, answer),
            _ => self.answer_case(alloc, case, answer),
        }
    }
}
