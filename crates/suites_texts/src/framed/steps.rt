//! The steps of a decoder.

use std::alloc::{AllocError, Allocator, Global};
use suites_script::Case;
use suites_texts_parsed::{Attempt, say, say_line};
use warc_frame::{Decoder, Event, Fault, FaultKind, MAX_ARCHIVE, Version};
use warc_vectors::RefusingAllocator;

/// What a step reports, with the number of a head's fields in their place.
#[derive(Clone, Copy, PartialEq, Eq)]
enum Step {
    More,
    Head(Version, usize, u64),
    Part(usize, usize),
    End,
}

/// What an event reports.
fn step_of<A: Allocator>(event: Event<A>) -> Step {
    match event {
        Event::More => Step::More,
        Event::Head(version, fields, len) => Step::Head(version, fields.len(), len),
        Event::Part(first, end) => Step::Part(first, end),
        Event::End => Step::End,
    }
}

/// How many bytes of a piece a step takes, and what it reports.
fn take<A: Allocator + Copy>(
    decoder: &mut Decoder<A>,
    piece: &[u8],
) -> Result<(usize, Step), Fault> {
    match decoder.step(piece) {
        Ok((taken, event)) => Ok((taken, step_of(event))),
        Err(fault) => Err(fault),
    }
}

/// Adds how many bytes a step takes, and what it reports.
fn say_step(
    alloc: Global,
    answer: &mut Vec<u8>,
    step: Result<(usize, Step), Fault>,
) -> Result<(), AllocError> {
    let reported = match step {
        Ok((taken, Step::More)) => format!(in alloc; "{taken} taken, more")?,
        Ok((taken, Step::Head(version, fields, block))) => {
            format!(in alloc; "{taken} taken, a head of {version}, {fields} fields, block {block}")?
        }
        Ok((taken, Step::Part(first, end))) => {
            format!(in alloc; "{taken} taken, of the block {first} to {end}")?
        }
        Ok((taken, Step::End)) => format!(in alloc; "{taken} taken, the end")?,
        Err(fault) => format!(in alloc; "{fault}")?,
    };
    say(alloc, answer, &reported)
}

/// Adds where a decoder is, and what it reports if nothing follows.
fn say_end(alloc: Global, answer: &mut Vec<u8>, decoder: &Decoder) -> Result<(), AllocError> {
    let position = decoder.position();
    let reported = match decoder.finish() {
        Ok(()) => format!(in alloc; "; at {position} whole")?,
        Err(fault) => format!(in alloc; "; at {position} {fault}")?,
    };
    say_line(alloc, answer, &reported)
}

/// Adds what a step reports, and what a decoder reports then.
fn say_piece(
    alloc: Global,
    answer: &mut Vec<u8>,
    decoder: &mut Decoder,
    piece: &[u8],
) -> Result<(), AllocError> {
    let step = take(decoder, piece);
    say_step(alloc, answer, step)?;
    say_end(alloc, answer, decoder)
}

/// Adds what the steps of a decoder tell that begins where the second word says; each is given the text from one of
/// the words after it to before the next.
pub(crate) fn say_steps(
    alloc: Global,
    case: &Case<'_>,
    answer: &mut Vec<u8>,
    text: &[u8],
) -> Result<(), AllocError> {
    let mut decoder = Decoder::new(alloc, case.number(1).min(MAX_ARCHIVE));
    for pair in 1..10usize {
        if !case.word(2 * pair).is_empty() {
            let (from, to) = (case.number(2 * pair), case.number(2 * pair + 1));
            let piece = text.get(from as usize..to as usize).unwrap_or(b"");
            say_piece(alloc, answer, &mut decoder, piece)?;
        }
    }
    Ok(())
}

/// How many bytes of a text are taken one by one, each by a step that reports nothing.
fn count_taken(decoder: &mut Decoder, text: &[u8]) -> usize {
    for (count, byte) in text.iter().enumerate() {
        if take(decoder, &[*byte]) != Ok((1, Step::More)) {
            return count;
        }
    }
    text.len()
}

/// Adds what a decoder reports that is given as many bytes of a text as the second word says, then each byte after them
/// alone, then a byte, nothing, and two ends of lines.
pub(crate) fn say_letters(
    alloc: Global,
    case: &Case<'_>,
    answer: &mut Vec<u8>,
    text: &[u8],
) -> Result<(), AllocError> {
    let (front, back) = text.split_at(text.len().min(case.number(1) as usize));
    let mut decoder = Decoder::new(alloc, 0);
    say_piece(alloc, answer, &mut decoder, front)?;
    let count = count_taken(&mut decoder, back);
    let reported = format!(in alloc; "{count} more of 1 byte")?;
    say(alloc, answer, &reported)?;
    say_end(alloc, answer, &decoder)?;
    for piece in [b"a".as_slice(), b"", b"\r\n\r\n"] {
        say_piece(alloc, answer, &mut decoder, piece)?;
    }
    Ok(())
}

/// A text in two pieces, which a decoder is given that begins at 5.
#[derive(Clone, Copy)]
pub(crate) struct Stepping<'a>(pub(crate) &'a [u8]);

/// The fault that a text in two pieces is refused with.
fn reported_of_two<A: Allocator + Copy>(decoder: &mut Decoder<A>, text: &[u8]) -> Option<Fault> {
    let (front, back) = text.split_at(100.min(text.len()));
    match take(decoder, front) {
        Ok(_) => take(decoder, back).err(),
        Err(fault) => Some(fault),
    }
}

impl Attempt for Stepping<'_> {
    fn refused_at(&self, alloc: Global, number: u64) -> Option<bool> {
        let heap = RefusingAllocator::new(alloc, number);
        let mut decoder = Decoder::new(&heap, 5);
        let reported = reported_of_two(&mut decoder, self.0);
        if !heap.has_refused() {
            return reported.is_none().then_some(false);
        }
        let is_same = take(&mut decoder, self.0).err() == reported
            && decoder.finish().err() == reported;
        (reported == Some(FaultKind::Memory.at(5)) && is_same).then_some(true)
    }
}
