//! The words of a command line that say a position, a date, a size or a URI, and the line about one that doesn't.
ghost use Rattle.std.specs.Prelude.{◌≡◌, option_map};
ghost use Rattle.std.specs.Result.{result_map_both};
ghost use Rattle.warc_commands.specs.Program.{Reports, reported_line};
ghost use Rattle.warc_commands.specs.Words.{ReadsWord, position_of, read_listed, read_moment, read_position, read_size, read_uri, size_of, uri_bytes, word_fault_text};

use crate::console::{Heap, Reporter};
use std::alloc::Allocator;
use warc_arguments::{Status, UriFault, bytes_of};
use warc_field::decimal;
use warc_frame::{MAX_ARCHIVE, MAX_BLOCK, OutFault, Sink};
use warc_value::{Moment, read_date};

/// Why a word doesn't say what it should.
#[derive(Clone, Copy, Debug, PartialEq, Eq)]
pub(crate) enum WordFault {
    /// It isn't a position.
    Position,
    /// It isn't a date.
    Date,
    /// It isn't a size.
    Size,
    /// The number of its hexadecimal digits is odd, or one isn't a digit, or there is no word.
    Hex,
    /// An allocation failed.
    Memory,
}

impl From<UriFault> for WordFault {
    ghost use Rattle.std.specs.Prelude.{◌≡◌};
    ghost use Rattle.warc_commands.specs.Words.{fault_by};

    ghost from_gives = { λ fault word. word ≡ fault_by fault };

    fn from(fault: UriFault) -> WordFault {
        match fault {
            UriFault::Digits => WordFault::Hex,
            UriFault::Memory => WordFault::Memory,
        }
    }
}

/// The position that a word names: a number from 0 to 2^48.
pub(crate) fn position_of(word: &[u8]) -> Option<usize>
    ensures { result ≡ position_of word.now }
{
    match decimal(word) {
        Some(position) if position <= MAX_ARCHIVE => Some(position as usize),
        _ => None,
    }
}

/// Reads a word as a position.
pub(crate) fn read_position(word: &str) -> Result<usize, WordFault>
    ensures { result ≡ read_position word.now }
{
    position_of(word.as_bytes()).ok_or(WordFault::Position)
}

/// Reads a word as a date: the first instant of it.
pub(crate) fn read_moment(word: &str) -> Result<Moment, WordFault>
    ensures { result ≡ read_moment word.now }
{
    read_date(word.as_bytes()).ok_or(WordFault::Date)
}

/// How many bytes a segment is to have, by a word: a number from 1 to 2^40.
fn size_of(word: &[u8]) -> Option<u64>
    ensures { result ≡ size_of word.now }
{
    match decimal(word) {
        Some(size) if size > 0 && size <= MAX_BLOCK => Some(size),
        _ => None,
    }
}

/// Reads a word as the size of a segment.
pub(crate) fn read_size(word: &str) -> Result<u64, WordFault>
    ensures { result ≡ read_size word.now }
{
    size_of(word.as_bytes()).ok_or(WordFault::Size)
}

/// The URI that a word names: the word itself, or the bytes of its hexadecimal digits.
#[derive(Drop)]
pub(crate) enum Uri<'a, A: Allocator> {
    Word(&'a [u8]),
    Decoded(Vec<u8, A>),
}

impl<A: Allocator> Uri<'_, A> {
    /// Its bytes.
    pub(crate) fn bytes(&self) -> &[u8]
        ensures { result.now ≡ uri_bytes self.now }
    {
        match self {
            Uri::Word(text) => text,
            Uri::Decoded(bytes) => bytes.as_slice(),
        }
    }
}

/// Reads a word as a URI, or as the hexadecimal digits of one.
pub(crate) fn read_uri<A: Heap>(alloc: A, in_hex: bool, word: &str) -> Result<Uri<'_, A>, WordFault>
    ensures { ReadsWord in_hex (read_uri in_hex word.now) (result_map_both uri_bytes (λ e. e) result) }
{
    if in_hex {
        let bytes = bytes_of(alloc, word)?;
        return Ok(Uri::Decoded(bytes));
    }
    Ok(Uri::Word(word.as_bytes()))
}

/// Reads a word as a URI or as the digits of one, if there is a word. Digits have to be there.
pub(crate) fn read_listed<A: Heap>(
    alloc: A,
    in_hex: bool,
    word: Option<&str>,
) -> Result<Option<Uri<'_, A>>, WordFault>
    ensures { ReadsWord in_hex (read_listed in_hex (option_map (λ w. w.now) word.entry))
        (result_map_both (option_map uri_bytes) (λ e. e) result) }
{
    match word {
        Some(word) => Ok(Some(read_uri(alloc, in_hex, word)?)),
        None if in_hex => Err(WordFault::Hex),
        None => Ok(None),
    }
}

impl<E: Sink> Reporter<E> {
    /// Reports why a word doesn't say what it should, and returns the status.
    pub(crate) fn refuse_word(&mut self, fault: WordFault) -> Status
        ensures reported { Reports (reported_line (word_fault_text fault)) (E.seen self.old.sink)
            (E.seen self.new.sink) }
        ensures status { result ≡ Status.Failed }
    {
        match fault {
            WordFault::Position => self.stop("bad position"),
            WordFault::Date => self.stop("bad date"),
            WordFault::Size => self.stop("bad size"),
            WordFault::Hex => self.stop("bad hex"),
            WordFault::Memory => self.fail(OutFault::Memory(0)),
        }
    }
}
