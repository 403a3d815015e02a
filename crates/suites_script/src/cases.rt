//! One case of a script.

use crate::escapes::add_unescaped;
use memchr::memmem;
use std::alloc::{AllocError, Global};
use std::cell::Cell;

/// The words of a case, the text that is given with them, and the one that is wanted of them. What an answer asks for
/// is noted, so that a case holds nothing that no answer reads.
#[derive(Drop)]
pub struct Case<'a> {
    words: &'a [u8],
    given: Vec<u8>,
    wanted: Vec<u8>,
    /// How many of the first words were asked for.
    asked: Cell<usize>,
    has_read_given: Cell<bool>,
    /// Whether a word that is no number was asked for as one.
    has_misread: Cell<bool>,
    /// Whether a text that was to be replaced isn't there.
    lacks_old: Cell<bool>,
}

impl<'a> Case<'a> {
    /// A case of these words, of which nothing is wanted.
    pub(crate) fn new(alloc: Global, words: &'a [u8]) -> Case<'a> {
        Case {
            words,
            given: Vec::new(alloc),
            wanted: Vec::new(alloc),
            asked: Cell::new(0),
            has_read_given: Cell::new(false),
            has_misread: Cell::new(false),
            lacks_old: Cell::new(false),
        }
    }

    /// Adds a line that begins with a mark.
    pub(crate) fn add(&mut self, mark: u8, text: &[u8]) -> Result<(), AllocError> {
        match mark {
            b'|' => {
                add_unescaped(&mut self.given, text)?;
                self.given.extend_from_slice(b"\r\n")
            }
            b'+' => add_unescaped(&mut self.given, text),
            b'*' => self.add_often(text),
            b'>' => {
                add_unescaped(&mut self.wanted, text)?;
                self.wanted.extend_from_slice(b"\n")
            }
            _ => add_unescaped(&mut self.wanted, text),
        }
    }

    /// Adds a text as often as the number before it says.
    fn add_often(&mut self, text: &[u8]) -> Result<(), AllocError> {
        let digits = text.split(|byte| *byte == b' ').next().unwrap_or(b"");
        let text = text.get(digits.len() + 1..).unwrap_or(b"");
        for _ in 0..self.number_in(digits) {
            add_unescaped(&mut self.given, text)?;
        }
        Ok(())
    }

    /// All its words, with one blank between two.
    pub fn words(&self) -> &'a [u8] {
        self.asked.set(usize::MAX);
        self.words
    }

    /// The line of its words, for the report.
    pub(crate) fn line(&self) -> &'a [u8] {
        self.words
    }

    /// The word at an index; one of no bytes where there is none.
    pub fn word(&self, index: usize) -> &'a [u8] {
        let asked = self.asked.get().max(index.saturating_add(1));
        self.asked.set(asked);
        self.words
            .split(|byte| *byte == b' ')
            .nth(index)
            .unwrap_or(b"")
    }

    /// The word at an index as text; one of no bytes where there is none.
    pub fn text(&self, index: usize) -> &'a str {
        str::from_utf8(self.word(index)).unwrap_or("")
    }

    /// The word at an index as a number. A case fails whose word is none.
    pub fn number(&self, index: usize) -> u64 {
        self.number_in(self.word(index))
    }

    /// The word at an index as a number, and 0 if there is no such word. A case fails whose word isn't a number.
    pub fn optional_number(&self, index: usize) -> u64 {
        if self.word(index).is_empty() {
            0
        } else {
            self.number(index)
        }
    }

    /// The number that a word of the case, or of its text, is. The case fails where it is none.
    pub fn number_in(&self, word: &[u8]) -> u64 {
        match number_of(word) {
            Some(number) => number,
            None => {
                self.has_misread.set(true);
                0
            }
        }
    }

    /// The word at an index, whose escapes are the bytes that they mean.
    pub fn bytes(&self, alloc: Global, index: usize) -> Result<Vec<u8>, AllocError> {
        let mut bytes = Vec::new(alloc);
        add_unescaped(&mut bytes, self.word(index))?;
        Ok(bytes)
    }

    /// A text with the first of what the word at an index says replaced by what the next word says; nothing where it
    /// isn't there, and the case fails then.
    pub fn changed(
        &self,
        alloc: Global,
        index: usize,
        text: &[u8],
    ) -> Result<Option<Vec<u8>>, AllocError> {
        let old = self.bytes(alloc, index)?;
        let new = self.bytes(alloc, index.saturating_add(1))?;
        match around(text, &old) {
            Some((front, back)) => Ok(Some([front, new.as_slice(), back].concat(alloc)?)),
            None => {
                self.lacks_old.set(true);
                Ok(None)
            }
        }
    }

    /// The text that is given with it.
    pub fn given(&self) -> &[u8] {
        self.has_read_given.set(true);
        &self.given
    }

    /// Whether a text is given with it. This reads none of it.
    pub fn gives(&self) -> bool {
        !self.given.is_empty()
    }

    /// What is wrong with the case itself, now that it is answered.
    pub(crate) fn mistake(&self) -> Option<&'static [u8]> {
        if self.has_misread.get() {
            Some(b"a word is no number\n")
        } else if self.lacks_old.get() {
            Some(b"the text to replace isn't there\n")
        } else if self.gives() && !self.has_read_given.get() {
            Some(b"nobody reads the given lines\n")
        } else if self.count() > self.asked.get() {
            Some(b"a word too many\n")
        } else {
            None
        }
    }

    /// How many words it has.
    fn count(&self) -> usize {
        if self.words.is_empty() {
            0
        } else {
            self.words.split(|byte| *byte == b' ').count()
        }
    }

    /// The text that is wanted of it.
    pub(crate) fn wanted(&self) -> &[u8] {
        &self.wanted
    }
}

/// What is in a text before the first of another one, and after it. One of no bytes is nowhere.
fn around<'a>(text: &'a [u8], other: &[u8]) -> Option<(&'a [u8], &'a [u8])> {
    if other.is_empty() {
        return None;
    }
    let (front, back) = text.split_at(memmem::find(text, other)?);
    Some((front, back.strip_prefix(other)?))
}

/// The number that a word is, if it is one.
fn number_of(word: &[u8]) -> Option<u64> {
    match str::from_utf8(word) {
        Ok(text) => text.parse().ok(),
        Err(_) => None,
    }
}
