//! The archive that commands are run over: given, or made of the one that was given.

use crate::plain::read_plainly;
use std::alloc::{AllocError, Global};
use suites_script::{Case, add_link};
use warc::Archive;
use warc_frame::{Fault, MemSource};

/// The sizes of the reads of which each archive is opened, and each command run.
pub(crate) const PIECES: [usize; 3] = [1, 7, usize::MAX];

/// How many archives were opened, how many of the openings gave an archive, and how many records these have.
#[derive(Clone, Copy)]
pub(crate) struct Openings {
    all: u64,
    opened: u64,
    records: u64,
}

impl Openings {
    pub(crate) fn new() -> Openings {
        Openings {
            all: 0,
            opened: 0,
            records: 0,
        }
    }

    /// Counts what came of one.
    fn add(&mut self, count: Result<usize, Fault>) {
        self.all = self.all.saturating_add(1);
        if let Ok(count) = count {
            self.opened = self.opened.saturating_add(1);
            self.records = self.records.saturating_add(count as u64);
        }
    }
}

/// An archive that was given with a name.
#[derive(Drop)]
struct NamedArchive {
    name: Vec<u8>,
    bytes: Vec<u8>,
}

/// The archive of a script.
#[derive(Drop)]
pub(crate) struct Archives {
    /// The one that was given last.
    given: Vec<u8>,
    /// Those that were given with a name.
    named: Vec<NamedArchive>,
    /// It, or what was made of it last.
    bytes: Vec<u8>,
    /// The text in it that is to be replaced.
    old: Vec<u8>,
    /// How many archives were given, and how many were made of these.
    given_count: u64,
    made_count: u64,
    openings: Openings,
}

impl Archives {
    /// The archive of no records.
    pub(crate) fn new(alloc: Global) -> Archives {
        Archives {
            given: Vec::new(alloc),
            named: Vec::new(alloc),
            bytes: Vec::new(alloc),
            old: Vec::new(alloc),
            given_count: 0,
            made_count: 0,
            openings: Openings::new(),
        }
    }

    /// Its bytes.
    pub(crate) fn bytes(&self) -> &[u8] {
        &self.bytes
    }

    /// Whether a case gives or makes an archive. Adds what it answers: nothing where one is given or
    /// made that opens as it reads.
    pub(crate) fn answer(
        &mut self,
        alloc: Global,
        case: &Case<'_>,
        answer: &mut Vec<u8>,
    ) -> Result<bool, AllocError> {
        match case.text(0) {
            "archive" => self.give(alloc, case.word(1), case.given(), answer)?,
            "again" => self.give_again(alloc, case.word(1), answer)?,
            "replace" => self.forget(alloc, case.given(), answer)?,
            "by" => self.replace(alloc, case.given(), answer)?,
            "first" => self.cut(alloc, case.number(1), answer)?,
            "flood" => self.flood(alloc, case)?,
            _ => return Ok(false),
        }
        Ok(true)
    }

    /// Keeps a text that the next one is to replace. An earlier one has to be replaced by now.
    fn forget(
        &mut self,
        alloc: Global,
        old: &[u8],
        answer: &mut Vec<u8>,
    ) -> Result<(), AllocError> {
        if !self.old.is_empty() {
            answer.extend_from_slice(b"no text came for the last one\n")?;
        }
        self.old = old.to_vec(alloc)?;
        Ok(())
    }

    /// Takes an archive, and keeps it under its name if it has one.
    fn give(
        &mut self,
        alloc: Global,
        name: &[u8],
        bytes: &[u8],
        answer: &mut Vec<u8>,
    ) -> Result<(), AllocError> {
        self.take(alloc, bytes)?;
        self.keep(alloc, name, bytes)?;
        self.given_count = self.given_count.saturating_add(1);
        say_otherwise(alloc, bytes, &mut self.openings, answer)
    }

    /// Takes an archive as it is.
    fn take(&mut self, alloc: Global, bytes: &[u8]) -> Result<(), AllocError> {
        self.given = bytes.to_vec(alloc)?;
        self.bytes = bytes.to_vec(alloc)?;
        Ok(())
    }

    /// Keeps an archive under its name, if it has one.
    fn keep(&mut self, alloc: Global, name: &[u8], bytes: &[u8]) -> Result<(), AllocError> {
        if name.is_empty() {
            return Ok(());
        }
        let kept = NamedArchive {
            name: name.to_vec(alloc)?,
            bytes: bytes.to_vec(alloc)?,
        };
        self.named.push(kept)?;
        Ok(())
    }

    /// Takes the archive that was given with a name.
    fn give_again(
        &mut self,
        alloc: Global,
        name: &[u8],
        answer: &mut Vec<u8>,
    ) -> Result<(), AllocError> {
        let found = match self.named.iter().find(|it| it.name.as_slice() == name) {
            Some(kept) => kept.bytes.to_vec(alloc)?,
            None => return answer.extend_from_slice(b"no archive has this name\n"),
        };
        self.take(alloc, &found)
    }

    /// Takes an archive that was made of the one that was given.
    fn make(
        &mut self,
        alloc: Global,
        bytes: Vec<u8>,
        answer: &mut Vec<u8>,
    ) -> Result<(), AllocError> {
        self.bytes = bytes;
        self.made_count = self.made_count.saturating_add(1);
        say_otherwise(alloc, &self.bytes, &mut self.openings, answer)
    }

    /// Makes an archive of the one that was given and as many more records as the second word says. Each is the text
    /// of the case, in which `#` is the number of the record, and `@` the number before it.
    fn flood(&mut self, alloc: Global, case: &Case<'_>) -> Result<(), AllocError> {
        self.bytes = self.given.to_vec(alloc)?;
        self.made_count = self.made_count.saturating_add(1);
        for number in 1..=case.number(1) {
            add_link(alloc, &mut self.bytes, case.given(), number)?;
        }
        Ok(())
    }

    /// Puts a text in the place of the first one that is to be replaced.
    fn replace(
        &mut self,
        alloc: Global,
        new: &[u8],
        answer: &mut Vec<u8>,
    ) -> Result<(), AllocError> {
        let made = replaced(alloc, &self.given, &self.old, new)?;
        self.old.clear();
        match made {
            Some(bytes) => self.make(alloc, bytes, answer),
            None => answer.extend_from_slice(b"the text isn't there\n"),
        }
    }

    /// Leaves the first `len` bytes.
    fn cut(&mut self, alloc: Global, len: u64, answer: &mut Vec<u8>) -> Result<(), AllocError> {
        match self.given.get(..len as usize) {
            Some(front) => {
                let bytes = front.to_vec(alloc)?;
                self.make(alloc, bytes, answer)
            }
            None => answer.extend_from_slice(b"it is shorter\n"),
        }
    }

    /// A line of how many archives were given and made, and how they opened.
    pub(crate) fn openings(&self, alloc: Global) -> Result<String, AllocError> {
        let Openings {
            all,
            opened,
            records,
        } = self.openings;
        let (given, made) = (self.given_count, self.made_count);
        format!(in alloc;
            "{given} archives and {made} made of them: opened {all} times as they read, {opened} with {records} records"
        )
    }
}

/// The text with the first of one text in it replaced by another; nothing where it isn't there, or has no bytes.
fn replaced(
    alloc: Global,
    text: &[u8],
    old: &[u8],
    new: &[u8],
) -> Result<Option<Vec<u8>>, AllocError> {
    if old.is_empty() {
        return Ok(None);
    }
    for at in 0..text.len() {
        let (front, back) = text.split_at(at);
        if let Some(rest) = back.strip_prefix(old) {
            return Ok(Some([front, new, rest].concat(alloc)?));
        }
    }
    Ok(None)
}

/// How many records an archive has, or why it isn't opened; and the source that is given back.
fn opened(alloc: Global, source: MemSource) -> (Result<usize, Fault>, MemSource) {
    match Archive::open(alloc, source) {
        Ok(archive) => (Ok(archive.count()), archive.into_source()),
        Err((fault, source)) => (Err(fault), source),
    }
}

/// Whether an archive opens as wanted if a read gives `most` bytes at most, and its source is given back as it was.
/// Counts the openings.
fn opens_so(
    alloc: Global,
    bytes: &[u8],
    most: usize,
    wanted: Result<usize, Fault>,
    openings: &mut Openings,
) -> Result<bool, AllocError> {
    let (count, source) = opened(alloc, MemSource::new(bytes.to_vec(alloc)?, most.max(1)));
    let is_so = count == wanted && source.into_inner().as_slice() == bytes;
    if is_so {
        openings.add(count);
    }
    Ok(is_so)
}

/// Whether an archive opens as its plain reading says, with reads of 1 byte, of 7 bytes and of all.
fn opens_as_read(alloc: Global, bytes: &[u8], openings: &mut Openings) -> Result<bool, AllocError> {
    let plain = read_plainly(alloc, bytes);
    for most in PIECES {
        if !opens_so(alloc, bytes, most, plain, openings)? {
            return Ok(false);
        }
    }
    Ok(true)
}

/// Says where an archive doesn't open as its plain reading says.
fn say_otherwise(
    alloc: Global,
    bytes: &[u8],
    openings: &mut Openings,
    answer: &mut Vec<u8>,
) -> Result<(), AllocError> {
    if opens_as_read(alloc, bytes, openings)? {
        Ok(())
    } else {
        answer.extend_from_slice(b"it opens otherwise than it reads\n")
    }
}
