//! Records by their heads, and the archives that are made of them.

use crate::captures::answer_capture;
use crate::series::answer_series;
use std::alloc::{AllocError, Allocator, Global};
use suites_script::{Case, Trial};
use warc_field::{Fields, read_area};

/// A record: what it is called, the field lines of its head, the length of its block, and where that begins, if this
/// isn't by its position.
#[derive(Drop)]
pub(crate) struct Head {
    name: Vec<u8>,
    text: Vec<u8>,
    len: u64,
    start: Option<u64>,
}

impl Head {
    /// The fields of the head. Its lines read, so that memory alone can be wanting.
    pub(crate) fn fields<A: Allocator + Copy>(&self, alloc: A) -> Result<Fields<A>, AllocError> {
        read_area(alloc, &self.text).map_err(|_| AllocError)
    }

    /// The offset at which its block begins where it is the record at a position.
    pub(crate) fn start(&self, position: u64) -> u64 {
        match self.start {
            Some(start) => start,
            None => position.saturating_add(1).saturating_mul(1000),
        }
    }

    /// The length of its block.
    pub(crate) fn len(&self) -> u64 {
        self.len
    }
}

/// What happens to an archive.
#[derive(Clone, Copy)]
pub(crate) enum Step {
    /// The record of that number among those that are known is added.
    Add(usize),

    /// The first records are kept, as many as this.
    Keep(usize),
}

/// The records that are known, and what happens to the archive.
#[derive(Drop)]
pub(crate) struct Records {
    heads: Vec<Head>,
    steps: Vec<Step>,
}

/// The offset that the words of a case say, if any.
fn start_of(case: &Case<'_>) -> Option<u64> {
    if case.word(3).is_empty() {
        None
    } else {
        Some(case.number(3))
    }
}

/// The head of the revisit with a number in a chain, which names another number.
fn link_text(alloc: Global, number: u64, named: u64) -> Result<String, AllocError> {
    format!(in alloc;
        "WARC-Type: revisit\r\n\
         WARC-Record-ID: <{number:04}>\r\n\
         WARC-Date: 2020\r\n\
         WARC-Profile: http://netpreserve.org/warc/1.1/revisit/server-not-modified\r\n\
         WARC-Refers-To: <{named:04}>\r\n"
    )
}

/// The head of the resource with a number after a chain.
fn end_text(alloc: Global, number: u64) -> Result<String, AllocError> {
    format!(in alloc;
        "WARC-Type: resource\r\n\
         WARC-Record-ID: <{number:04}>\r\n\
         WARC-Date: 2020\r\n"
    )
}

impl Records {
    /// No records, and an empty archive.
    pub fn new(alloc: Global) -> Records {
        Records {
            heads: Vec::new(alloc),
            steps: Vec::new(alloc),
        }
    }

    /// What happens to the archive.
    pub(crate) fn steps(&self) -> &[Step] {
        &self.steps
    }

    /// The record of a number among those that are known.
    pub(crate) fn head(&self, number: usize) -> Option<&Head> {
        self.heads.get(number)
    }

    /// The number of the record of a name.
    pub(crate) fn number_of(&self, name: &[u8]) -> Option<usize> {
        for (number, head) in self.heads.iter().enumerate() {
            if head.name.as_slice() == name {
                return Some(number);
            }
        }
        None
    }

    /// Adds a record to those that are known.
    fn know(&mut self, alloc: Global, case: &Case<'_>) -> Result<(), AllocError> {
        let head = Head {
            name: case.word(1).to_vec(alloc)?,
            text: case.given().to_vec(alloc)?,
            len: case.optional_number(2),
            start: start_of(case),
        };
        self.heads.push(head).map_err(|_| AllocError)
    }

    /// Adds a record without a name to those that are known, and to the archive.
    fn add(&mut self, alloc: Global, text: &str) -> Result<(), AllocError> {
        let number = self.heads.len();
        let head = Head {
            name: Vec::new(alloc),
            text: text.as_bytes().to_vec(alloc)?,
            len: 0,
            start: None,
        };
        self.steps.push(Step::Add(number))?;
        self.heads.push(head).map_err(|_| AllocError)
    }

    /// Takes the words of a case as what happens to the archive. Reports the first word that is no record's name.
    fn happen(&mut self, case: &Case<'_>, answer: &mut Vec<u8>) -> Result<(), AllocError> {
        self.steps.clear();
        let mut is_count = false;
        for word in case.words().split(|byte| *byte == b' ').skip(1) {
            if word == b"keep".as_slice() {
                is_count = true;
            } else if is_count {
                is_count = false;
                self.steps.push(Step::Keep(case.number_in(word) as usize))?;
            } else {
                match self.number_of(word) {
                    Some(number) => self.steps.push(Step::Add(number))?,
                    None => answer.extend_from_slice(b"no such record\n")?,
                }
            }
        }
        Ok(())
    }

    /// Makes an archive of a chain of `length` revisits, each of which names the next one, and the record after it.
    fn chain(&mut self, alloc: Global, length: u64, end: &str) -> Result<(), AllocError> {
        self.steps.clear();
        for number in 0..length {
            let text = link_text(alloc, number, number.saturating_add(1))?;
            self.add(alloc, &text)?;
        }
        match end {
            "resource" => self.add(alloc, &end_text(alloc, length)?),
            "loop" => self.add(alloc, &link_text(alloc, length, length / 2)?),
            _ => Ok(()),
        }
    }
}

impl Trial for Records {
    fn answer(
        &mut self,
        alloc: Global,
        case: &Case<'_>,
        answer: &mut Vec<u8>,
    ) -> Result<(), AllocError> {
        match case.text(0) {
            "record" => self.know(alloc, case),
            "archive" => self.happen(case, answer),
            "chain" => self.chain(alloc, case.number(1), case.text(2)),
            "join" | "refused-join" | "numbered" | "segment-bytes" | "gap" => {
                answer_series(alloc, self, case, answer)
            }
            _ => answer_capture(alloc, self, case, answer),
        }
    }
}
