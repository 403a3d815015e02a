//! Runs in each of which one request for memory is refused: the first in the first run, the second in the next.

use std::alloc::{AllocError, Global};

/// What comes of a run.
#[derive(Clone, Copy, PartialEq, Eq)]
pub enum Refusal {
    /// It makes fewer requests, and all is right.
    Absent,

    /// One was refused, which changed nothing, and all is right after it.
    Harmless,
    Wrong,
}

impl Refusal {
    /// What comes of a run that is right or not, in which a request was refused or none.
    pub fn of(is_right: bool, is_refused: bool) -> Refusal {
        match (is_right, is_refused) {
            (true, true) => Refusal::Harmless,
            (true, false) => Refusal::Absent,
            (false, _) => Refusal::Wrong,
        }
    }
}

/// How many runs there were in which a request was refused, and whether one went wrong.
#[derive(Clone, Copy)]
pub struct Refusals {
    count: u64,
    is_wrong: bool,
    /// Whether a run was met that makes fewer requests.
    is_ended: bool,
}

impl Refusals {
    /// No runs.
    pub fn new() -> Refusals {
        Refusals {
            count: 0,
            is_wrong: false,
            is_ended: false,
        }
    }

    /// Counts a run, and says whether another one is to come.
    pub fn goes_on(&mut self, refusal: Refusal) -> bool {
        match refusal {
            Refusal::Absent => {
                self.is_ended = true;
                return false;
            }
            Refusal::Harmless => {}
            Refusal::Wrong => self.is_wrong = true,
        }
        self.count = self.count.saturating_add(1);
        !self.is_wrong
    }

    /// Reports the runs. There should be more than `least`.
    pub fn say(self, alloc: Global, least: u64, answer: &mut Vec<u8>) -> Result<(), AllocError> {
        let (how, number) = if self.is_wrong {
            ("something else once this request is refused", self.count)
        } else if !self.is_ended {
            ("not all requests were met by", self.count)
        } else if self.count > least {
            ("the same with each request refused, of more than", least)
        } else {
            ("no more requests than", self.count)
        };
        let text = format!(in alloc; "{how} {number}\n")?;
        answer.extend_from_slice(text.as_bytes())
    }
}
