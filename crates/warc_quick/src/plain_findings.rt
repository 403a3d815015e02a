//! The findings that are known of a record whose head is plain.
ghost use Rattle.std.specs.Prelude.{◌≡◌, [], map};
ghost use Rattle.warc_record.specs.Findings.{plain_seen};
ghost use Rattle.warc_quick.specs.PlainFindings.{all_plain};

use warc_record::{FindingSink, PlainFinding};

/// How many findings of a record are known at most.
const MOST: usize = 4;

/// At most four findings of a record, one after another.
#[derive(Clone, Copy)]
pub struct PlainFindings {
    items: [PlainFinding; MOST],
    count: u8,
}

impl PlainFindings {
    /// No findings.
    pub(crate) fn none() -> PlainFindings
        ensures { all_plain result ≡ [] }
    {
        PlainFindings {
            items: [PlainFinding::NoContentType; MOST],
            count: 0,
        }
    }

    /// The findings, one after another.
    pub fn as_slice(&self) -> &[PlainFinding]
        ensures { map plain_seen result.now ≡ all_plain self.now }
    {
        &self.items[..MOST.min(self.count as usize)]
    }
}

/// There is no room for another finding.
#[derive(Clone, Copy)]
pub struct NoRoom;

impl FindingSink for PlainFindings {
    type Refusal = NoRoom;

    ghost listed = { all_plain };

    fn add(&mut self, finding: PlainFinding) -> Result<(), NoRoom> {
        let count = self.count as usize;
        if count >= MOST {
            return Err(NoRoom);
        }
        self.items[count] = finding;
        self.count += 1;
        Ok(())
    }
}
