//! Growth by each front of a record, and by the whole record after each.

use crate::sources::{joined, longer, source_of};
use crate::subjects::Subject;
use crate::wanted::{Wanted, answers};
use std::alloc::{AllocError, Global};
use suites_script::Case;
use warc_frame::{FaultKind, MemSource};

/// Whether it refuses to grow by the front of a record, which ends at this offset, and answers as before then.
fn is_torn(
    alloc: Global,
    subject: &mut Subject<MemSource, Global>,
    source: MemSource,
    end: usize,
    wanted: &Wanted,
) -> Result<bool, AllocError> {
    let fault = subject.refused(source);
    let torn = FaultKind::Truncated.at(end as u64);
    Ok(answers(alloc, subject, &wanted.before)? && fault == Some(torn))
}

/// Whether it grows by the whole record.
fn is_whole(
    alloc: Global,
    subject: &mut Subject<MemSource, Global>,
    source: MemSource,
    wanted: &Wanted,
) -> Result<bool, AllocError> {
    let fault = subject.refused(source);
    Ok(answers(alloc, subject, &wanted.after)? && fault.is_none())
}

/// Whether what was opened of these bytes refuses that front of a record, which is so long, and then grows by the
/// record.
fn recovers(
    alloc: Global,
    subject: &mut Subject<MemSource, Global>,
    (bytes, most): (&[u8], usize),
    (record, len): (&[u8], usize),
    wanted: &Wanted,
) -> Result<bool, AllocError> {
    let front = record.get(..len).unwrap_or(record);
    let torn = longer(alloc, bytes, front, most)?;
    let end = bytes.len().saturating_add(len);
    let is_refused = is_torn(alloc, subject, torn, end, wanted)?;
    let whole = longer(alloc, bytes, record, most)?;
    Ok(is_whole(alloc, subject, whole, wanted)? && is_refused)
}

/// What `recovers` gives for what a word names, once it is opened of these bytes.
fn recovers_once_open(
    alloc: Global,
    name: &str,
    (bytes, most): (&[u8], usize),
    (record, len): (&[u8], usize),
    wanted: &Wanted,
) -> Result<bool, AllocError> {
    match Subject::open(name, alloc, source_of(alloc, bytes, most)?) {
        Ok(mut subject) => {
            let reported = recovers(alloc, &mut subject, (bytes, most), (record, len), wanted);
            subject.close();
            reported
        }
        Err(_) => Ok(false),
    }
}

/// Adds how many fronts of the record that a case gives are refused, each as torn at its end, by the archive or the
/// listing that its second word names. It answers as before then, and as the longer one once it has grown by the whole
/// record.
pub(crate) fn add_torn(
    alloc: Global,
    case: &Case<'_>,
    archive: &[u8],
    most: usize,
    answer: &mut Vec<u8>,
) -> Result<(), AllocError> {
    let (name, record) = (case.text(1), case.given());
    let wanted = Wanted::of(alloc, name, archive, &joined(alloc, archive, record)?)?;
    let mut count = 0u64;
    for len in 1..record.len() {
        if recovers_once_open(alloc, name, (archive, most), (record, len), &wanted)? {
            count = count.saturating_add(1);
        }
    }
    let line = format!(in alloc; "F11 Truncated at the ends of {count} fronts, and grown then\n")?;
    answer.extend_from_slice(line.as_bytes())
}
