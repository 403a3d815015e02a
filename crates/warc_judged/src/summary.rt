//! What an archive holds: how many records of which kind, how many bytes, and from when to when.
ghost use Rattle.std.specs.Prelude.{◌≡◌, ◌-◌, ◌<◌, map, option_map};
ghost use Rattle.std.specs.List.{concat};
ghost use Rattle.warc_frame.specs.Effects.{Puts, SendsText};
ghost use Rattle.warc_judged.specs.Summary.{IsSummaryOf, flags_with, number_line, summary_numbers, segmented_count, shown_date, summary_text, text_line};

use crate::counts::Verdicts;
use crate::flags::segmented_count;
use crate::tally::{date_of, place_of, tally_rows};
use itoa::Buffer;
use std::alloc::Allocator;
use warc_frame::{OutBuffer, OutFault, SendFault, Sink, put_columns};
use warc_reading::Rows;
use warc_record::Kind;
use warc_value::Verdict;

/// How many records and bytes an archive has, how many records of each kind, how many captures, how many blocks of each
/// verdict, how many records that are marked as truncated and that are segments, and the dates of its first and its
/// last record, as they are written.
#[derive(Clone, Copy, Debug)]
pub struct Summary<'a> {
    pub records: usize,
    pub bytes: u64,
    pub warcinfo: usize,
    pub response: usize,
    pub resource: usize,
    pub request: usize,
    pub metadata: usize,
    pub revisit: usize,
    pub conversion: usize,
    pub continuation: usize,
    pub other: usize,
    pub captures: usize,
    pub good: usize,
    pub bad: usize,
    pub unchecked: usize,
    pub truncated: usize,
    pub segmented: usize,
    pub first_date: Option<&'a [u8]>,
    pub last_date: Option<&'a [u8]>,
}

/// The line of a number.
#[tactic(auto, unfolding(crate::specs::Summary::number_line))]
fn put_number<W: Sink>(
    name: &str,
    number: u64,
    buffer: &mut OutBuffer,
    out: &mut W,
) -> Result<(), SendFault>
    ensures { Puts (W.seen out.old) (W.seen out.new) buffer.old buffer.new result (number_line (name.now, number)) }
{
    let mut digits = Buffer::new();
    put_text(name, digits.format(number).as_bytes(), buffer, out)
}

/// The line of a text.
#[tactic(auto, unfolding(crate::specs::Summary::text_line))]
fn put_text<W: Sink>(
    name: &str,
    text: &[u8],
    buffer: &mut OutBuffer,
    out: &mut W,
) -> Result<(), SendFault>
    ensures { Puts (W.seen out.old) (W.seen out.new) buffer.old buffer.new result (text_line name.now text.now) }
{
    put_columns(&[(name.as_bytes(), b'\t'), (text, b'\n')], buffer, out)
}

/// A line for each number.
fn put_numbers<W: Sink>(
    numbers: &[(&'static str, u64)],
    buffer: &mut OutBuffer,
    out: &mut W,
) -> Result<(), SendFault>
    ensures { Puts (W.seen out.old) (W.seen out.new) buffer.old buffer.new result
        (concat (map (λ n. number_line (n.0.now, n.1)) numbers.now)) }
{
    'putting: for number in numbers {
        put_number(number.0, number.1, buffer, out)?;
    }
    Ok(())
}

impl<'a> Summary<'a> {
    /// The numbers, each with its name, in the order in which they are written.
    #[tactic(auto, unfolding(crate::specs::Summary::summary_numbers))]
    fn numbers(&self) -> [(&'static str, u64); 17]
        ensures { map (λ n. (n.0.now, n.1)) result ≡ summary_numbers self.now }
    {
        [
            ("records", self.records as u64),
            ("bytes", self.bytes),
            ("warcinfo", self.warcinfo as u64),
            ("response", self.response as u64),
            ("resource", self.resource as u64),
            ("request", self.request as u64),
            ("metadata", self.metadata as u64),
            ("revisit", self.revisit as u64),
            ("conversion", self.conversion as u64),
            ("continuation", self.continuation as u64),
            ("other", self.other as u64),
            ("captures", self.captures as u64),
            ("good", self.good as u64),
            ("bad", self.bad as u64),
            ("unchecked", self.unchecked as u64),
            ("truncated", self.truncated as u64),
            ("segmented", self.segmented as u64),
        ]
    }

    /// Adds the lines to the output.
    pub fn put<W: Sink>(&self, buffer: &mut OutBuffer, out: &mut W) -> Result<(), SendFault>
        ensures { Puts (W.seen out.old) (W.seen out.new) buffer.old buffer.new result (summary_text self.now) }
    {
        put_numbers(&self.numbers(), buffer, out)?;
        put_text("first date", shown_date(self.first_date), buffer, out)?;
        put_text("last date", shown_date(self.last_date), buffer, out)
    }

    /// Writes a line for each number, and one for each date: its name, a tab and its value. An absent date is `-`. It
    /// doesn't allocate.
    pub fn write<W: Sink>(&self, out: &mut W) -> Result<(), OutFault>
        ensures { SendsText (W.seen out.old) (W.seen out.new) result (summary_text self.now) }
    {
        let mut buffer = OutBuffer::new();
        self.put(&mut buffer, out)?;
        buffer.flush(out)?;
        Ok(())
    }
}

/// A date as it is written, or `-` where there is none.
fn shown_date(date: Option<&[u8]>) -> &[u8]
    ensures { result.now ≡ shown_date (option_map (λ d. d.now) date.entry) }
{
    match date {
        Some(date) => date,
        None => b"-",
    }
}

/// What is said of records, by their rows, whether each is a segment, and the verdicts on their blocks.
pub fn summary_of<'a, A: Allocator>(
    rows: &'a Rows<A>,
    segmented: &[bool],
    verdicts: &Verdicts<A>,
) -> Summary<'a>
    ensures { IsSummaryOf rows.now (flags_with segmented.now verdicts.now) result }
{
    let tally = tally_rows(rows);
    let kinds = tally.kinds;
    Summary {
        records: rows.len(),
        bytes: rows.end(),
        warcinfo: kinds[place_of(Kind::Warcinfo)],
        response: kinds[place_of(Kind::Response)],
        resource: kinds[place_of(Kind::Resource)],
        request: kinds[place_of(Kind::Request)],
        metadata: kinds[place_of(Kind::Metadata)],
        revisit: kinds[place_of(Kind::Revisit)],
        conversion: kinds[place_of(Kind::Conversion)],
        continuation: kinds[place_of(Kind::Continuation)],
        other: kinds[place_of(Kind::Other)],
        captures: tally.captures,
        good: verdicts.count(Verdict::Good),
        bad: verdicts.count(Verdict::Bad),
        unchecked: verdicts.count(Verdict::Unchecked),
        truncated: tally.truncated,
        segmented: segmented_count(segmented),
        first_date: date_of(rows, tally.first),
        last_date: date_of(rows, tally.last),
    }
}
