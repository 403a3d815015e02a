//! Rows counted: how many of each kind, how many captures, and the first and the last by their instants.
ghost use Rattle.std.specs.Prelude.{◌≡◌, ◌+◌, ◌-◌, ◌^◌, ◌<◌, true, false, length, option_map};
ghost use Rattle.warc_index.specs.Captures.{is_earlier};
ghost use Rattle.warc_judged.specs.Summary.{IsDateOf, is_nearer};
ghost use Rattle.warc_judged.specs.Tallies.{IsEndSoFar, IsTalliedTo, column_of, nearest};

use crate::counts::one_if;
use crate::row::is_capture;
use std::alloc::Allocator;
use warc_reading::Rows;
use warc_record::Kind;
use warc_value::{Moment, read_date};

/// Whether an instant comes before another; an absent one comes before any other.
fn is_earlier(one: Option<Moment>, other: Option<Moment>) -> bool
    ensures { result ≡ is_earlier one other }
{
    match (one, other) {
        (_, None) => false,
        (None, Some(_)) => true,
        (Some(one), Some(other)) => one.is_before(&other),
    }
}

/// One end of the records in the order of their instants, and of their positions where the instants are the same.
#[derive(Clone, Copy)]
enum End {
    First,
    Last,
}

/// Whether a record of an instant is nearer to an end than one of another instant at a lower position.
fn is_nearer(end: End, instant: Option<Moment>, best: Option<Moment>) -> bool
    ensures { result ≡ is_nearer end instant best }
{
    match end {
        End::First => is_earlier(instant, best),
        End::Last => !is_earlier(instant, best),
    }
}

/// A record, by its position and the instant of its date.
#[derive(Clone, Copy)]
pub(crate) struct Dated {
    position: usize,
    instant: Option<Moment>,
}

/// The nearest one to an end, of the nearest so far, if there is one, and the next record.
fn nearest(end: End, best: Option<Dated>, next: &Dated) -> Dated
    ensures { result ≡ nearest end best next.now }
{
    match best {
        Some(best) if !is_nearer(end, next.instant, best.instant) => best,
        _ => *next,
    }
}

/// How many kinds there are.
const KINDS: usize = 9;

/// The place of a kind among all.
pub(crate) fn place_of(kind: Kind) -> usize
    ensures value { result ≡ column_of kind }
    ensures within { result < KINDS }
{
    kind as usize
}

/// What is counted of rows, and those of them at the ends.
#[derive(Clone, Copy)]
pub(crate) struct Tally {
    pub(crate) kinds: [usize; KINDS],
    pub(crate) captures: usize,
    pub(crate) truncated: usize,
    pub(crate) first: Option<Dated>,
    pub(crate) last: Option<Dated>,
}

/// Counts the row at a position with those before it.
fn add_row<A: Allocator>(tally: &mut Tally, rows: &Rows<A>, position: usize)
    requires there { position < length rows.now }
    requires few { length rows.now < 2 ^ 64 }
    requires before { IsTalliedTo rows.now position tally.old }
    ensures { IsTalliedTo rows.now (position + 1) tally.new }
{
    let Some(row) = rows.get(position) else {
        unreachable!()
    };
    let next = Dated {
        position,
        instant: read_date(row.date),
    };
    let first = nearest(End::First, tally.first, &next);
    let last = nearest(End::Last, tally.last, &next);
    tally.kinds[place_of(Kind::named(row.kind))] += 1;
    tally.captures += one_if(is_capture(row.kind));
    tally.truncated += one_if(row.is_truncated);
    tally.first = Some(first);
    tally.last = Some(last);
}

/// What is counted of all rows, in one pass.
pub(crate) fn tally_rows<A: Allocator>(rows: &Rows<A>) -> Tally
    ensures { IsTalliedTo rows.now (length rows.now) result }
{
    let mut tally = Tally {
        kinds: [0; KINDS],
        captures: 0,
        truncated: 0,
        first: None,
        last: None,
    };
    'counting: for position in 0..rows.len() {
        add_row(&mut tally, rows, position);
    }
    tally
}

/// The date of the record at an end, as it is written.
pub(crate) fn date_of<A: Allocator>(rows: &Rows<A>, best: Option<Dated>) -> Option<&[u8]>
    ensures { (end : End) → IsEndSoFar end rows.now (length rows.now) best
        → IsDateOf end rows.now (option_map (λ d. d.now) result) }
{
    let row = rows.get(best?.position)?;
    Some(row.date)
}
