//! A series whose segments are in the order of their numbers: its first gap.
ghost use Rattle.std.specs.Prelude.{◌≡◌, ◌≤◌, ◌+◌, ◌-◌, ◌==◌, ◌<◌, ℕ, Some, length, sum_by, slice_index, MatchOption, IfNone};
ghost use Rattle.warc_segment.specs.Gaps.{least_repeated, least_absent, gap_of, followers};
ghost use Rattle.warc_segment.specs.Ordered.{members_of, numbers_in, AreOrdered, Rises, CountsUp, NoTotal, IsEnd};

use crate::gap::Gap;
use crate::place::Place;

/// A continuation in its series.
#[derive(Clone, Copy, Debug)]
pub(crate) struct Continuation {
    /// The position of its record among all.
    pub(crate) position: usize,

    pub(crate) number: u64,

    /// The total that it states, in bytes.
    pub(crate) total: Option<u64>,

    pub(crate) place: Place,
}

/// The segment at which a series ends.
#[derive(Clone, Copy)]
struct End {
    index: usize,
    total: u64,
}

/// The first number that occurs twice.
fn repeated(series: &[Continuation]) -> Option<u64>
    requires { AreOrdered (numbers_in series.now) }
    ensures value { result ≡ least_repeated (members_of series.now) }
    ensures none { IfNone result (Rises (numbers_in series.now) (length series.now)) }
{
    for i in 1..series.len() {
        let number = series[i].number;
        if series[i - 1].number == number {
            return Some(number);
        }
    }
    None
}

/// The first segment that states a total.
fn find_end(series: &[Continuation]) -> Option<End>
    ensures { MatchOption result (NoTotal (members_of series.now) (length series.now))
        (λ end. (end.index < length series.now) × IsEnd (members_of series.now) end.index end.total) }
{
    for (index, continuation) in series.iter().enumerate() {
        if let Some(total) = continuation.total {
            return Some(End { index, total });
        }
    }
    None
}

/// The first number from 2 on that isn't there.
fn absent(series: &[Continuation]) -> Option<u64>
    requires some { 0 < length series.now }
    requires ordered { AreOrdered (numbers_in series.now) }
    requires rises { Rises (numbers_in series.now) (length series.now) }
    ensures value { result
        ≡ least_absent (slice_index (numbers_in series.now) (length series.now - 1)) (members_of series.now) }
    ensures none { IfNone result (CountsUp (numbers_in series.now) (length series.now)) }
{
    for i in 0..series.len() {
        let expected = i as u64 + 2;
        if series[i].number != expected {
            return Some(expected);
        }
    }
    None
}

/// Whether a total is the sum of the lengths of the first block and of the blocks after it.
fn is_sum(total: u64, size: u64, series: &[Continuation]) -> bool
    ensures { result ≡ (total == size + sum_by (λ m. m.size) (members_of series.now)) }
{
    let mut left = total;
    for continuation in series {
        let len = continuation.place.len;
        if left < len {
            return false;
        }
        left -= len;
    }
    left == size
}

/// The first gap of a series after a first segment of this length.
pub(crate) fn find_gap(size: u64, series: &[Continuation]) -> Option<Gap>
    requires { AreOrdered (numbers_in series.now) }
    ensures gap { result ≡ gap_of size (members_of series.now) }
    ensures whole { IfNone result (followers (members_of series.now) ≡ members_of series.now) }
{
    if let Some(number) = repeated(series) {
        return Some(Gap::Repeated(number));
    }
    let Some(end) = find_end(series) else {
        return Some(Gap::Unfinished);
    };
    let next = end.index + 1;
    if next < series.len() {
        return Some(Gap::AfterEnd(series[next].number));
    }
    if let Some(number) = absent(series) {
        return Some(Gap::Absent(number));
    }
    if is_sum(end.total, size, series) {
        None
    } else {
        Some(Gap::Total)
    }
}
