//! Instants, in order.
ghost use Rattle.std.specs.Prelude.{◌≡◌};
ghost use Rattle.std.proofs.Common.{rules};
ghost use Rattle.std.specs.Cmp.{partial_order_from_own_ties};
ghost use Rattle.std.specs.Cmp.Rules.{comparing};
ghost use Rattle.std.specs.Ordering.{as_partial_cmp};
ghost use Rattle.warc_value.specs.Dates.{is_before, instant_cmp};

use std::cmp::Ordering;
use std::marker::Model;

/// An instant: the days since 1 January of the year 0, and the nanosecond of that day. Moments are in order of time.
#[derive(Clone, Copy, PartialEq, Eq, Debug)]
pub struct Moment {
    day: u32,
    nanosecond: u64,
}

impl Model for Moment {
    ghost use Rattle.warc_value.specs.Dates.{Instant};

    ghost Value = { Instant };

    ghost view = { λ moment. (moment.day, moment.nanosecond) };

    ghost inverse = { λ instant. record { day = instant.0; nanosecond = instant.1 } };
}

impl PartialOrd for Moment {
    ghost partial_cmp = { as_partial_cmp instant_cmp };

    ghost laws = { partial_order_from_own_ties (Prim.search (comparing, rules)) (Prim.search (comparing, rules)) };

    fn partial_cmp(&self, other: &Moment) -> Option<Ordering> {
        Some(self.cmp(other))
    }
}

impl Ord for Moment {
    ghost cmp = { instant_cmp };

    ghost total = { Prim.search (comparing, rules) };

    ghost matches_partial_cmp = { Prim.search (comparing, rules) };

    ghost matches_eq = { Prim.search (comparing, rules) };

    fn cmp(&self, other: &Moment) -> Ordering {
        let by_day = self.day.cmp(&other.day);
        by_day.then(self.nanosecond.cmp(&other.nanosecond))
    }
}

impl Moment {
    pub(crate) fn new(day: u32, nanosecond: u64) -> Moment
        ensures { result ≡ (day, nanosecond) }
    {
        Moment { day, nanosecond }
    }

    /// The days since 1 January of the year 0.
    pub fn day(&self) -> u32
        ensures { result ≡ self.now.0 }
    {
        self.day
    }

    /// The nanosecond of the day, from its midnight.
    pub fn nanosecond(&self) -> u64
        ensures { result ≡ self.now.1 }
    {
        self.nanosecond
    }

    /// Whether this moment comes before the other one, by day and then by nanosecond.
    pub fn is_before(&self, other: &Moment) -> bool
        ensures { result ≡ is_before self.now other.now }
    {
        *self < *other
    }
}
