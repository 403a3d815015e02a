//! The rows of an archive, one after another.
ghost use Rattle.std.specs.Prelude.{◌≡◌};
ghost use Rattle.std.specs.Iterator.{YieldsFirst, item_count};

use crate::rows::{Row, Rows};
use std::alloc::{Allocator, Global};
use std::marker::Model;

/// The rows of an archive in the order of its records, seen as the list of those that are left.
#[derive(Drop)]
pub struct RowIter<'a, A: Allocator = Global> {
    rows: &'a Rows<A>,
    position: usize,
}

impl<'a, A: Allocator> Model for RowIter<'a, A> {
    ghost use Rattle.std.specs.Prelude.{List, drop};
    ghost use Rattle.warc_reading.specs.Row.{Row as Seen};

    ghost Value = { List Seen };

    ghost view = { λ i. drop i.position i.rows.now };
}

impl<'a, A: Allocator> Iterator for RowIter<'a, A> {
    type Item = Row<'a>;

    ghost next_gives = { YieldsFirst (λ left. left) };

    ghost remaining = { item_count (λ left. left) };

    /// The next row, if one is left.
    fn next(&mut self) -> Option<Row<'a>> {
        let row = self.rows.get(self.position)?;
        self.position = self.rows.len().min(self.position.saturating_add(1));
        Some(row)
    }
}

impl<A: Allocator> Rows<A> {
    /// The rows, one after another.
    pub fn iter(&self) -> RowIter<'_, A>
        ensures { result ≡ self.now }
    {
        RowIter {
            rows: self,
            position: 0,
        }
    }
}

impl<'a, A: Allocator> IntoIterator for &'a Rows<A> {
    type Item = Row<'a>;

    type IntoIter = RowIter<'a, A>;

    ghost into_iter_gives = { λ s it. it ≡ s.now };

    fn into_iter(self) -> RowIter<'a, A> {
        self.iter()
    }
}
