//! The text and mark under which a record is kept in the two orders.

ghost use Rattle.std.specs.Prelude.{◌≡◌, ℕ, option_map};
ghost use Rattle.warc_record.specs.Seen.{said};
ghost use Rattle.warc_order.specs.Entries.{entry_of};
ghost use Rattle.warc_index.specs.Captures.{indexed_of, is_capture};
ghost use Rattle.warc_index.specs.Orders.{kind_mark, capture_entry};

use crate::link::FIRST;
use crate::linked::mark_at;
use warc_order::Mark;
use warc_record::{Kind, Typed};

/// The mark of records that aren't captures, in the order by id.
pub(crate) const OTHERS: Mark = Mark { major: 1, minor: 0 };

/// A text and a mark.
#[derive(Clone, Copy)]
pub(crate) struct Key<'a> {
    pub(crate) text: &'a [u8],
    pub(crate) mark: Mark,
}

/// Whether a record of this kind can answer: a response, a resource or a revisit.
fn is_capture(kind: Kind) -> bool
    ensures { result ≡ is_capture kind }
{
    matches!(kind, Kind::Response | Kind::Resource | Kind::Revisit)
}

/// The mark of a record of this kind in the order by id: captures come first.
fn kind_mark(kind: Kind) -> Mark
    ensures { result ≡ kind_mark kind }
{
    if is_capture(kind) { FIRST } else { OTHERS }
}

/// The entry of a record in the order by id.
pub(crate) fn id_key<'t>(typed: &'t Typed<'_>) -> Key<'t>
    ensures text { result.text.now ≡ typed.now.id }
    ensures mark { result.mark ≡ kind_mark typed.now.kind }
{
    Key {
        text: typed.id.bytes(),
        mark: kind_mark(typed.kind),
    }
}

/// The entry of a record in the order by target and instant, if it is a capture with a target.
pub(crate) fn capture_key<'a>(typed: &Typed<'a>) -> Option<Key<'a>>
    ensures { (p : ℕ) → capture_entry p (indexed_of (said typed.now))
        ≡ option_map (λ k. entry_of k.text.now k.mark p) result }
{
    let target = typed.texts.target;
    if !is_capture(typed.kind) || target.is_empty() {
        return None;
    }
    Some(Key {
        text: target,
        mark: mark_at(&typed.moment),
    })
}
