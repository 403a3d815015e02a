//! Records that are added to two lists of entries and to what is kept for revisits: to all of them or to none.

ghost use Rattle.std.specs.Prelude.{◌≡◌, ◌<◌, [], ◌∷◌, ◌++◌, length, take, filter, nat_lt, option_map, OnOk, OnErr, All};
ghost use Rattle.std.specs.Option.{option_to_list};
ghost use Rattle.warc_record.specs.Seen.{said};
ghost use Rattle.warc_index.specs.Captures.{indexed_of};
ghost use Rattle.warc_index.specs.Addition.{IsPutOf, key_entry};
ghost use Rattle.warc_index.specs.Links.{link_seen};

use crate::key::{Key, capture_key, id_key};
use crate::link::{Link, Links};
use crate::linked::link_of;
use std::alloc::{AllocError, Allocator};
use warc_order::EntryList;
use warc_record::Typed;

/// What is kept of a record: its entry by id, its entry by target and instant if it is a capture with a target, and
/// what leads from it to another record.
#[derive(Clone, Copy)]
pub(crate) struct Addition<'a> {
    pub(crate) id: Key<'a>,
    pub(crate) capture: Option<Key<'a>>,
    pub(crate) link: Link<'a>,
}

/// What is kept of a record whose head says this.
pub(crate) fn kept_of<'t>(typed: &'t Typed<'_>) -> Addition<'t>
    ensures { IsPutOf (indexed_of (said typed.now)) result }
{
    Addition {
        id: id_key(typed),
        capture: capture_key(typed),
        link: link_of(typed),
    }
}

/// Adds an entry, if there is one.
fn add_present<O: EntryList>(
    order: &mut O,
    position: usize,
    key: Option<Key<'_>>,
) -> Result<(), AllocError>
    requires { All (λ e. e.position < position) (O.entries order.old) }
    ensures ok { OnOk result (O.entries order.new
        ≡ O.entries order.old ++ option_to_list (option_map (key_entry position) key.entry)) }
    ensures err { OnErr result (O.entries order.new ≡ O.entries order.old) }
{
    match key {
        Some(key) => order.add(key.text, key.mark, position),
        None => Ok(()),
    }
}

/// Adds the entries of a record.
fn add_entries<O: EntryList>(
    by_id: &mut O,
    by_target: &mut O,
    position: usize,
    kept: &Addition<'_>,
) -> Result<(), AllocError>
    requires ids { All (λ e. e.position < position) (O.entries by_id.old) }
    requires captures { All (λ e. e.position < position) (O.entries by_target.old) }
    ensures ids { OnOk result (O.entries by_id.new ≡ O.entries by_id.old ++ key_entry position kept.now.id ∷ []) }
    ensures captures { OnOk result (O.entries by_target.new
        ≡ O.entries by_target.old ++ option_to_list (option_map (key_entry position) kept.now.capture)) }
    ensures err_ids { OnErr result (O.entries by_id.new ≡ O.entries by_id.old) }
    ensures err_captures { OnErr result (O.entries by_target.new ≡ O.entries by_target.old) }
{
    by_id.add(kept.id.text, kept.id.mark, position)?;
    match add_present(by_target, position, kept.capture) {
        Ok(()) => Ok(()),
        Err(refused) => {
            // What was added is taken back, which doesn't allocate.
            by_id.truncate(position);
            Err(refused)
        }
    }
}

/// Adds a record to both lists of entries and to what is kept for revisits. `Err`: no memory for it; then nothing
/// changes.
pub(crate) fn add_record<O: EntryList, A: Allocator + Copy>(
    by_id: &mut O,
    by_target: &mut O,
    links: &mut Links<A>,
    position: usize,
    kept: &Addition<'_>,
) -> Result<(), AllocError>
    requires ids { All (λ e. e.position < position) (O.entries by_id.old) }
    requires captures { All (λ e. e.position < position) (O.entries by_target.old) }
    requires links { length links.old ≡ position }
    ensures ids { OnOk result (O.entries by_id.new ≡ O.entries by_id.old ++ key_entry position kept.now.id ∷ []) }
    ensures captures { OnOk result (O.entries by_target.new
        ≡ O.entries by_target.old ++ option_to_list (option_map (key_entry position) kept.now.capture)) }
    ensures links { OnOk result (links.new ≡ links.old ++ link_seen kept.now.link ∷ []) }
    ensures err_ids { OnErr result (O.entries by_id.new ≡ O.entries by_id.old) }
    ensures err_captures { OnErr result (O.entries by_target.new ≡ O.entries by_target.old) }
    ensures err_links { OnErr result (links.new ≡ links.old) }
{
    links.add(&kept.link)?;
    match add_entries(by_id, by_target, position, kept) {
        Ok(()) => Ok(()),
        Err(refused) => {
            links.truncate(position);
            Err(refused)
        }
    }
}

/// Keeps the first `count` records. It doesn't allocate.
pub(crate) fn truncate_all<O: EntryList, A: Allocator + Copy>(
    by_id: &mut O,
    by_target: &mut O,
    links: &mut Links<A>,
    count: usize,
)
    ensures ids { O.entries by_id.new ≡ filter (λ e. nat_lt e.position count) (O.entries by_id.old) }
    ensures captures { O.entries by_target.new ≡ filter (λ e. nat_lt e.position count) (O.entries by_target.old) }
    ensures links { links.new ≡ take count links.old }
{
    by_id.truncate(count);
    by_target.truncate(count);
    links.truncate(count);
}
