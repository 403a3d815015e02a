//! The records of an archive, found by target and instant, and by id.

ghost use Rattle.std.specs.Prelude.{◌≡◌, ℕ, ◌<◌, [], ◌∷◌, ◌++◌, List, Some, not, length, min, take, ok_or, true};
ghost use Rattle.std.specs.Prelude.{slice_get};
ghost use Rattle.std.specs.Prelude.{OnOk, OnErr, IfOk, IfSome, All};
ghost use Rattle.std.specs.Option.{option_to_list};
ghost use Rattle.warc_value.specs.Dates.{Instant};
ghost use Rattle.warc_record.specs.Seen.{said};
ghost use Rattle.warc_index.specs.declared.unfound.Unfound.TheVariants.{NoReference, Unresolved};
ghost use Rattle.warc_index.specs.Addition.{IsPutOf};
ghost use Rattle.warc_index.specs.Captures.{AreCapturesOf, Indexed, indexed_of, is_capture, chosen_of};
ghost use Rattle.warc_index.specs.Referents.{by_key, by_pair, by_payload, first_with, is_revisit_at};
ghost use Rattle.warc_index.specs.Referents.{next_of, referent_of, origin_of};
ghost use Rattle.warc_index.specs.Chains.{AreChainsOf, Reaches, onward, place_for};
ghost use Rattle.warc_index.specs.Links.{link_seen};
ghost use Rattle.warc_index.specs.Linked.{instant_mark, revisit_link};
ghost use Rattle.warc_index.specs.Orders.{IsIndexOf, IsBelow, id_entry, capture_entry, text_bytes};
ghost use Rattle.warc_index.specs.Orders.{step_of};

use crate::addition::{Addition, add_record, kept_of, truncate_all};
use crate::chains::{double, place_for};
use crate::key::OTHERS;
use crate::link::{FIRST, Link, Links, Role};
use crate::linked::mark_at;
use crate::lookup::{capture_with, captures_of, ends_chain, first_of_pair, latest_of_payload};
use crate::unfound::Unfound;
use std::alloc::{AllocError, Allocator, Global};
use std::marker::Model;
use warc_order::{EntryList, HasEntries, Order, Unordered};
use warc_record::{IdKey, Typed};
use warc_value::Moment;

/// What is kept of records: their entries in `O` by id, and by target and instant, and what leads from a revisit to
/// another record. To a caller it is what is kept of a list of records. `places` is empty, or has for each record where
/// its chain ends.
#[derive(Drop)]
pub struct RecordIndex<O: HasEntries, A: Allocator = Global> {
    count: usize,
    by_id: O,
    by_target: O,
    links: Links<A>,
    places: Vec<usize, A>,
}

/// An index whose records are in order, and are found.
pub type Index<A = Global> = RecordIndex<Order<A>, A>;

/// An index of records that come at once and wait to be put in order. To a caller it is the same as after adding them
/// to an `Index` one by one.
pub type UnorderedIndex<A = Global> = RecordIndex<Unordered<A>, A>;

impl<O: HasEntries, A: Allocator> Model for RecordIndex<O, A> {
    ghost use Rattle.std.specs.Prelude.{◌≡◌, length};
    ghost use Rattle.warc_index.specs.Chains.{AreChainsOf};
    ghost use Rattle.warc_index.specs.Orders.{Indexes, IsBelow};

    ghost Value = { Indexes };

    ghost view = { λ s. record {
      count = s.count;
      ids = O.entries s.by_id;
      captures = O.entries s.by_target;
      links = s.links;
    } };

    ghost invariant = { λ s. record {
      ids : IsBelow s.count (O.entries s.by_id);
      captures : IsBelow s.count (O.entries s.by_target);
      links : length s.links ≡ s.count;
      places : AreChainsOf (record {
        count = s.count;
        ids = O.entries s.by_id;
        captures = O.entries s.by_target;
        links = s.links;
      }) s.places.items;
    } };
}

impl<O: EntryList, A: Allocator + Copy> RecordIndex<O, A> {
    /// Adds what is kept of the next record. `Err`: no memory for it; then nothing changes.
    fn put(&mut self, kept: &Addition<'_>) -> Result<(), AllocError>
        ensures ok { (all : List Indexed) (r : Indexed) → IsIndexOf all self.old → IsPutOf r kept.now →
            OnOk result (IsIndexOf (all ++ r ∷ []) self.new) }
        ensures err { OnErr result (self.new ≡ self.old) }
    {
        let position = self.count;
        let Some(count) = position.checked_add(1) else {
            return Err(AllocError);
        };
        add_record(
            &mut self.by_id,
            &mut self.by_target,
            &mut self.links,
            position,
            kept,
        )?;
        self.places.clear();
        self.count = count;
        Ok(())
    }

    /// Adds the next record. `Err`: no memory for it, and for putting it in order if it waits; then nothing changes.
    pub fn add(&mut self, typed: &Typed<'_>) -> Result<(), AllocError>
        ensures ok { (all : List Indexed) → IsIndexOf all self.old →
            OnOk result (IsIndexOf (all ++ indexed_of (said typed.now) ∷ []) self.new) }
        ensures err { OnErr result (self.new ≡ self.old) }
    {
        self.put(&kept_of(typed))
    }

    /// Keeps the first `count` records. It doesn't allocate.
    pub fn truncate(&mut self, count: usize)
        ensures { (all : List Indexed) → IsIndexOf all self.old → IsIndexOf (take count all) self.new }
    {
        if count < self.count {
            truncate_all(&mut self.by_id, &mut self.by_target, &mut self.links, count);
            self.places.clear();
            self.count = count;
        }
    }
}

impl<A: Allocator + Copy> RecordIndex<Unordered<A>, A> {
    /// No records.
    pub fn new(alloc: A) -> UnorderedIndex<A>
        ensures { IsIndexOf [] result }
    {
        RecordIndex {
            count: 0,
            by_id: Unordered::new(alloc),
            by_target: Unordered::new(alloc),
            links: Links::new(alloc),
            places: Vec::new(alloc),
        }
    }

    /// Puts all records in order. It doesn't allocate.
    pub fn into_index(self) -> Index<A>
        ensures { result ≡ self }
    {
        let RecordIndex {
            count,
            by_id,
            by_target,
            links,
            places,
        } = self;
        RecordIndex {
            count,
            by_id: by_id.into_order(),
            by_target: by_target.into_order(),
            links,
            places,
        }
    }
}

impl<A: Allocator + Copy> RecordIndex<Order<A>, A> {
    /// No records.
    pub fn new(alloc: A) -> Index<A>
        ensures { IsIndexOf [] result }
    {
        RecordIndex {
            count: 0,
            by_id: Order::new(alloc),
            by_target: Order::new(alloc),
            links: Links::new(alloc),
            places: Vec::new(alloc),
        }
    }

    /// The bytes of the texts that are kept: the keys of ids, targets, payload digests and what revisits name.
    pub fn kept(&self) -> u64
        ensures { result ≡ min (text_bytes self.now) 18446744073709551615 }
    {
        let orders = self.by_id.kept().saturating_add(self.by_target.kept());
        orders.saturating_add(self.links.kept())
    }

    /// The latest capture of a target that isn't after a moment, by its position. `Err`: P1 if no capture has the
    /// target, P2 if each capture that has it is later.
    pub fn latest(&self, target: &[u8], moment: &Moment) -> Result<usize, Unfound>
        ensures { (all : List Indexed) → IsIndexOf all self.now → result ≡ chosen_of all target.now moment.now }
    {
        match self.by_target.last_up_to(target, mark_at(moment)) {
            Some(found) => Ok(self.by_target.position(found)),
            None => match self.by_target.first_from(target, FIRST) {
                Some(_) => Err(Unfound::NotYet),
                None => Err(Unfound::NoCapture),
            },
        }
    }

    /// The positions of the captures of a target, each once: by instant, then by position. `Err`: no memory for them.
    pub fn captures_of(&self, alloc: A, target: &[u8]) -> Result<Vec<usize, A>, AllocError>
        ensures { (all : List Indexed) → IsIndexOf all self.now →
            IfOk result (λ positions. AreCapturesOf all target.now positions.items) }
    {
        captures_of(alloc, &self.by_target, target)
    }

    /// The first capture with an id, by its position.
    pub fn by_key(&self, key: &IdKey<'_>) -> Option<usize>
        ensures { (all : List Indexed) → IsIndexOf all self.now → result ≡ by_key all key.now }
    {
        capture_with(&self.by_id, key.bytes())
    }

    /// The first response or resource of a target and an instant, by its position.
    pub fn by_pair(&self, target: &[u8], moment: &Moment) -> Option<usize>
        ensures { (all : List Indexed) → IsIndexOf all self.now → result ≡ by_pair all (target.now, moment.now) }
    {
        first_of_pair(&self.by_target, &self.links, target, mark_at(moment))
    }

    /// The first record of any kind with an id, by its position.
    pub fn first_with(&self, key: &IdKey<'_>) -> Option<usize>
        ensures { (all : List Indexed) → IsIndexOf all self.now → result ≡ first_with all key.now }
    {
        match self.by_id.first_from(key.bytes(), FIRST) {
            Some(first) => match self.by_id.first_from(key.bytes(), OTHERS) {
                Some(other) => Some(self.by_id.position(first).min(self.by_id.position(other))),
                None => Some(self.by_id.position(first)),
            },
            None => None,
        }
    }

    /// The first response or resource of the pair that a link names.
    fn named_pair(&self, link: &Link<'_>) -> Result<usize, Unfound>
        ensures { (all : List Indexed) → IsIndexOf all self.now → (instant : Instant)
            → link.now.mark ≡ instant_mark instant
            → result ≡ ok_or (by_pair all (link.now.second.now, instant)) Unresolved }
    {
        match first_of_pair(&self.by_target, &self.links, link.second, link.mark) {
            Some(position) => Ok(position),
            None => Err(Unfound::Unresolved),
        }
    }

    /// The latest response or resource of the target of the revisit at a position that states the payload digest that
    /// its link holds and isn't later.
    fn same_payload(&self, position: usize, link: &Link<'_>) -> Result<usize, Unfound>
        ensures { (all : List Indexed) → IsIndexOf all self.now → (revisit : Indexed)
            → slice_get all position ≡ Some revisit → is_capture revisit.kind ≡ true
            → revisit.payload_digest ≡ Some link.now.first.now → (instant : Instant)
            → revisit.instant ≡ Some instant → link.now.mark ≡ instant_mark instant
            → result ≡ ok_or (by_payload all revisit) NoReference }
    {
        let Some(target) = self.by_target.text_at(position) else {
            return Err(Unfound::NoReference);
        };
        match latest_of_payload(&self.by_target, &self.links, target, link.first, link.mark) {
            Some(position) => Ok(position),
            None => Err(Unfound::NoReference),
        }
    }

    /// The record that the revisit at a position leads to, by its link.
    fn led_to(&self, position: usize, link: &Link<'_>) -> Result<usize, Unfound>
        ensures { (all : List Indexed) → IsIndexOf all self.now → (r : Indexed) → slice_get all position ≡ Some r
            → is_capture r.kind ≡ true → link_seen link.now ≡ revisit_link r.reference.known_profile r
            → result ≡ referent_of all r }
    {
        match link.role {
            Role::NamesId => match capture_with(&self.by_id, link.first) {
                Some(position) => Ok(position),
                None => Err(Unfound::Unresolved),
            },
            Role::NamesPair => self.named_pair(link),
            Role::NamesBoth => match capture_with(&self.by_id, link.first) {
                Some(position) => Ok(position),
                None => self.named_pair(link),
            },
            Role::NamesNothing => self.same_payload(position, link),
            Role::UnknownProfile => Err(Unfound::UnknownProfile),
            _ => Err(Unfound::NoReference),
        }
    }

    /// Whether a chain ends at a position: whether the record there isn't a revisit.
    fn ends(&self, position: usize) -> bool
        ensures { (all : List Indexed) → IsIndexOf all self.now → result ≡ not (is_revisit_at all position) }
    {
        ends_chain(&self.links, position)
    }

    /// The record that the one at a position refers to, `None` if it isn't a revisit.
    fn next(&self, position: usize) -> Result<Option<usize>, Unfound>
        ensures { (all : List Indexed) → IsIndexOf all self.now → result ≡ step_of all position }
    {
        if self.ends(position) {
            return Ok(None);
        }
        match self.led_to(position, &self.links.link(position)) {
            Ok(next) => Ok(Some(next)),
            Err(unfound) => Err(unfound),
        }
    }

    /// The position of the record that the one at a position refers to: one step of the way to its origin. `None` if
    /// the record isn't a revisit, or if what it refers to isn't found. It doesn't allocate.
    pub fn referent(&self, position: usize) -> Option<usize>
        ensures next { (all : List Indexed) → IsIndexOf all self.now → result ≡ next_of all position }
        ensures within { (all : List Indexed) → IsIndexOf all self.now → IfSome result (λ next. next < length all) }
    {
        match self.next(position) {
            Ok(next) => next,
            Err(_) => None,
        }
    }

    /// The place to which one step from each position leads: the position itself, if its chain ends there.
    fn first_places(&self, alloc: A) -> Result<Vec<usize, A>, AllocError>
        ensures { (all : List Indexed) → IsIndexOf all self.now → IfOk result (λ places.
            (length places.items ≡ length all) × ((p : ℕ) → p < length all →
            place_for places.items p ≡ onward (next_of all) p)) }
    {
        let mut places = Vec::new(alloc);
        places.reserve(self.count)?;
        'stepping: for position in 0..self.count {
            places.push(self.referent(position).unwrap_or(position))?;
        }
        Ok(places)
    }

    /// Where the chain of each record ends, or a place in the loop that it comes to.
    fn last_places(&self, alloc: A) -> Result<Vec<usize, A>, AllocError>
        ensures { IfOk result (λ places. AreChainsOf self.now places.items) }
    {
        let mut places = self.first_places(alloc)?;
        let mut steps = 1;
        'doubling: while steps < self.count {
            double(&mut places);
            steps += steps.min(self.count - steps);
        }
        Ok(places)
    }

    /// Has each origin found in one look-up from now on, until a record is added or taken away, also where each revisit
    /// names the one before. It takes eight bytes for each record, and passes over them, one more whenever there are
    /// twice as many. If the memory for that is refused, nothing changes, and each origin is found step by step.
    pub fn follow_chains(&mut self, alloc: A)
        ensures { self.new ≡ self.old }
    {
        if self.places.len() < self.count {
            if let Ok(places) = self.last_places(alloc) {
                self.places = places;
            }
        }
    }

    /// The origin by the place where a chain ends, or by one in the loop that it comes to.
    fn origin_from(&self, place: usize) -> Result<usize, Unfound>
        ensures { (all : List Indexed) → IsIndexOf all self.now → (position : ℕ) →
            Reaches (next_of all) (length all) position place → result ≡ origin_of all position }
    {
        match self.next(place) {
            Ok(None) => Ok(place),
            Ok(Some(_)) => Err(Unfound::Loop),
            Err(unfound) => Err(unfound),
        }
    }

    /// The origin, by as many steps as there are revisits on the way.
    fn origin_by_steps(&self, position: usize) -> Result<usize, Unfound>
        ensures { (all : List Indexed) → IsIndexOf all self.now → result ≡ origin_of all position }
    {
        let mut at = position;
        for _step in 0..self.count {
            match self.next(at) {
                Ok(Some(next)) => at = next,
                Ok(None) => return Ok(at),
                Err(unfound) => return Err(unfound),
            }
        }
        if self.ends(at) {
            Ok(at)
        } else {
            Err(Unfound::Loop)
        }
    }

    /// The origin of the capture at a position: the capture itself, or what a revisit leads to in the end. `Err`: P3 if
    /// the profile of a revisit isn't known; P4 if one names nothing and no payload of its target by its own instant
    /// has its digest; P5 if what one names isn't there; P6 if they lead back. It doesn't allocate. After
    /// `follow_chains` it takes one look-up, and else one for each revisit on the way, never more than there are
    /// records.
    pub fn origin(&self, position: usize) -> Result<usize, Unfound>
        ensures { (all : List Indexed) → IsIndexOf all self.now → result ≡ origin_of all position }
    {
        if self.places.is_empty() {
            self.origin_by_steps(position)
        } else {
            self.origin_from(place_for(&self.places, position))
        }
    }
}
