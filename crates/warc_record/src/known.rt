//! The fields of a head by their names.
ghost use Rattle.std.specs.Prelude.{◌≡◌, true, List, ℕ, ◌++◌, ◌∷◌, [], length, nat_lt, IfSome, Some};
ghost use Rattle.std.specs.Option.{option_copied};
ghost use Rattle.warc_field.specs.Area.{Pair, count_of, first_value};
ghost use Rattle.warc_field.specs.Text.{same};
ghost use Rattle.warc_frame.specs.FieldNames.{name_count, name_text};
ghost use Rattle.warc_record.specs.Known.{next_spot, spot_place, AreSpots};

use crate::head_fields::HeadFields;
use crate::table::may_repeat;
use std::alloc::Allocator;
use std::marker::Model;
use warc_field::{Fields, Name, Value};
use warc_frame::laws::are_field_names;
use warc_frame::{FieldName, NAME_COUNT};

/// The field of the standard that a name names, in any case.
fn known_as<A: Allocator>(name: &Name<A>) -> Option<FieldName>
    ensures only { (known : FieldName) → same name.now (name_text known) ≡ true → result ≡ Some known }
    ensures is { IfSome result (λ known. same name.now (name_text known) ≡ true) }
{
    let known = FieldName::candidate(name.bytes())?;
    if name.is(known.text().as_bytes()) {
        Some(known)
    } else {
        None
    }
}

/// The places of the fields of a name.
#[derive(Clone, Copy)]
pub(crate) enum Spot {
    Absent,
    /// At this place alone.
    Once(usize),
    /// At this place first, and at others.
    Repeated(usize),
}

impl Spot {
    /// The spot of the same name after another field of it, which is at this place.
    fn next(self, place: usize) -> Spot
        ensures { result ≡ next_spot self place }
    {
        match self {
            Spot::Absent => Spot::Once(place),
            Spot::Once(first) | Spot::Repeated(first) => Spot::Repeated(first),
        }
    }

    /// The place of the first field.
    fn first(self) -> Option<usize>
        ensures { result ≡ spot_place self }
    {
        match self {
            Spot::Absent => None,
            Spot::Once(first) | Spot::Repeated(first) => Some(first),
        }
    }
}

/// The spot of each name, at its place.
pub(crate) type Spots = [Spot; NAME_COUNT];

/// A head's fields, found by the names that it is read by. Contracts see the list of fields.
#[derive(Drop)]
pub(crate) struct ByName<'a, A: Allocator> {
    fields: &'a Fields<A>,
    spots: Spots,
}

impl<'a, A: Allocator> Model for ByName<'a, A> {
    ghost use Rattle.std.specs.Prelude.{List, ℕ};
    ghost use Rattle.warc_record.specs.Known.{AreSpots};

    ghost Value = { List (List ℕ × List ℕ) };

    ghost view = { λ f. f.fields.now };

    ghost invariant = { λ f. AreSpots f.fields.now f.spots };
}

/// Adds a field to those whose spots these are.
#[tactic(auto, using(crate::proofs::KnownLemmas::known_added, crate::proofs::KnownLemmas::other_added))]
fn add<A: Allocator>(name: &Name<A>, place: usize, spots: &mut [Spot])
    requires { length spots.old ≡ name_count }
    ensures spots { (fields : List Pair) (value : List ℕ) → place ≡ length fields → AreSpots fields spots.old
        → AreSpots (fields ++ (name.now, value) ∷ []) spots.new }
{
    are_field_names();
    if let Some(known) = known_as(name) {
        let at = known.place();
        spots[at] = spots[at].next(place);
    }
}

/// The spots of these fields.
fn spots_of<A: Allocator>(fields: &Fields<A>) -> Spots
    ensures { AreSpots fields.now result }
{
    are_field_names();
    let mut spots = [Spot::Absent; NAME_COUNT];
    let pairs = fields.as_slice();
    for place in 0..pairs.len() {
        add(&pairs[place].0, place, &mut spots);
    }
    spots
}

impl<'a, A: Allocator> ByName<'a, A> {
    /// These fields, found by their names. It goes over them once.
    pub(crate) fn new(fields: &'a Fields<A>) -> ByName<'a, A>
        ensures { result ≡ fields.now }
    {
        ByName {
            fields,
            spots: spots_of(fields),
        }
    }

    /// The fields whose spots these are.
    pub(crate) fn with(fields: &'a Fields<A>, spots: Spots) -> ByName<'a, A>
        requires { AreSpots fields.now spots }
        ensures { result ≡ fields.now }
    {
        ByName { fields, spots }
    }

    /// The names and values, in order.
    pub(crate) fn as_slice(&self) -> &'a [(Name<A>, Value<A>)]
        ensures { result.now ≡ self.now }
    {
        self.fields.as_slice()
    }

    /// The spots of these fields.
    pub(crate) fn spots(&self) -> Spots
        ensures { AreSpots self.now result }
    {
        self.spots
    }

    /// The value of the first field of this name.
    pub(crate) fn first(&self, name: FieldName) -> Option<&'a Value<A>>
        ensures { option_copied result ≡ first_value (name_text name) self.now }
    {
        let place = self.spots[name.place()].first()?;
        let (_, value) = self.fields.get(place)?;
        Some(value)
    }

    /// Whether another field of this name follows it.
    pub(crate) fn repeats(&self, name: FieldName) -> bool
        ensures { result ≡ nat_lt 1 (count_of (name_text name) self.now) }
    {
        match self.spots[name.place()] {
            Spot::Absent | Spot::Once(_) => false,
            Spot::Repeated(_) => true,
        }
    }
}

impl<'a, A: Allocator> HeadFields<'a> for ByName<'a, A> {
    ghost reads = { λ known pairs. known ≡ pairs };

    fn first_text(&self, name: FieldName) -> Option<&'a [u8]> {
        match self.first(name) {
            Some(value) => Some(value.bytes()),
            None => None,
        }
    }

    fn occurs_again(&self, name: FieldName) -> bool {
        !may_repeat(name) && self.repeats(name)
    }
}
