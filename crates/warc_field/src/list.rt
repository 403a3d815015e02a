//! The list of a head's fields.
ghost use Rattle.std.specs.Prelude.{◌≡◌, ◌+◌, ◌<◌, ◌≤◌, [], ◌∷◌, ◌++◌, OnOk, OnErr, length, take, true, IsTrue, ◌↔◌};
ghost use Rattle.std.specs.Prelude.{MatchOption, Some, slice_get};
ghost use Rattle.std.specs.Option.{option_copied};
ghost use Rattle.warc_field.specs.Area.{count_of, first_value, value_or_empty};
ghost use Rattle.warc_field.specs.Text.{AreFields, IsField, is_name, is_value};

use crate::text::{Name, Value};
use std::alloc::{AllocError, Allocator, Global};
use std::marker::Model;

/// Named fields in order. Contracts see the list of their names and values.
#[derive(Debug, Drop)]
pub struct Fields<A: Allocator = Global> {
    pairs: Vec<(Name<A>, Value<A>), A>,
}

impl<A: Allocator> Model for Fields<A> {
    ghost use Rattle.std.specs.Prelude.{List, ℕ};
    ghost use Rattle.warc_field.specs.Text.{AreFields};

    ghost Value = { List (List ℕ × List ℕ) };

    ghost view = { λ f. f.pairs.items };

    ghost invariant = { λ f. AreFields f.pairs.items };
}

/// Writes a name and a value, known to be valid, over others. `Err`: no memory for them.
fn set_pair<A: Allocator + Copy>(
    pair: &mut (Name<A>, Value<A>),
    alloc: A,
    name: &[u8],
    value: &[u8],
) -> Result<(), AllocError>
    requires name { is_name name.now ≡ true }
    requires value { is_value value.now ≡ true }
    ensures pair { OnOk result (pair.new ≡ (name.now, value.now)) }
    ensures field { IsField pair.new }
{
    let _valued = pair.1.bytes();
    pair.0.set(alloc, name)?;
    pair.1.set(alloc, value)
}

impl<A: Allocator + Copy> Fields<A> {
    /// The allocator of its memory.
    pub(crate) fn allocator(&self) -> A {
        *self.pairs.allocator()
    }

    /// Writes a field over the one at a place, or adds it at the end. `Err`: no memory for it.
    pub(crate) fn put(&mut self, place: usize, name: &[u8], value: &[u8]) -> Result<(), AllocError>
        requires place { place ≤ length self.old }
        requires name { is_name name.now ≡ true }
        requires value { is_value value.now ≡ true }
        ensures front { OnOk result (take (place + 1) self.new ≡ take place self.old ++ (name.now, value.now) ∷ []) }
        ensures within { OnOk result (place < length self.new) }
    {
        let alloc = self.allocator();
        if place < self.pairs.len() {
            return set_pair(&mut self.pairs[place], alloc, name, value);
        }
        let name = Name::from_checked(alloc, name)?;
        let value = Value::from_checked(alloc, value)?;
        self.push(name, value)?;
        Ok(())
    }
}

impl<A: Allocator> Fields<A> {
    /// No fields yet. It doesn't allocate.
    pub fn new(alloc: A) -> Fields<A>
        ensures { result ≡ [] }
    {
        Fields {
            pairs: Vec::new(alloc),
        }
    }

    /// Makes room for n fields, unless there is some. The fields stay.
    pub(crate) fn reserve_first(&mut self, count: usize) -> Result<(), AllocError>
        ensures { self.new ≡ self.old }
    {
        if self.pairs.capacity() == 0 {
            self.pairs.reserve(count)?;
        }
        Ok(())
    }

    /// Keeps the first n fields.
    pub(crate) fn truncate(&mut self, count: usize)
        ensures { self.new ≡ take count self.old }
    {
        self.pairs.truncate(count);
    }

    /// Adds a field at the end. If an allocation fails, the fields stay as they were, and the given one is dropped.
    pub fn push(&mut self, name: Name<A>, value: Value<A>) -> Result<(), AllocError>
        ensures ok { OnOk result (self.new ≡ self.old ++ (name, value) ∷ []) }
        ensures err { OnErr result (self.new ≡ self.old) }
    {
        let _named = name.bytes();
        let _valued = value.bytes();
        self.pairs.push((name, value))?;
        Ok(())
    }

    /// How many fields there are.
    pub fn len(&self) -> usize
        ensures len { result ≡ length self.now }
        ensures fields { AreFields self.now }
    {
        self.pairs.len()
    }

    /// Whether there is no field.
    pub fn is_empty(&self) -> bool
        ensures { IsTrue result ↔ (self.now ≡ []) }
    {
        self.pairs.is_empty()
    }

    /// The names and values, in order.
    pub fn as_slice(&self) -> &[(Name<A>, Value<A>)]
        ensures { result.now ≡ self.now }
    {
        &self.pairs
    }

    /// The field at a place, counted from 0; `None` past the end.
    pub fn get(&self, place: usize) -> Option<(&Name<A>, &Value<A>)>
        ensures { MatchOption result (length self.now ≤ place)
            (λ field. slice_get self.now place ≡ Some (field.0.now, field.1.now)) }
    {
        if place < self.pairs.len() {
            let pair = &self.pairs[place];
            Some((&pair.0, &pair.1))
        } else {
            None
        }
    }

    /// The value of the first field of this name: ASCII case doesn't matter.
    pub fn first(&self, name: &[u8]) -> Option<&Value<A>>
        ensures { option_copied result ≡ first_value name.now self.now }
    {
        let pair = self.pairs.iter().find(|pair| pair.0.is(name))?;
        Some(&pair.1)
    }

    /// The value of the first field of this name, empty where there is none: ASCII case doesn't matter.
    #[tactic(auto, unfolding(crate::specs::Text::is_value))]
    pub fn value_of(&self, name: &[u8]) -> &[u8]
        ensures text { result.now ≡ value_or_empty name.now self.now }
        ensures value { is_value result.now ≡ true }
    {
        match self.first(name) {
            Some(value) => value.bytes(),
            None => b"",
        }
    }

    /// How many fields have this name: ASCII case doesn't matter.
    pub fn count(&self, name: &[u8]) -> usize
        ensures { result ≡ count_of name.now self.now }
    {
        self.pairs.iter().filter(|pair| pair.0.is(name)).count()
    }
}
