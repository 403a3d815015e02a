//! The values of the fields by which a head is read in place.
ghost use Rattle.std.specs.Prelude.{◌≡◌, ◌∷◌, ◌++◌, [], true, List, None};
ghost use Rattle.warc_field.specs.Area.{Pair, first_value, value_or_empty};
ghost use Rattle.warc_frame.specs.declared.field_name.FieldName.{FieldName};
ghost use Rattle.warc_frame.specs.FieldNames.{name_text};
ghost use Rattle.warc_quick.specs.Names.{IsNaming};
ghost use Rattle.warc_quick.specs.Fronts.{AreValues, IsValueOf};

use crate::lines::Line;
use crate::names::Naming;
use warc_frame::laws::are_field_names;
use warc_frame::{FieldName, NAME_COUNT};
use warc_record::{HeadFields, may_repeat};

/// The value of the first field of each name. Of a name that may not repeat it is the only one.
#[derive(Clone, Copy)]
pub(crate) struct Values<'a> {
    values: [Option<&'a [u8]>; NAME_COUNT],
}

impl<'a> Values<'a> {
    /// No field yet.
    pub(crate) fn none() -> Values<'a>
        ensures { AreValues [] result.values }
    {
        Values {
            values: [None; NAME_COUNT],
        }
    }

    /// Adds the field of a line. False if it repeats one of the names that may not repeat.
    pub(crate) fn add(&mut self, line: &Line<'a>) -> bool
        requires { IsNaming line.now.name.now line.now.naming }
        ensures { (fields : List Pair) → AreValues fields self.old.values → result ≡ true
            → AreValues (fields ++ (line.now.name.now, line.now.value.now) ∷ []) self.new.values }
    {
        are_field_names();
        let name = match line.naming {
            Naming::Known(name) => name,
            Naming::Other => return true,
        };
        let place = name.place();
        if self.values[place].is_some() {
            return may_repeat(name);
        }
        self.values[place] = Some(line.value);
        true
    }

    /// The value of the first field of a name.
    pub(crate) fn first(&self, name: FieldName) -> Option<&'a [u8]>
        ensures { (fields : List Pair) → AreValues fields self.now.values → IsValueOf name fields result }
    {
        self.values[name.place()]
    }

    /// Whether no field has a name.
    pub(crate) fn is_absent(&self, name: FieldName) -> bool
        ensures { (fields : List Pair) → AreValues fields self.now.values → result ≡ true
            → first_value (name_text name) fields ≡ None }
    {
        self.first(name).is_none()
    }

    /// The value of the first field of a name, empty if there is none.
    pub(crate) fn value_of(&self, name: FieldName) -> &'a [u8]
        ensures { (fields : List Pair) → AreValues fields self.now.values
            → result.now ≡ value_or_empty (name_text name) fields }
    {
        match self.first(name) {
            Some(value) => value,
            None => b"",
        }
    }
}

impl<'a> HeadFields<'a> for Values<'a> {
    ghost reads = { λ read pairs. AreValues pairs read.values };

    fn first_text(&self, name: FieldName) -> Option<&'a [u8]> {
        self.first(name)
    }

    #[tactic(auto, using(crate::proofs::ValueLemmas::never_again))]
    fn occurs_again(&self, _name: FieldName) -> bool {
        false
    }
}
