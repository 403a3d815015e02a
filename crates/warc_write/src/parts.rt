//! Records put together from their parts.
ghost use Rattle.std.specs.Prelude.{◌≡◌, [], ◌∷◌, ◌++◌, true, OnOk, decimal};
ghost use Rattle.warc_field.specs.Text.{is_name, is_value};
ghost use Rattle.warc_frame.specs.Record.{IsFramed};
ghost use Rattle.warc_frame.specs.FieldNames.{name_text};

use itoa::Buffer;
use std::alloc::{AllocError, Allocator};
use warc_field::{Fields, Name, Value};
use warc_frame::{FieldName, Framed, Version};

/// The record of these parts.
pub(crate) fn framed_of<A: Allocator>(
    version: Version,
    fields: Fields<A>,
    block: Vec<u8, A>,
) -> Framed<A>
    requires { IsFramed (record { version = version; fields = fields; block = block.items }) }
    ensures { result ≡ record { version = version; fields = fields; block = block.items } }
{
    match Framed::new(version, fields, block) {
        Ok(framed) => framed,
        Err(_) => unreachable!(),
    }
}

/// Adds a field at the end, by its name and its value.
pub(crate) fn add_copy<A: Allocator + Copy>(
    alloc: A,
    fields: &mut Fields<A>,
    name: &[u8],
    value: &[u8],
) -> Result<(), AllocError>
    requires named { is_name name.now ≡ true }
    requires valued { is_value value.now ≡ true }
    ensures { OnOk result (fields.new ≡ fields.old ++ (name.now, value.now) ∷ []) }
{
    fields.push(
        Name::from_checked(alloc, name)?,
        Value::from_checked(alloc, value)?,
    )
}

/// Adds a field at the end, by its value.
pub(crate) fn add_field<A: Allocator + Copy>(
    alloc: A,
    fields: &mut Fields<A>,
    name: FieldName,
    value: &[u8],
) -> Result<(), AllocError>
    requires { is_value value.now ≡ true }
    ensures { OnOk result (fields.new ≡ fields.old ++ (name_text name, value.now) ∷ []) }
{
    add_copy(alloc, fields, name.text().as_bytes(), value)
}

/// Adds a field at the end, by its name and the number that its value writes.
pub(crate) fn add_digits<A: Allocator + Copy>(
    alloc: A,
    fields: &mut Fields<A>,
    name: &[u8],
    number: u64,
) -> Result<(), AllocError>
    requires { is_name name.now ≡ true }
    ensures { OnOk result (fields.new ≡ fields.old ++ (name.now, decimal number) ∷ []) }
{
    let mut digits = Buffer::new();
    add_copy(alloc, fields, name, digits.format(number).as_bytes())
}

/// Adds a field at the end, by the number that its value writes.
pub(crate) fn add_number<A: Allocator + Copy>(
    alloc: A,
    fields: &mut Fields<A>,
    name: FieldName,
    number: u64,
) -> Result<(), AllocError>
    ensures { OnOk result (fields.new ≡ fields.old ++ (name_text name, decimal number) ∷ []) }
{
    add_digits(alloc, fields, name.text().as_bytes(), number)
}
