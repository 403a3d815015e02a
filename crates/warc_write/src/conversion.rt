//! Records of WARC 1.0 rewritten as records of WARC 1.1.
ghost use Rattle.std.specs.Prelude.{◌≡◌, IfOk};
ghost use Rattle.warc_write.specs.Conversion.{converted, converted_field, converted_fields};

use crate::parts::framed_of;
use std::alloc::{AllocError, Allocator};
use warc_field::{Fields, Name, Value};
use warc_frame::{Framed, Version, names};
use warc_record::bare;
use warc_record::laws::bare_texts_of_values;

/// The field's value as WARC 1.1 writes it: the bare text of a target.
fn converted_value<A: Allocator>(
    alloc: A,
    name: &Name<A>,
    value: &Value<A>,
) -> Result<Value<A>, AllocError>
    ensures { IfOk result (λ text. (name.now, text) ≡ converted_field (name.now, value.now)) }
{
    bare_texts_of_values();
    if name.is(names::WARC_TARGET_URI.as_bytes()) {
        Value::from_checked(alloc, bare(value.bytes()))
    } else {
        Value::from_checked(alloc, value.bytes())
    }
}

/// The fields, each target without its brackets.
fn converted_all<A: Allocator + Copy>(
    alloc: A,
    fields: &[(Name<A>, Value<A>)],
) -> Result<Fields<A>, AllocError>
    ensures { IfOk result (λ all. all ≡ converted_fields fields.now) }
{
    let mut all = Fields::new(alloc);
    for field in fields {
        let name = Name::from_checked(alloc, field.0.bytes())?;
        let value = converted_value(alloc, &field.0, &field.1)?;
        all.push(name, value)?;
    }
    Ok(all)
}

/// The fields of a head as WARC 1.1 writes them, without a block in memory: each value of a `WARC-Target-URI` field is
/// its bare text, and all else is as it was. It fails only if an allocation fails.
pub fn convert_fields<A: Allocator + Copy>(
    alloc: A,
    fields: &Fields<A>,
) -> Result<Fields<A>, AllocError>
    ensures { IfOk result (λ new. new ≡ converted_fields fields.now) }
{
    converted_all(alloc, fields.as_slice())
}

/// The record as one of WARC 1.1 (ISO 28500:2017, 5.14, whose targets have no brackets): its version is 1.1, each value
/// of a `WARC-Target-URI` field is its bare text, and all else is as it was. It fails only if an allocation fails.
pub fn convert<A: Allocator + Copy>(alloc: A, framed: &Framed<A>) -> Result<Framed<A>, AllocError>
    ensures { IfOk result (λ new. new ≡ converted framed.now) }
{
    let fields = convert_fields(alloc, framed.fields())?;
    let block = Vec::from_slice(alloc, framed.block())?;
    Ok(framed_of(Version::V1_1, fields, block))
}
