//! A field area, read: its lines, and the fields that they are.
ghost use Rattle.std.specs.Prelude.{◌≡◌, IfOk, IfErr, List, Some, None, Ok, option_map, IfSome, position, length, ◌<◌, ◌≤◌};
ghost use Rattle.warc_field.specs.Area.{Pair, is_colon, value_of, field_of, area_of, Reads, SpellsFields, ReportsBadLine, ReportsWithin};
ghost use Rattle.warc_field.specs.FaultText.{area_fault_text};
ghost use Rattle.warc_field.specs.Meant.{meant, field_meant, IsPut};
ghost use Rattle.warc_field.specs.Text.{IsField};
ghost use Rattle.warc_field.specs.declared.area.AreaFault.TheVariants.{Memory};

use crate::lines::{split_line, unfold};
use crate::list::Fields;
use crate::text::{Value, holds_value_bytes, is_name, trim, trim_in_place};
use memchr::memchr;
use std::alloc::{AllocError, Allocator};
use std::fmt;
use thiserror::Error;

/// Why a field area wasn't read.
#[derive(Clone, Copy, PartialEq, Eq, Debug, Error)]
pub enum AreaFault {
    /// A line is no field, or isn't ended; the first such line begins at this offset, in bytes from the area's start.
    Line(usize),

    /// An allocation failed.
    Memory,
}

impl fmt::Display for AreaFault {
    ghost output = { λ fault. Some (area_fault_text fault) };

    fn fmt<W: fmt::Write>(&self, f: &mut fmt::Formatter<W>) -> fmt::Result {
        match self {
            AreaFault::Line(offset) => write!(f, "no field at {offset}"),
            AreaFault::Memory => write!(f, "out of memory"),
        }
    }
}

impl From<AllocError> for AreaFault {
    ghost from_gives = { λ _ e. e ≡ Memory };

    fn from(_error: AllocError) -> AreaFault {
        AreaFault::Memory
    }
}

/// The value that the rest of a line means, by its definition.
#[tactic(auto, using(crate::proofs::TextLemmas::rest_is_value), unfolding(crate::specs::Area::value_of))]
fn read_folded_value<A: Allocator>(alloc: A, rest: &[u8]) -> Result<Option<Value<A>>, AllocError>
    ensures { IfOk result (λ v. v ≡ value_of rest.now) }
{
    let mut text = unfold(alloc, rest)?;
    trim_in_place(&mut text);
    if holds_value_bytes(&text) {
        Ok(Some(Value::from_vec(text)))
    } else {
        Ok(None)
    }
}

/// What the rest of a line means: a part of the line, or the text that its folded lines mean.
#[derive(Drop)]
enum Meaning<'a, A: Allocator> {
    Plain(&'a [u8]),
    Folded(Value<A>),
}

impl<A: Allocator> Meaning<'_, A> {
    fn bytes(&self) -> &[u8]
        ensures { result.now ≡ meant self.now }
    {
        match self {
            Meaning::Plain(text) => text,
            Meaning::Folded(value) => value.bytes(),
        }
    }
}

/// The value that the rest of a line means. A rest without a control character has no fold: its value is a part of it.
#[tactic(auto, using(crate::proofs::TextLemmas::rest_is_value, crate::proofs::TextLemmas::clean_value))]
fn read_value<A: Allocator>(alloc: A, rest: &[u8]) -> Result<Option<Meaning<'_, A>>, AllocError>
    ensures { IfOk result (λ v. option_map meant v ≡ value_of rest.now) }
{
    let text = trim(rest);
    if holds_value_bytes(text) {
        return Ok(Some(Meaning::Plain(text)));
    }
    match read_folded_value(alloc, rest)? {
        Some(value) => Ok(Some(Meaning::Folded(value))),
        None => Ok(None),
    }
}

/// The place of the first colon.
#[tactic(auto, using(crate::proofs::TokenLemmas::first_is_position))]
fn first_colon(line: &[u8]) -> Option<usize>
    ensures value { result ≡ position is_colon line.now }
    ensures within { IfSome result (λ k. k < length line.now) }
{
    memchr(b':', line)
}

/// The field that a line is.
#[tactic(auto, unfolding(crate::specs::Area::field_of))]
fn read_field<A: Allocator + Copy>(
    alloc: A,
    line: &[u8],
) -> Result<Option<(&[u8], Meaning<'_, A>)>, AllocError>
    ensures field { IfOk result (λ f. option_map field_meant f ≡ field_of line.now) }
    ensures valid { IfOk result (λ f. IfSome f (λ field. IsField (field_meant field))) }
{
    let Some(colon) = first_colon(line) else {
        return Ok(None);
    };
    let name = &line[..colon];
    if !is_name(name) {
        return Ok(None);
    }
    let Some(value) = read_value(alloc, &line[colon + 1..])? else {
        return Ok(None);
    };
    Ok(Some((name, value)))
}

/// Writes the field that a line is over another one, or adds it at the end. False if the line is no field.
fn put_line<A: Allocator + Copy>(
    line: &[u8],
    place: usize,
    fields: &mut Fields<A>,
) -> Result<bool, AllocError>
    requires { place ≤ length fields.old }
    ensures { IfOk result (IsPut (field_of line.now) place fields.old fields.new) }
{
    let Some((name, value)) = read_field(fields.allocator(), line)? else {
        return Ok(false);
    };
    fields.put(place, name, value.bytes())?;
    Ok(true)
}

/// How many fields an area has room for before it grows: most heads have fewer.
const ROOM: usize = 16;

/// The fields that the lines of an area are, read from a head's bytes between its version line and its empty line.
/// Each line ends with CRLF; a CRLF that a space or tab follows continues the line.
pub fn read_area<A: Allocator + Copy>(alloc: A, area: &[u8]) -> Result<Fields<A>, AreaFault>
    // What is read is spelled by each byte of the area.
    ensures found { IfOk result (λ fields. SpellsFields fields area.now) }

    // What is spelled is read, unless memory runs out.
    ensures only { (fields : List Pair) → SpellsFields fields area.now → Reads (λ f. f) result (Ok fields) }

    // A fault other than a failed allocation is the first line that is no field or isn't ended.
    ensures bad { IfErr result (ReportsBadLine area.now) }

    // The result is what `area_of` computes, unless memory runs out.
    ensures exact { Reads (λ f. f) result (area_of area.now) }
    ensures within { IfErr result (ReportsWithin (length area.now)) }
{
    read_area_in(Fields::new(alloc), area)
}

/// The fields that `read_area` gives, in the memory of fields that are no longer needed: a head that is read after a
/// similar one doesn't allocate.
pub fn read_area_in<A: Allocator + Copy>(
    spare: Fields<A>,
    area: &[u8],
) -> Result<Fields<A>, AreaFault>
    ensures exact { Reads (λ f. f) result (area_of area.now) }
    ensures within { IfErr result (ReportsWithin (length area.now)) }
{
    let mut fields = spare;
    fields.reserve_first(ROOM)?;
    read_lines(area, &mut fields)?;
    Ok(fields)
}

/// Writes the fields of an area's lines over others, by the computing definition alone.
fn read_lines<A: Allocator + Copy>(area: &[u8], fields: &mut Fields<A>) -> Result<(), AreaFault>
    ensures exact { Reads (λ _. fields.new) result (area_of area.now) }
    ensures within { IfErr result (ReportsWithin (length area.now)) }
{
    let mut count = 0;
    let mut rest = area;
    while let Some((line, more)) = split_line(rest) {
        let is_field = put_line(line, count, fields)?;
        if !is_field {
            return Err(AreaFault::Line(area.len() - rest.len()));
        }
        count += 1;
        rest = more;
    }
    if rest.is_empty() {
        fields.truncate(count);
        Ok(())
    } else {
        Err(AreaFault::Line(area.len() - rest.len()))
    }
}
