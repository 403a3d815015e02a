//! Which bytes may stand at a place of a text.

use std::alloc::{AllocError, Global};
use warc_field::{AreaFault, Name, TextFault, Value, is_name, is_value, read_area};
use warc_value::unbase32;

/// What a text is read as.
#[derive(Clone, Copy)]
pub(crate) enum Reading {
    Name,
    Value,
    Area,
    Base32,
}

/// Whether a name is kept that gives the text back.
pub(crate) fn keeps_name<A: std::alloc::Allocator>(
    alloc: A,
    text: &[u8],
) -> Result<bool, TextFault> {
    match Name::new(alloc, text) {
        Ok(name) => Ok(name.bytes() == text),
        Err(fault) => Err(fault),
    }
}

/// Whether a value is kept that gives the text back.
pub(crate) fn keeps_value<A: std::alloc::Allocator>(
    alloc: A,
    text: &[u8],
) -> Result<bool, TextFault> {
    match Value::new(alloc, text) {
        Ok(value) => Ok(value.bytes() == text),
        Err(fault) => Err(fault),
    }
}

/// What the test of a text and what is kept of it say, if both say the same.
fn agreed(is_one: bool, kept: Result<bool, TextFault>) -> Option<bool> {
    match kept {
        Ok(true) if is_one => Some(true),
        Err(TextFault::BadText) if !is_one => Some(false),
        _ => None,
    }
}

/// Whether a text is an area, or its first line is no field.
fn is_area(alloc: Global, text: &[u8]) -> Option<bool> {
    match read_area(alloc, text) {
        Ok(_) => Some(true),
        Err(AreaFault::Line(0)) => Some(false),
        Err(_) => None,
    }
}

impl Reading {
    pub(crate) fn named(word: &str) -> Reading {
        match word {
            "name" => Reading::Name,
            "value" => Reading::Value,
            "area" => Reading::Area,
            _ => Reading::Base32,
        }
    }

    /// Whether a text is one; `None` if two ways answer differently, or something else is kept.
    pub(crate) fn is_of(self, alloc: Global, text: &[u8]) -> Option<bool> {
        match self {
            Reading::Name => agreed(is_name(text), keeps_name(alloc, text)),
            Reading::Value => agreed(is_value(text), keeps_value(alloc, text)),
            Reading::Area => is_area(alloc, text),
            Reading::Base32 => Some(unbase32(text).is_some()),
        }
    }
}

/// A text with a byte in place of each `?`.
fn filled(alloc: Global, pattern: &[u8], byte: u8) -> Result<Vec<u8>, AllocError> {
    let mut text = pattern.to_vec(alloc)?;
    for place in &mut text {
        if *place == b'?' {
            *place = byte;
        }
    }
    Ok(text)
}

/// Adds the bytes with which a text is one, or is none, on a line.
pub(crate) fn say_bytes(
    alloc: Global,
    answer: &mut Vec<u8>,
    reading: Reading,
    pattern: &[u8],
    is_one: bool,
) -> Result<(), AllocError> {
    for byte in 0..=255u8 {
        let text = filled(alloc, pattern, byte)?;
        match reading.is_of(alloc, &text) {
            Some(it) if it == is_one => answer.push(byte)?,
            Some(_) => {}
            None => answer.extend_from_slice(b" told in two ways ")?,
        }
    }
    answer.extend_from_slice(b"\n")
}
