//! Bytes that are written as escapes.

use std::alloc::AllocError;

/// What the bytes of an escape so far say.
#[derive(Clone, Copy)]
enum Escape {
    /// None is begun.
    Nothing,
    Backslash,
    /// `\x`.
    Byte,
    /// `\x` and a digit of this value.
    Half(u8),
}

/// The value of a hexadecimal digit; 0 for another byte.
fn digit(byte: u8) -> u8 {
    match byte {
        b'0'..=b'9' => byte - b'0',
        b'a'..=b'f' => byte - b'a' + 10,
        b'A'..=b'F' => byte - b'A' + 10,
        _ => 0,
    }
}

/// The byte that a byte after a backslash means, unless it is `x`.
fn named(byte: u8) -> u8 {
    match byte {
        b'n' => b'\n',
        b'r' => b'\r',
        b't' => b'\t',
        _ => byte,
    }
}

impl Escape {
    /// What it says with one byte more, and the byte that it ends in.
    fn with(self, byte: u8) -> (Escape, Option<u8>) {
        match (self, byte) {
            (Escape::Nothing, b'\\') => (Escape::Backslash, None),
            (Escape::Nothing, _) => (Escape::Nothing, Some(byte)),
            (Escape::Backslash, b'x') => (Escape::Byte, None),
            (Escape::Backslash, _) => (Escape::Nothing, Some(named(byte))),
            (Escape::Byte, _) => (Escape::Half(digit(byte)), None),
            (Escape::Half(high), _) => {
                let value = (high & 15) << 4 | digit(byte);
                (Escape::Nothing, Some(value))
            }
        }
    }
}

/// Adds a text whose escapes are the bytes that they mean.
pub fn add_unescaped(text: &mut Vec<u8>, raw: &[u8]) -> Result<(), AllocError> {
    let mut escape = Escape::Nothing;
    for byte in raw {
        let (next, whole) = escape.with(*byte);
        if let Some(it) = whole {
            text.push(it)?;
        }
        escape = next;
    }
    Ok(())
}
