//! Texts as JSON has them, without memory.
ghost use Rattle.std.specs.Prelude.{◌≡◌, ◌<◌, [], ◌∷◌, MatchOption};
ghost use Rattle.std.specs.Bool.{OnTrue};
ghost use Rattle.std.specs.Char.{digit_char};
ghost use Rattle.std.specs.Str.{is_utf8};
ghost use Rattle.hex.specs.Hex.{encode_lower};
ghost use Rattle.json.specs.Print.{escape, escape_byte, escape_letter, quoted};
ghost use Rattle.warc_frame.specs.Effects.{Puts};
ghost use Rattle.warc_json.specs.Parts.{hex_text, text_text};

use hex::encode_to_slice;
use warc_frame::{OutBuffer, SendFault, Sink};

/// The letter that follows the backslash in the short escape of a byte.
fn escape_letter(byte: u8) -> Option<u8>
    ensures { MatchOption result (escape_letter byte ≡ 0) (λ letter. (escape_letter byte ≡ letter) × (0 < letter)) }
{
    match byte {
        b'"' | b'\\' => Some(byte),
        0x08 => Some(b'b'),
        0x0c => Some(b'f'),
        b'\n' => Some(b'n'),
        b'\r' => Some(b'r'),
        b'\t' => Some(b't'),
        _ => None,
    }
}

/// The hexadecimal digit of a number.
fn digit(number: u8) -> u8
    requires { number < 16 }
    ensures { result ≡ digit_char number }
{
    if number < 10 {
        b'0' + number
    } else {
        b'a' + (number - 10)
    }
}

/// Adds a byte of a string to the output, with its escape if it needs one.
fn put_escape<W: Sink>(byte: u8, buffer: &mut OutBuffer, out: &mut W) -> Result<(), SendFault>
    ensures { Puts (W.seen out.old) (W.seen out.new) buffer.old buffer.new result (escape_byte byte) }
{
    if let Some(letter) = escape_letter(byte) {
        return buffer.put(out, &[b'\\', letter]);
    }
    if byte >= 0x20 {
        return buffer.put(out, &[byte]);
    }
    let (high, low) = (digit(byte / 16), digit(byte % 16));
    buffer.put(out, &[b'\\', b'u', b'0', b'0', high, low])
}

/// Whether a byte of a string needs no escape.
#[tactic(auto, using(crate::proofs::EscapeLemmas::plain_byte))]
fn is_plain(byte: u8) -> bool
    ensures { OnTrue result (escape_byte byte ≡ byte ∷ []) }
{
    match escape_letter(byte) {
        None if byte >= 0x20 => true,
        _ => false,
    }
}

/// Whether no byte of a text needs an escape.
fn are_plain(text: &[u8]) -> bool
    ensures { OnTrue result (escape text.now ≡ text.now) }
{
    for byte in text {
        if !is_plain(*byte) {
            return false;
        }
    }
    true
}

/// Adds the bytes of a string to the output, one by one.
fn put_each<W: Sink>(text: &[u8], buffer: &mut OutBuffer, out: &mut W) -> Result<(), SendFault>
    ensures { Puts (W.seen out.old) (W.seen out.new) buffer.old buffer.new result (escape text.now) }
{
    'putting: for byte in text {
        put_escape(*byte, buffer, out)?;
    }
    Ok(())
}

/// Adds the bytes of a string to the output. Few texts need an escape.
fn put_escaped<W: Sink>(text: &[u8], buffer: &mut OutBuffer, out: &mut W) -> Result<(), SendFault>
    ensures { Puts (W.seen out.old) (W.seen out.new) buffer.old buffer.new result (escape text.now) }
{
    if are_plain(text) {
        return buffer.put(out, text);
    }
    put_each(text, buffer, out)
}

/// Adds a string to the output.
pub(crate) fn put_quoted<W: Sink>(
    text: &[u8],
    buffer: &mut OutBuffer,
    out: &mut W,
) -> Result<(), SendFault>
    ensures { Puts (W.seen out.old) (W.seen out.new) buffer.old buffer.new result (quoted text.now) }
{
    buffer.put(out, b"\"")?;
    put_escaped(text, buffer, out)?;
    buffer.put(out, b"\"")
}

/// Adds the hexadecimal digits of bytes to the output.
fn put_digits<W: Sink>(bytes: &[u8], buffer: &mut OutBuffer, out: &mut W) -> Result<(), SendFault>
    ensures { Puts (W.seen out.old) (W.seen out.new) buffer.old buffer.new result (escape (encode_lower bytes.now)) }
{
    'putting: for byte in bytes {
        put_two(*byte, buffer, out)?;
    }
    Ok(())
}

/// Adds the two digits of a byte to the output.
fn put_two<W: Sink>(byte: u8, buffer: &mut OutBuffer, out: &mut W) -> Result<(), SendFault>
    ensures { Puts (W.seen out.old) (W.seen out.new) buffer.old buffer.new result
        (escape (encode_lower (byte ∷ []))) }
{
    let mut digits = [0; 2];
    let Ok(()) = encode_to_slice([byte], &mut digits) else {
        unreachable!()
    };
    put_escaped(&digits, buffer, out)
}

/// Adds bytes that aren't UTF-8 to the output, as an object.
fn put_hex<W: Sink>(bytes: &[u8], buffer: &mut OutBuffer, out: &mut W) -> Result<(), SendFault>
    ensures { Puts (W.seen out.old) (W.seen out.new) buffer.old buffer.new result
        (hex_text bytes.now) }
{
    buffer.put(out, b"{\"hex\":\"")?;
    put_digits(bytes, buffer, out)?;
    buffer.put(out, b"\"}")
}

/// Whether the bytes are UTF-8.
#[tactic(auto, using(crate::proofs::EscapeLemmas::utf8_is, crate::proofs::EscapeLemmas::utf8_is_not))]
fn is_utf8(bytes: &[u8]) -> bool
    ensures { result ≡ is_utf8 bytes.now }
{
    match str::from_utf8(bytes) {
        Ok(_) => true,
        Err(_) => false,
    }
}

/// Adds a text to the output.
pub(crate) fn put_text<W: Sink>(
    text: &[u8],
    buffer: &mut OutBuffer,
    out: &mut W,
) -> Result<(), SendFault>
    ensures { Puts (W.seen out.old) (W.seen out.new) buffer.old buffer.new result
        (text_text text.now) }
{
    if is_utf8(text) {
        put_quoted(text, buffer, out)
    } else {
        put_hex(text, buffer, out)
    }
}
