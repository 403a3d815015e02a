//! Digests in hexadecimal and in base32.
ghost use Rattle.std.specs.Prelude.{◌≡◌, ◌==◌, ◌||◌, ◌<◌, ◌≤◌, length, IfSome};
ghost use Rattle.std.specs.Option.{option_copied};
ghost use Rattle.std.specs.List.{list_all};
ghost use Rattle.warc_value.specs.Base32.{symbol_value, is_symbol};
ghost use Rattle.warc_fixity.specs.Stated.{padding_len};
ghost use Rattle.warc_fixity.specs.Decoded.{symbols_len, is_padding, without_padding, from_symbols, from_base32, decoded};

use hex::FromHex;

/// The longest digest in bytes.
const MAX_DIGEST: usize = 64;

/// The five bits that a character of base32 means, in either case.
fn value(byte: u8) -> Option<u8>
    ensures value { result ≡ symbol_value byte }
    ensures below { IfSome result (λ bits. bits < 32) }
{
    let symbol = byte.to_ascii_uppercase();
    match symbol {
        b'A'..=b'Z' => Some(symbol - b'A'),
        b'2'..=b'7' => Some(symbol - b'2' + 26),
        _ => None,
    }
}

/// Whether each character is one of base32.
fn all_symbols(text: &[u8]) -> bool
    ensures { result ≡ list_all is_symbol text.now }
{
    text.iter().all(|&byte| value(byte).is_some())
}

/// Whether a text of `len` characters may have so much padding: none, or up to a multiple of eight.
fn is_padding_len(len: usize, padding: usize) -> bool
    ensures { result ≡ (padding == 0 || padding == padding_len len) }
{
    padding == 0 || padding == (8 - len % 8) % 8
}

/// Whether each character is `=`.
fn is_equals_signs(text: &[u8]) -> bool
    ensures { result ≡ list_all (λ b. b == 61) text.now }
{
    text.iter().all(|&byte| byte == b'=')
}

/// Whether a text is none or all of the padding of `len` characters.
fn is_padding(len: usize, text: &[u8]) -> bool
    ensures { result ≡ is_padding len text.now }
{
    is_padding_len(len, text.len()) && is_equals_signs(text)
}

/// The first `len` characters of a text, if at most padding follows.
fn without_padding(len: usize, text: &[u8]) -> Option<&[u8]>
    ensures { option_copied result ≡ without_padding len text.now }
{
    if text.len() < len || !is_padding(len, &text[len..]) {
        return None;
    }
    Some(&text[..len])
}

/// The bytes that characters of base32 write, if the bits left over are zero.
fn read_symbols<const N: usize>(symbols: &[u8]) -> Option<[u8; N]>
    requires most { N ≤ MAX_DIGEST }
    requires len { length symbols.now ≡ symbols_len N }
    ensures { result ≡ from_symbols N symbols.now }
{
    if !all_symbols(symbols) {
        return None;
    }
    let mut digest = [0; N];
    // The bits after the last whole byte.
    let mut bits = 0u32;
    'reading: for i in 0..symbols.len() {
        let count = 5 * i % 8;
        let more = bits * 32 + value(symbols[i]).unwrap_or(0) as u32;
        if count < 3 {
            bits = more;
        } else {
            let unit = 2u32.pow(count as u32 - 3);
            digest[5 * i / 8] = (more / unit) as u8;
            bits = more % unit;
        }
    }
    if bits == 0 { Some(digest) } else { None }
}

/// The bytes that a text writes in base32 (RFC 4648, section 6), with none or all of its padding.
fn read_base32<const N: usize>(text: &[u8]) -> Option<[u8; N]>
    requires { N ≤ MAX_DIGEST }
    ensures { result ≡ from_base32 N text.now }
{
    read_symbols(without_padding((8 * N + 4) / 5, text)?)
}

/// The bytes that a text writes, in hexadecimal or in base32.
pub(crate) fn read_digest<const N: usize>(text: &[u8]) -> Option<[u8; N]>
    requires { N ≤ MAX_DIGEST }
    ensures { result ≡ decoded N text.now }
{
    match <[u8; N] as FromHex>::from_hex(text) {
        Ok(digest) => Some(digest),
        Err(_) => read_base32(text),
    }
}
