//! Base32, in both directions.
ghost use Rattle.std.specs.Prelude.{◌≡◌, ◌<◌, ◌≤◌, length, unwrap_or, Some, None, IfSome, IsSome, IsNone, if◌then◌else◌};
ghost use Rattle.std.specs.List.{list_all, flat_map};
ghost use Rattle.warc_value.specs.Base32.{bits_of, number_of_bits, symbol_of, symbol_value, is_symbol, base32_of, decoded_of, unbase32_of};

/// The characters that mean 0 to 31.
const SYMBOLS: [u8; 32] = *b"ABCDEFGHIJKLMNOPQRSTUVWXYZ234567";

/// The character that means five bits.
#[tactic(auto, unfolding(crate::specs::Base32::symbol_of))]
fn symbol(bits: u8) -> u8
    requires { bits < 32 }
    ensures { result ≡ symbol_of bits }
{
    SYMBOLS[bits as usize]
}

/// What the table has for a byte that means nothing: 2^20, more than any four characters write.
const NONE: u32 = 1_048_576;

/// The five bits that each byte means in either case, or `NONE`.
const VALUES: [u32; 256] = [
    NONE, NONE, NONE, NONE, NONE, NONE, NONE, NONE, NONE, NONE, NONE, NONE, NONE, NONE, NONE, NONE,
    NONE, NONE, NONE, NONE, NONE, NONE, NONE, NONE, NONE, NONE, NONE, NONE, NONE, NONE, NONE, NONE,
    NONE, NONE, NONE, NONE, NONE, NONE, NONE, NONE, NONE, NONE, NONE, NONE, NONE, NONE, NONE, NONE,
    NONE, NONE, 26, 27, 28, 29, 30, 31, NONE, NONE, NONE, NONE, NONE, NONE, NONE, NONE, NONE, 0, 1,
    2, 3, 4, 5, 6, 7, 8, 9, 10, 11, 12, 13, 14, 15, 16, 17, 18, 19, 20, 21, 22, 23, 24, 25, NONE,
    NONE, NONE, NONE, NONE, NONE, 0, 1, 2, 3, 4, 5, 6, 7, 8, 9, 10, 11, 12, 13, 14, 15, 16, 17, 18,
    19, 20, 21, 22, 23, 24, 25, NONE, NONE, NONE, NONE, NONE, NONE, NONE, NONE, NONE, NONE, NONE,
    NONE, NONE, NONE, NONE, NONE, NONE, NONE, NONE, NONE, NONE, NONE, NONE, NONE, NONE, NONE, NONE,
    NONE, NONE, NONE, NONE, NONE, NONE, NONE, NONE, NONE, NONE, NONE, NONE, NONE, NONE, NONE, NONE,
    NONE, NONE, NONE, NONE, NONE, NONE, NONE, NONE, NONE, NONE, NONE, NONE, NONE, NONE, NONE, NONE,
    NONE, NONE, NONE, NONE, NONE, NONE, NONE, NONE, NONE, NONE, NONE, NONE, NONE, NONE, NONE, NONE,
    NONE, NONE, NONE, NONE, NONE, NONE, NONE, NONE, NONE, NONE, NONE, NONE, NONE, NONE, NONE, NONE,
    NONE, NONE, NONE, NONE, NONE, NONE, NONE, NONE, NONE, NONE, NONE, NONE, NONE, NONE, NONE, NONE,
    NONE, NONE, NONE, NONE, NONE, NONE, NONE, NONE, NONE, NONE, NONE, NONE, NONE, NONE, NONE, NONE,
    NONE, NONE, NONE, NONE, NONE, NONE, NONE, NONE, NONE, NONE,
];

/// The five bits that a character means, or `NONE`.
fn value(symbol: u8) -> u64
    ensures value { result ≡ unwrap_or (symbol_value symbol) 1_048_576 }
    ensures most { result ≤ 1_048_576 }
{
    VALUES[symbol as usize] as u64
}

/// Five bytes as eight characters.
fn encode_group(group: &[u8]) -> [u8; 8]
    requires { length group.now ≡ 5 }
    ensures text { result ≡ base32_of group.now }
    ensures len { length result ≡ 8 }
{
    let (a, b, c, d, e) = (group[0], group[1], group[2], group[3], group[4]);
    [
        symbol(a / 8),
        symbol(a % 8 * 4 + b / 64),
        symbol(b / 2 % 32),
        symbol(b % 2 * 16 + c / 16),
        symbol(c % 16 * 2 + d / 128),
        symbol(d / 4 % 32),
        symbol(d % 4 * 8 + e / 32),
        symbol(e % 32),
    ]
}

/// The base32 text of twenty bytes (RFC 4648, section 6), in capitals.
pub fn base32(bytes: &[u8; 20]) -> [u8; 32]
    ensures { result ≡ base32_of bytes.now }
{
    let mut text = [0; 32];
    for group in 0..4 {
        let symbols = encode_group(&bytes[5 * group..5 * group + 5]);
        text[8 * group..8 * group + 8].copy_from_slice(&symbols);
    }
    text
}

/// The twenty bits that four characters write, unless one means nothing.
fn twenty_bits(symbols: &[u8]) -> Option<u64>
    requires { length symbols.now ≡ 4 }
    ensures bits { result ≡ (if list_all is_symbol symbols.now
        then Some (number_of_bits (flat_map (λ c. bits_of 5 (unwrap_or (symbol_value c) 0)) symbols.now)) else None) }
    ensures below { IfSome result (λ bits. bits < 1_048_576) }
{
    let (a, b) = (value(symbols[0]), value(symbols[1]));
    let (c, d) = (value(symbols[2]), value(symbols[3]));
    let bits = ((a * 32 + b) * 32 + c) * 32 + d;
    if bits < NONE as u64 { Some(bits) } else { None }
}

/// Writes the five bytes that eight characters write, unless one means nothing.
fn decode_group(symbols: &[u8], bytes: &mut [u8]) -> Option<()>
    requires symbols { length symbols.now ≡ 8 }
    requires bytes { length bytes.old ≡ 5 }
    ensures bytes { IsSome result → Some bytes.new ≡ decoded_of symbols.now }
    ensures none { IsNone result → None ≡ decoded_of symbols.now }
    ensures kept { IsNone result → bytes.new ≡ bytes.old }
{
    let front = twenty_bits(&symbols[..4])?;
    let back = twenty_bits(&symbols[4..])?;
    let bits = front * 1_048_576 + back;
    bytes[0] = (bits / 4_294_967_296) as u8;
    bytes[1] = (bits / 16_777_216 % 256) as u8;
    bytes[2] = (bits / 65_536 % 256) as u8;
    bytes[3] = (bits / 256 % 256) as u8;
    bytes[4] = (bits % 256) as u8;
    Some(())
}

/// The twenty bytes that 32 characters of base32 write, in either case (RFC 4648, section 6); none for any other text.
pub fn unbase32(text: &[u8]) -> Option<[u8; 20]>
    ensures { result ≡ unbase32_of text.now }
{
    if text.len() != 32 {
        return None;
    }
    let mut bytes = [0; 20];
    for group in 0..4 {
        decode_group(
            &text[8 * group..8 * group + 8],
            &mut bytes[5 * group..5 * group + 5],
        )?;
    }
    Some(bytes)
}
