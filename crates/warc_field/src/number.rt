//! Numbers written in decimal digits.
ghost use Rattle.std.specs.Prelude.{◌≡◌};
ghost use Rattle.warc_field.specs.Decimal.{decimal_of};

/// The greatest number that is read.
const MAX_NUMBER: u64 = 1 << 48;

/// The number that a text of decimal digits writes: at least one digit and nothing else, leading zeros allowed, at most
/// 2^48; else `None`.
#[tactic(auto, using(crate::proofs::NumberLemmas::too_large), unfolding(crate::specs::Decimal::decimal_of))]
pub fn decimal(text: &[u8]) -> Option<u64>
    ensures { result ≡ decimal_of text.now }
{
    if text.is_empty() {
        return None;
    }
    let mut number = 0u64;
    for b in text {
        if !b.is_ascii_digit() {
            return None;
        }
        number = number * 10 + (*b - b'0') as u64;
        if number > MAX_NUMBER {
            return None;
        }
    }
    Some(number)
}
