//! The form that most dates have: a day and a time to the second.
ghost use Rattle.std.specs.Prelude.{◌≡◌, ℕ, ◌+◌, ◌*◌, ◌<◌, length, slice_index, true};
ghost use Rattle.warc_record.specs.Heads.{is_date};
ghost use Rattle.warc_quick.specs.Places.{fits_form};

/// The least byte at each place of the form.
const LEAST: [u8; 20] = *b"0000-00-00T00:00:00Z";

/// The greatest byte at each place, where a minute and a second are at most 59.
const GREATEST: [u8; 20] = *b"9999-19-29T29:59:59Z";

/// What two digits 0 make together.
const ZEROS: u32 = b'0' as u32 * 10 + b'0' as u32;

/// Whether each byte of a text is one that the form may have at its place. The loop has no way out before its end, so
/// that the compiler takes sixteen bytes at a time.
#[inline(always)]
fn has_form(text: &[u8]) -> bool
    requires { length text.now ≡ 20 }
    ensures { result ≡ true → (k : ℕ) → k < 20 → fits_form k (slice_index text.now k) ≡ true }
{
    let mut fits = true;
    for at in 0..LEAST.len() {
        fits &= (LEAST[at] <= text[at]) & (text[at] <= GREATEST[at]);
    }
    fits
}

/// Two characters as a number to the base ten, from a place on.
#[inline(always)]
fn pair(text: &[u8], at: usize) -> u32
    requires { at + 1 < length text.now }
    ensures { result ≡ slice_index text.now at * 10 + slice_index text.now (at + 1) }
{
    text[at] as u32 * 10 + text[at + 1] as u32
}

/// Whether a text is a date of the form `YYYY-MM-DDThh:mm:ssZ` whose day each month has.
#[inline(always)]
pub(crate) fn is_plain_date(text: &[u8]) -> bool
    ensures { result ≡ true → is_date text.now ≡ true }
{
    if text.len() != LEAST.len() {
        return false;
    }
    if !has_form(text) {
        return false;
    }
    let (month, day, hour) = (pair(text, 5), pair(text, 8), pair(text, 11));
    if month <= ZEROS || month > ZEROS + 12 || day <= ZEROS || day > ZEROS + 28 {
        return false;
    }
    hour <= ZEROS + 23
}
