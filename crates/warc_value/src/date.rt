//! Dates, read as instants.
ghost use Rattle.std.specs.Prelude.{◌≡◌, ◌<◌, ◌≤◌, ◌+◌, ◌-◌, ◌^◌, take, drop, length, codes, ◌*◌, nat_lt, is_some, true, Some, None, IsSome, IfSome, ◌↔◌, pos, ◌+ℤ◌, if◌then◌else◌};
ghost use Rattle.std.specs.List.{list_all, zip};
ghost use Rattle.std.specs.Char.{is_ascii_digit};
ghost use Rattle.std.specs.Str.Parse.{digits_value};
ghost use Rattle.jiff_core.specs.Calendar.{IsCivilDate, days_from_civil};
ghost use Rattle.warc_value.specs.Dates.{fits_place, is_form_length, number_or, date_of, is_day, is_time, day_number, nanosecond_of_day, instant_of};

use crate::moment::Moment;
use jiff::civil;

/// A calendar day and a time of that day, as a text states them, even if the calendar has no such day.
#[derive(Clone, Copy)]
struct Date {
    year: u16,
    month: u8,
    day: u8,
    hour: u8,
    minute: u8,
    second: u8,
    nanosecond: u32,
}

/// The least byte at each place of the longest form without its `Z`. Every other form is a beginning of it, with a `Z`
/// after a time.
const LEAST: [u8; 29] = *b"0000-00-00T00:00:00.000000000";

/// The greatest byte at each of these places.
const GREATEST: [u8; 29] = *b"9999-99-99T99:99:99.999999999";

/// Whether bytes may be at the first of these places. The loop has no way out before its end, so that the compiler
/// takes sixteen bytes at a time.
fn fit_places(bytes: &[u8]) -> bool
    requires { length bytes.now ≤ 29 }
    ensures { result
        ≡ list_all (λ pair. fits_place pair.0 pair.1) (zip (codes "YYYY-MM-DDThh:mm:ss.fffffffff") bytes.now) }
{
    let mut fit = true;
    for (at, byte) in bytes.iter().enumerate() {
        fit &= (LEAST[at] <= *byte) & (*byte <= GREATEST[at]);
    }
    fit
}

/// Whether some form has n characters.
fn has_form_length(length: usize) -> bool
    ensures value { result ≡ is_form_length length }
    ensures few { result ≡ true → length ≤ 30 }
{
    matches!(length, 4 | 7 | 10 | 17 | 20 | 22..=30)
}

/// Whether the text has one of the forms.
fn has_form(text: &[u8]) -> bool
    ensures { result ≡ is_some (date_of text.now) }
{
    if !has_form_length(text.len()) {
        return false;
    }
    if text.len() <= 10 {
        return fit_places(text);
    }
    let end = text.len() - 1;
    fit_places(&text[..end]) && text[end] == b'Z'
}

/// The number that at most nine digits write.
fn number(digits: &[u8]) -> u32
    requires few { length digits.now ≤ 9 }
    requires digits { list_all is_ascii_digit digits.now ≡ true }
    ensures value { result ≡ digits_value 10 digits.now }
    ensures below { result < 10 ^ length digits.now }
{
    let mut number = 0u32;
    for digit in digits {
        number = number * 10 + (digit - b'0') as u32;
    }
    number
}

/// The two digits from a place on, or the first number of their kind if the text ends before them.
fn two_digits(text: &[u8], from: usize, first: u8) -> u8
    requires inside { from < length text.now → from + 2 ≤ length text.now }
    requires digits { from < length text.now → list_all is_ascii_digit (take 2 (drop from text.now)) ≡ true }
    ensures { result ≡ (if nat_lt from (length text.now) then digits_value 10 (take 2 (drop from text.now))
        else first) }
{
    if from < text.len() {
        number(&text[from..from + 2]) as u8
    } else {
        first
    }
}

/// The fraction of a second before the `Z`, in nanoseconds; 0 if there is none.
fn nanosecond(text: &[u8]) -> u32
    requires few { length text.now ≤ 30 }
    requires digits { list_all is_ascii_digit (take (length text.now - 1 - 20) (drop 20 text.now)) ≡ true }
    ensures { let fraction = take (length text.now - 1 - 20) (drop 20 text.now) in
        result ≡ number_or 0 fraction * 10 ^ (9 - length fraction) }
{
    if text.len() <= 21 {
        return 0;
    }
    let fraction = &text[20..text.len() - 1];
    number(fraction) * 10u32.pow(9 - fraction.len() as u32)
}

/// What a text of one of the forms says, even if the calendar has no such day.
fn stated(text: &[u8]) -> Option<Date>
    ensures date { result ≡ date_of text.now }
    ensures year { IfSome result (λ date. date.year ≤ 9999) }
{
    if !has_form(text) {
        return None;
    }
    Some(Date {
        year: number(&text[..4]) as u16,
        month: two_digits(text, 5, 1),
        day: two_digits(text, 8, 1),
        hour: two_digits(text, 11, 0),
        minute: two_digits(text, 14, 0),
        second: two_digits(text, 17, 0),
        nanosecond: nanosecond(text),
    })
}

/// The days from 1 January of the year -9999, where the calendar of `jiff` begins, to a day in the calendar.
fn days_since_first(year: u16, month: u8, day: u8) -> Option<u32>
    requires { year ≤ 9999 }
    ensures civil { IsSome result ↔ IsCivilDate (pos year) month day }
    ensures value { IfSome result (λ days. pos days ≡ days_from_civil (pos year) month day +ℤ pos 4_371_587) }
{
    if month > 12 || day > 31 {
        return None;
    }
    let date = civil::Date::new(year as i16, month as i8, day as i8).ok()?;
    Some(date.to_plain().days_since_min())
}

/// The days from 1 January of the year -9999 to 1 January of the year 0.
const DAYS_BEFORE_YEAR_0: u32 = 3_652_059;

/// The days from 1 January of the year 0 to a date, unless the calendar has no such day.
fn day_of(date: &Date) -> Option<u32>
    requires { date.now.year ≤ 9999 }
    ensures { result ≡ (if is_day date.now then Some (day_number date.now) else None) }
{
    let days = days_since_first(date.year, date.month, date.day)?;
    Some(days - DAYS_BEFORE_YEAR_0)
}

/// The nanosecond of its day, unless no day has such a time.
fn time_of(date: &Date) -> Option<u64>
    ensures { result ≡ (if is_time date.now then Some (nanosecond_of_day date.now) else None) }
{
    if date.hour > 23 || date.minute > 59 || date.second > 59 {
        return None;
    }
    let second = (date.hour as u64 * 60 + date.minute as u64) * 60 + date.second as u64;
    Some(second * 1_000_000_000 + date.nanosecond as u64)
}

/// The first instant of a date: `YYYY`, `YYYY-MM`, `YYYY-MM-DD`, `YYYY-MM-DDThh:mmZ`, `YYYY-MM-DDThh:mm:ssZ` or the
/// last with a fraction of one to nine digits after its seconds (ISO 28500:2017, 5.4; the W3C note on date and time
/// formats). None for any other text, for a day that the Gregorian calendar doesn't have, for an hour 24 and for a
/// second 60.
#[tactic(auto, unfolding(crate::specs::Dates::instant_of))]
pub fn read_date(text: &[u8]) -> Option<Moment>
    ensures { result ≡ instant_of text.now }
{
    let date = stated(text)?;
    Some(Moment::new(day_of(&date)?, time_of(&date)?))
}
