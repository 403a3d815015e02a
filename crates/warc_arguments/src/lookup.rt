//! The lines that explain a number.
ghost use Rattle.std.specs.Prelude.{◌≡◌, find, map, option_map};
ghost use Rattle.std.specs.Str.{str_eq_ignore_ascii_case};
ghost use Rattle.warc_arguments.specs.Explanations.{explained, explanations};

use crate::numbers::EXPLANATIONS;

/// The lines that explain a number, if it is one that the program prints.
pub fn explanation_of(number: &str) -> Option<&'static str>
    ensures { option_map (λ text. text.now) result ≡ explained number.now }
{
    explanation_among(table(), number)
}

/// The table of all numbers.
#[tactic(auto, unfolding(crate::specs::Explanations::explanations))]
fn table() -> &'static [(&'static str, &'static str)]
    ensures { map (λ e. (e.0.now, e.1.now)) result.now ≡ explanations }
{
    &EXPLANATIONS
}

/// The lines of the first of these explanations that has the number, in any case.
fn explanation_among(
    explanations: &[(&'static str, &'static str)],
    number: &str,
) -> Option<&'static str>
    ensures { option_map (λ text. text.now) result ≡ option_map (λ e. e.1.now)
        (find (λ e. str_eq_ignore_ascii_case e.0.now number.now) explanations.now) }
{
    for (name, text) in explanations {
        if is_same(name, number) {
            return Some(text);
        }
    }
    None
}

/// Whether two texts are the same but for the case of ASCII letters.
fn is_same(one: &str, other: &str) -> bool
    ensures { result ≡ str_eq_ignore_ascii_case one.now other.now }
{
    one.eq_ignore_ascii_case(other)
}
