//! Fields that are each on a line of their own.
ghost use Rattle.std.specs.Prelude.{◌≡◌, ◌++◌, IfSome, true};
ghost use Rattle.std.specs.List.{list_all};
ghost use Rattle.warc_field.specs.Area.{MeansValue};
ghost use Rattle.warc_field.specs.Lines.{crlf};
ghost use Rattle.warc_field.specs.Text.{is_value_byte};
ghost use Rattle.warc_quick.specs.Fronts.{BeginsWithLine};

use crate::names::{Naming, naming_of};
use crate::runs::{find_colon, value_len};
use warc_field::trim;
use warc_frame::laws::are_field_names;

/// A field that is on one line: its name, which of the names it is, its value, and what follows its line.
#[derive(Clone, Copy)]
pub(crate) struct Line<'a> {
    pub(crate) name: &'a [u8],
    pub(crate) naming: Naming,
    pub(crate) value: &'a [u8],
    pub(crate) more: &'a [u8],
}

/// The bytes before the first control character other than a tab, and those after it, if it begins a CRLF.
#[inline(always)]
pub(crate) fn split_crlf(text: &[u8]) -> Option<(&[u8], &[u8])>
    ensures text { IfSome result (λ parts. text.now ≡ parts.0.now ++ (crlf ++ parts.1.now)) }
    ensures clean { IfSome result (λ parts. list_all is_value_byte parts.0.now ≡ true) }
{
    let len = value_len(text);
    let more = text[len..].strip_prefix(b"\r\n")?;
    Some((&text[..len], more))
}

/// The value that the rest of a line means, in which no control character but tabs is, and so no fold.
#[inline(always)]
fn plain_value(rest: &[u8]) -> &[u8]
    requires { list_all is_value_byte rest.now ≡ true }
    ensures { MeansValue rest.now result.now }
{
    trim(rest)
}

/// The field whose line a text begins with, if that is one line and its name isn't one of the names in another case.
pub(crate) fn first_line(text: &[u8]) -> Option<Line<'_>>
    ensures { IfSome result (BeginsWithLine text.now) }
{
    are_field_names();
    let colon = find_colon(text)?;
    let name = &text[..colon];
    let naming = naming_of(name)?;
    let (rest, more) = split_crlf(&text[colon + 1..])?;
    Some(Line {
        name,
        naming,
        value: plain_value(rest),
        more,
    })
}
