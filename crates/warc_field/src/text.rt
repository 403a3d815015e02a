//! Names and values of fields: texts that are valid.
ghost use Rattle.std.specs.Prelude.{◌≡◌, ◌≤◌, ◌-◌, ◌<◌, ◌↔◌, IsTrue, IfOk, IsOk, IsErrOf, OnOk, OnErr, length, Some, true, false};
ghost use Rattle.std.specs.List.{list_all, prefix_len, suffix_len};
ghost use Rattle.warc_field.specs.FaultText.{text_fault_text};
ghost use Rattle.warc_field.specs.declared.text.TextFault.TheVariants.{Memory};
ghost use Rattle.warc_field.specs.Text.{is_blank, is_name, is_value_byte, is_value, trimmed, lower, same};

use crate::short::Bytes;
use httparse::{is_header_value, is_token};
use std::alloc::{AllocError, Allocator, Global};
use std::fmt;
use std::marker::Model;
use thiserror::Error;

/// A field's name. Contracts see its bytes. A name of at most 48 bytes needs no allocation.
#[derive(Debug, Drop)]
pub struct Name<A: Allocator = Global> {
    token: Bytes<A>,
}

impl<A: Allocator> Model for Name<A> {
    ghost use Rattle.std.specs.Prelude.{List, ℕ, ◌≡◌, true};
    ghost use Rattle.warc_field.specs.Text.{is_name};
    ghost use Rattle.warc_field.specs.Short.{held_bytes};

    ghost Value = { List ℕ };

    ghost view = { λ n. held_bytes n.token };

    ghost invariant = { λ n. is_name (held_bytes n.token) ≡ true };
}

/// A field's value. Contracts see its bytes. A value of at most 48 bytes needs no allocation, unless it was read from
/// folded lines.
#[derive(Debug, Drop)]
pub struct Value<A: Allocator = Global> {
    text: Bytes<A>,
}

impl<A: Allocator> Model for Value<A> {
    ghost use Rattle.std.specs.Prelude.{List, ℕ, ◌≡◌, true};
    ghost use Rattle.warc_field.specs.Text.{is_value};
    ghost use Rattle.warc_field.specs.Short.{held_bytes};

    ghost Value = { List ℕ };

    ghost view = { λ v. held_bytes v.text };

    ghost invariant = { λ v. is_value (held_bytes v.text) ≡ true };
}

/// Why a text makes no name or no value.
#[derive(Clone, Copy, PartialEq, Eq, Debug, Error)]
pub enum TextFault {
    /// The text isn't a valid one.
    BadText,

    /// An allocation failed.
    Memory,
}

impl fmt::Display for TextFault {
    ghost output = { λ fault. Some (text_fault_text fault) };

    fn fmt<W: fmt::Write>(&self, f: &mut fmt::Formatter<W>) -> fmt::Result {
        match self {
            TextFault::BadText => write!(f, "bad text"),
            TextFault::Memory => write!(f, "out of memory"),
        }
    }
}

impl From<AllocError> for TextFault {
    ghost from_gives = { λ _ e. e ≡ Memory };

    fn from(_error: AllocError) -> TextFault {
        TextFault::Memory
    }
}

/// Whether the byte is a space or a tab.
#[tactic(auto, unfolding(crate::specs::Text::is_blank))]
pub(crate) fn is_blank_byte(byte: u8) -> bool
    ensures { result ≡ is_blank byte }
{
    byte == b' ' || byte == b'\t'
}

/// Whether the text has no control character but tabs, as the bytes of an HTTP field value.
#[tactic(auto, using(crate::proofs::TokenLemmas::same_values))]
pub(crate) fn holds_value_bytes(text: &[u8]) -> bool
    ensures { result ≡ list_all is_value_byte text.now }
{
    is_header_value(text)
}

/// Whether the text is a name: at least one byte, each an ASCII character that is no control character, no space and
/// none of `( ) < > @ , ; : \ " / [ ] ? = { }`. These are the tokens of HTTP.
pub fn is_name(text: &[u8]) -> bool
    ensures { result ≡ is_name text.now }
{
    is_token(text)
}

/// Whether the text is a value: no control character but tabs, and no space or tab at either end. An empty text is one.
#[tactic(auto, unfolding(crate::specs::Text::is_value))]
pub fn is_value(text: &[u8]) -> bool
    ensures { result ≡ is_value text.now }
{
    holds_value_bytes(text) && leading_blanks(text) == 0 && trailing_blanks(text) == 0
}

/// How many spaces and tabs the text begins with.
pub(crate) fn leading_blanks(text: &[u8]) -> usize
    ensures count { result ≡ prefix_len is_blank text.now }
    ensures within { result ≤ length text.now }
{
    let mut count = 0;
    while count < text.len() && is_blank_byte(text[count]) {
        count += 1;
    }
    count
}

/// How many spaces and tabs the text ends with.
pub(crate) fn trailing_blanks(text: &[u8]) -> usize
    ensures count { result ≡ suffix_len is_blank text.now }
    ensures within { result ≤ length text.now }
{
    let mut end = text.len();
    while end > 0 && is_blank_byte(text[end - 1]) {
        end -= 1;
    }
    text.len() - end
}

/// The text without the spaces and tabs at its ends.
#[tactic(auto, unfolding(crate::specs::Text::trimmed))]
pub fn trim(text: &[u8]) -> &[u8]
    ensures { result.now ≡ trimmed text.now }
{
    let text = &text[leading_blanks(text)..];
    &text[..text.len() - trailing_blanks(text)]
}

/// Cuts the spaces and tabs off both ends of a text.
#[tactic(auto, using(crate::proofs::TextLemmas::rotated), unfolding(crate::specs::Text::trimmed))]
pub(crate) fn trim_in_place<A: Allocator>(text: &mut Vec<u8, A>)
    ensures { text.new.items ≡ trimmed text.old.items }
{
    let front = leading_blanks(text);
    text.rotate_left(front);
    text.truncate(text.len() - front);
    text.truncate(text.len() - trailing_blanks(text));
}

impl<A: Allocator> Name<A> {
    /// The name that this text is, or `BadText` if it isn't a name. Up to 48 bytes it doesn't allocate.
    pub fn new(alloc: A, text: &[u8]) -> Result<Name<A>, TextFault>
        ensures ok { IfOk result (λ name. (name ≡ text.now) × (is_name text.now ≡ true)) }
        ensures bad { IsErrOf result TextFault.BadText ↔ (is_name text.now ≡ false) }
        ensures short { is_name text.now ≡ true → length text.now ≤ 48 → IsOk result }
    {
        if !is_name(text) {
            return Err(TextFault::BadText);
        }
        Ok(Name::from_checked(alloc, text)?)
    }

    /// The name that this text is, known to be a name. It isn't judged again. Up to 48 bytes it doesn't allocate.
    pub fn from_checked(alloc: A, text: &[u8]) -> Result<Name<A>, AllocError>
        requires { is_name text.now ≡ true }
        ensures value { IfOk result (λ name. name ≡ text.now) }
        ensures short { length text.now ≤ 48 → IsOk result }
    {
        Ok(Name {
            token: Bytes::copied(alloc, text)?,
        })
    }

    /// Writes a name, known to be valid, over this one. `Err`: no memory for it; then nothing changes.
    pub(crate) fn set(&mut self, alloc: A, text: &[u8]) -> Result<(), AllocError>
        requires { is_name text.now ≡ true }
        ensures ok { OnOk result (self.new ≡ text.now) }
        ensures err { OnErr result (self.new ≡ self.old) }
        ensures named { is_name self.new ≡ true }
    {
        self.token.set(alloc, text)
    }

    /// The bytes of the name, in the case in which it was given.
    pub fn bytes(&self) -> &[u8]
        ensures text { result.now ≡ self.now }
        ensures named { is_name self.now ≡ true }
    {
        self.token.as_slice()
    }

    /// Whether both are the same name: ASCII case doesn't matter.
    pub fn same(&self, other: &Name<A>) -> bool
        ensures { IsTrue result ↔ (lower self.now ≡ lower other.now) }
    {
        self.bytes().eq_ignore_ascii_case(other.bytes())
    }

    /// Whether the text is this name: ASCII case doesn't matter.
    pub fn is(&self, text: &[u8]) -> bool
        ensures { result ≡ same self.now text.now }
    {
        let name = self.bytes();
        // Most names are spelled as in the standard, and equal bytes are compared faster.
        name == text || name.eq_ignore_ascii_case(text)
    }
}

impl<A: Allocator> Value<A> {
    /// The value that this text is, or `BadText` if it isn't a value. Up to 48 bytes it doesn't allocate. An empty text
    /// is a value.
    pub fn new(alloc: A, text: &[u8]) -> Result<Value<A>, TextFault>
        ensures ok { IfOk result (λ value. (value ≡ text.now) × (is_value text.now ≡ true)) }
        ensures bad { IsErrOf result TextFault.BadText ↔ (is_value text.now ≡ false) }
        ensures short { is_value text.now ≡ true → length text.now ≤ 48 → IsOk result }
    {
        if !is_value(text) {
            return Err(TextFault::BadText);
        }
        Ok(Value::from_checked(alloc, text)?)
    }

    /// The value that this text is, which is known to be a value. It isn't judged again. Up to 48 bytes it doesn't
    /// allocate.
    pub fn from_checked(alloc: A, text: &[u8]) -> Result<Value<A>, AllocError>
        requires { is_value text.now ≡ true }
        ensures value { IfOk result (λ value. value ≡ text.now) }
        ensures short { length text.now ≤ 48 → IsOk result }
    {
        Ok(Value {
            text: Bytes::copied(alloc, text)?,
        })
    }

    /// Writes a value, known to be valid, over this one. `Err`: no memory for it; then nothing changes.
    pub(crate) fn set(&mut self, alloc: A, text: &[u8]) -> Result<(), AllocError>
        requires { is_value text.now ≡ true }
        ensures ok { OnOk result (self.new ≡ text.now) }
        ensures err { OnErr result (self.new ≡ self.old) }
        ensures value { is_value self.new ≡ true }
    {
        self.text.set(alloc, text)
    }

    /// The value that these bytes are, which are known to be a value.
    pub(crate) fn from_vec(text: Vec<u8, A>) -> Value<A>
        requires { is_value text.items ≡ true }
        ensures { result ≡ text.items }
    {
        Value {
            text: Bytes::Long(text),
        }
    }

    /// The bytes of the value.
    pub fn bytes(&self) -> &[u8]
        ensures text { result.now ≡ self.now }
        ensures value { is_value self.now ≡ true }
    {
        self.text.as_slice()
    }
}
