//! Ids of records, and the keys by which they are compared.
ghost use Rattle.std.specs.Prelude.{◌≡◌, ◌∷◌, ◌==◌, IfSome, None, Some, true, length, slice_index};
ghost use Rattle.std.specs.List.{list_any};
ghost use Rattle.std.proofs.Common.{rules};
ghost use Rattle.std.specs.Cmp.{partial_order_from_own_ties};
ghost use Rattle.std.specs.Cmp.Rules.{comparing};
ghost use Rattle.std.specs.Cmp.Lexicographic.{slice_cmp, pointwise};
ghost use Rattle.std.specs.Ordering.{nat_cmp, as_partial_cmp};
ghost use Rattle.uuid.specs.Text.{parsed_urn};
ghost use Rattle.warc_field.specs.Text.{is_blank};
ghost use Rattle.warc_record.specs.Ids.{is_bracket, ends_id, is_bracketed, bare_text, is_bare_id, id_key, key_of};

use memchr::memchr2;
use std::cmp::Ordering;
use std::marker::Model;
use uuid::Uuid;
use warc_field::trim;

/// How many bytes `<urn:uuid:...>` has.
const UUID_ID: usize = 47;

/// The key of an id, to compare ids by. Contracts see its bytes: `<` and the sixteen bytes of a UUID, or else the bare
/// text, which is borrowed.
#[derive(Debug, Drop)]
pub struct IdKey<'a> {
    form: KeyForm<'a>,
}

#[derive(Debug, Drop)]
enum KeyForm<'a> {
    Uuid([u8; 17]),
    Text(&'a [u8]),
}

impl<'a> Model for IdKey<'a> {
    ghost use Rattle.std.specs.Prelude.{List, ℕ};

    ghost Value = { List ℕ };

    ghost use Rattle.warc_record.specs.Keys.{form_bytes};

    ghost view = { λ key. form_bytes key.form };
}

impl IdKey<'_> {
    /// The key's bytes, by which keys are ordered. No id's text begins like the key of a UUID.
    pub fn bytes(&self) -> &[u8]
        ensures { result.now ≡ self.now }
    {
        match &self.form {
            KeyForm::Uuid(bytes) => bytes.as_slice(),
            KeyForm::Text(bytes) => bytes,
        }
    }

    /// How many bytes it holds.
    pub fn kept(&self) -> usize
        ensures { result ≡ length self.now }
    {
        self.bytes().len()
    }
}

impl<'a> PartialEq for IdKey<'a> {
    ghost eq = { pointwise ◌==◌ };

    ghost laws = { Prim.search (comparing, rules) };

    fn eq(&self, other: &IdKey<'a>) -> bool {
        self.bytes() == other.bytes()
    }
}

impl<'a> Eq for IdKey<'a> {
    ghost laws = { Prim.search (comparing, rules) };
}

impl<'a> PartialOrd for IdKey<'a> {
    ghost partial_cmp = { as_partial_cmp (slice_cmp nat_cmp) };

    ghost laws = { partial_order_from_own_ties (Prim.search (comparing, rules)) (Prim.search (comparing, rules)) };

    fn partial_cmp(&self, other: &IdKey<'a>) -> Option<Ordering> {
        Some(self.cmp(other))
    }
}

impl<'a> Ord for IdKey<'a> {
    ghost cmp = { slice_cmp nat_cmp };

    ghost total = { Prim.search (comparing, rules) };

    ghost matches_partial_cmp = { Prim.search (comparing, rules) };

    ghost matches_eq = { Prim.search (comparing, rules) };

    fn cmp(&self, other: &IdKey<'a>) -> Ordering {
        self.bytes().cmp(other.bytes())
    }
}

/// Whether a bracket is in the text, `<` or `>`.
#[tactic(auto, using(crate::proofs::ByteLemmas::bracket_found))]
fn holds_bracket(text: &[u8]) -> bool
    ensures { result ≡ list_any is_bracket text.now }
{
    memchr2(b'<', b'>', text).is_some()
}

/// Whether a space or a tab is in the text.
#[tactic(auto, using(crate::proofs::ByteLemmas::blank_found))]
fn holds_blank(text: &[u8]) -> bool
    ensures { result ≡ list_any is_blank text.now }
{
    memchr2(b' ', b'\t', text).is_some()
}

/// Whether the text begins with `<`, ends with `>` and contains no other of the two.
fn is_bracketed(text: &[u8]) -> bool
    ensures { result ≡ is_bracketed text.now }
{
    let len = text.len();
    len > 1 && text[0] == b'<' && text[len - 1] == b'>' && !holds_bracket(&text[1..len - 1])
}

/// The text without a pair of brackets at its ends, if no other bracket is in it, and then
/// without spaces and tabs at its ends.
#[tactic(auto, unfolding(crate::specs::Ids::bare_text))]
pub fn bare(text: &[u8]) -> &[u8]
    ensures { result.now ≡ bare_text text.now }
{
    if is_bracketed(text) {
        trim(&text[1..text.len() - 1])
    } else {
        trim(text)
    }
}

/// Whether a byte is in the text that no id contains: a bracket, a space or a tab.
fn holds_id_end(text: &[u8]) -> bool
    ensures { result ≡ list_any ends_id text.now }
{
    holds_bracket(text) || holds_blank(text)
}

/// Whether a bare text is an id: it isn't empty, and contains no bracket, space or tab.
#[tactic(auto, unfolding(crate::specs::Ids::is_bare_id))]
pub fn is_bare_id(bare: &[u8]) -> bool
    ensures { result ≡ is_bare_id bare.now }
{
    !bare.is_empty() && !holds_id_end(bare)
}

/// The bytes of the UUID that a text is, after `urn:uuid:` in any case.
pub fn urn_uuid(text: &[u8]) -> Option<[u8; 16]>
    ensures { result ≡ parsed_urn text.now }
{
    if text.len() != 45 {
        return None;
    }
    match Uuid::try_parse_ascii(text) {
        Ok(uuid) => Some(uuid.into_bytes()),
        Err(_) => None,
    }
}

/// Whether a text is as long as a UUID in brackets, begins with `<` and ends with `>`.
#[inline(always)]
fn has_uuid_brackets(text: &[u8]) -> bool
    ensures { result ≡ true →
        (length text.now ≡ 47) × (slice_index text.now 0 ≡ 60) × (slice_index text.now 46 ≡ 62) }
{
    text.len() == UUID_ID && text[0] == b'<' && text[UUID_ID - 1] == b'>'
}

/// The key of a UUID.
#[inline(always)]
fn uuid_key(uuid: [u8; 16]) -> [u8; 17]
    ensures { result ≡ 60 ∷ uuid }
{
    let mut key = [b'<'; 17];
    key[1..].copy_from_slice(&uuid);
    key
}

/// The key of the id that a text holds, if the text is a UUID between `<` and `>`, as nearly all are. Such a text
/// isn't searched for brackets, spaces and tabs, since a UUID contains none. `None` says nothing of the text.
fn uuid_id_key(text: &[u8]) -> Option<[u8; 17]>
    ensures { IfSome result (λ key. id_key text.now ≡ Some key) }
{
    if !has_uuid_brackets(text) {
        return None;
    }
    let uuid = urn_uuid(&text[1..UUID_ID - 1])?;
    Some(uuid_key(uuid))
}

/// The key of the id that a text holds, or `None` if it holds none.
#[inline(always)]
pub fn id_key(text: &[u8]) -> Option<IdKey<'_>>
    ensures { result ≡ id_key text.now }
{
    match uuid_id_key(text) {
        Some(key) => Some(IdKey {
            form: KeyForm::Uuid(key),
        }),
        None => searched_id_key(text),
    }
}

/// The key of the id that a text holds, by a search for brackets, spaces and tabs, or `None` if it holds none.
fn searched_id_key(text: &[u8]) -> Option<IdKey<'_>>
    ensures { result ≡ id_key text.now }
{
    let bare = bare(text);
    if !is_bare_id(bare) {
        return None;
    }
    let form = match urn_uuid(bare) {
        Some(uuid) => KeyForm::Uuid(uuid_key(uuid)),
        None => KeyForm::Text(bare),
    };
    Some(IdKey { form })
}
