//! Ids and digests as they are written.
ghost use Rattle.std.specs.Prelude.{◌≡◌, true};
ghost use Rattle.warc_field.specs.Text.{is_value};
ghost use Rattle.warc_write.specs.Written.{digest_text, id_text};

use uuid::Uuid;
use warc_value::base32;
use warc_value::laws::written_digest_is_value;

/// The id of a UUID, between `<` and `>`, in lower case with hyphens.
pub(crate) fn id_text(uuid: &Uuid) -> [u8; 47]
    ensures text { result ≡ id_text uuid.now }
    ensures value { is_value result ≡ true }
{
    let mut text = *b"<urn:uuid:00000000-0000-0000-0000-000000000000>";
    let mut buffer = [0; 36];
    let hyphenated = uuid.hyphenated().encode_lower(&mut buffer);
    text[10..46].copy_from_slice(hyphenated.as_bytes());
    text
}

/// The text of a digest: `sha1:` and its base32.
pub(crate) fn digest_text(digest: &[u8; 20]) -> [u8; 37]
    ensures text { result ≡ digest_text digest.now }
    ensures value { is_value result ≡ true }
{
    written_digest_is_value();
    let mut text = *b"sha1:AAAAAAAAAAAAAAAAAAAAAAAAAAAAAAAA";
    text[5..].copy_from_slice(&base32(digest));
    text
}
