//! The names of algorithms.
ghost use Rattle.std.specs.Prelude.{◌≡◌};
ghost use Rattle.warc_fixity.specs.Stated.{is_either, algorithm_of};

/// The algorithm of a digest.
#[derive(Clone, Copy, PartialEq, Eq, Debug)]
pub enum Algorithm {
    /// MD5 (RFC 1321), 16 bytes.
    Md5,
    /// SHA-1 (FIPS 180-4), 20 bytes.
    Sha1,
    /// SHA-256 (FIPS 180-4), 32 bytes.
    Sha256,
    /// SHA-384 (FIPS 180-4), 48 bytes.
    Sha384,
    /// SHA-512 (FIPS 180-4), 64 bytes.
    Sha512,
}

/// Whether a name is one of two, in any case.
fn is_either(name: &[u8], plain: &[u8], hyphened: &[u8]) -> bool
    ensures { result ≡ is_either name.now plain.now hyphened.now }
{
    name.eq_ignore_ascii_case(plain) || name.eq_ignore_ascii_case(hyphened)
}

impl Algorithm {
    /// The algorithm that a name means, in any case. The names of the SHA family may have a hyphen after `sha`.
    pub(crate) fn of(name: &[u8]) -> Option<Algorithm>
        ensures { result ≡ algorithm_of name.now }
    {
        if name.eq_ignore_ascii_case(b"md5") {
            Some(Algorithm::Md5)
        } else if is_either(name, b"sha1", b"sha-1") {
            Some(Algorithm::Sha1)
        } else if is_either(name, b"sha256", b"sha-256") {
            Some(Algorithm::Sha256)
        } else if is_either(name, b"sha384", b"sha-384") {
            Some(Algorithm::Sha384)
        } else if is_either(name, b"sha512", b"sha-512") {
            Some(Algorithm::Sha512)
        } else {
            None
        }
    }
}
