//! URIs that are written as hexadecimal digits.
ghost use Rattle.std.specs.Prelude.{◌≡◌, Err, IfOk, None, Some, true};
ghost use Rattle.warc_arguments.specs.Digits.{uri_named};

use hex::FromHexError;
use std::alloc::Allocator;

/// Why digits name no URI.
#[derive(Clone, Copy, Debug, PartialEq, Eq)]
pub enum UriFault {
    /// Their number is odd, or one isn't a hexadecimal digit.
    Digits,

    /// An allocation failed.
    Memory,
}

/// The bytes that hexadecimal digits name.
pub fn bytes_of<A: Allocator + Copy>(alloc: A, word: &str) -> Result<Vec<u8, A>, UriFault>
    ensures ok { IfOk result (λ bytes. uri_named true word.now ≡ Some bytes.items) }
    ensures bad { result ≡ Err UriFault.Digits → uri_named true word.now ≡ None }
{
    match hex::decode(alloc, word.as_bytes()) {
        Ok(bytes) => Ok(bytes),
        Err(FromHexError::OutOfMemory) => Err(UriFault::Memory),
        Err(_) => Err(UriFault::Digits),
    }
}
