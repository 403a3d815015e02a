//! Known digests: of four messages at once, and of single ones.
ghost use Rattle.std.specs.Prelude.{◌≡◌, ◌<◌, ◌++◌};
ghost use Rattle.sha1.specs.Sha1.{sha1};

use crate::each::put_last;
use crate::{BLOCK_LEN, DIGEST_LEN, FourDigests, LANES, MAX_PADDING, OneDigest, digest_each, pad};
use sha1::Sha1;
use std::alloc::{AllocError, Global};
use std::test::Fail;

const COUNT: usize = 12;

// The lengths of messages whose byte `i` is `i % 251`, and their digests by the command sha1sum. Padding adds a block
// from 56 bytes beyond a block on.
const LENGTHS: [usize; COUNT] = [0, 3, 55, 56, 63, 64, 65, 119, 120, 128, 1000, 1000000];

const DIGESTS: [[u8; DIGEST_LEN]; COUNT] = [
    [
        0xda, 0x39, 0xa3, 0xee, 0x5e, 0x6b, 0x4b, 0x0d, 0x32, 0x55, 0xbf, 0xef, 0x95, 0x60, 0x18,
        0x90, 0xaf, 0xd8, 0x07, 0x09,
    ],
    [
        0x0c, 0x7a, 0x62, 0x3f, 0xd2, 0xbb, 0xc0, 0x5b, 0x06, 0x42, 0x3b, 0xe3, 0x59, 0xe4, 0x02,
        0x1d, 0x36, 0xe7, 0x21, 0xad,
    ],
    [
        0x8a, 0xe2, 0xd4, 0x67, 0x29, 0xcf, 0xe6, 0x8f, 0xf9, 0x27, 0xaf, 0x5e, 0xec, 0x9c, 0x7d,
        0x1b, 0x66, 0xd6, 0x5a, 0xc2,
    ],
    [
        0x63, 0x6e, 0x2e, 0xc6, 0x98, 0xda, 0xc9, 0x03, 0x49, 0x8e, 0x64, 0x8b, 0xd2, 0xf3, 0xaf,
        0x64, 0x1d, 0x3c, 0x88, 0xcb,
    ],
    [
        0x6d, 0x94, 0x2d, 0xa0, 0xc4, 0x39, 0x2b, 0x12, 0x35, 0x28, 0xf2, 0x90, 0x5c, 0x71, 0x3a,
        0x3c, 0xe2, 0x83, 0x64, 0xbd,
    ],
    [
        0xc6, 0x13, 0x8d, 0x51, 0x4f, 0xfa, 0x21, 0x35, 0xbf, 0xce, 0x0e, 0xd0, 0xb8, 0xfa, 0xc6,
        0x56, 0x69, 0x91, 0x7e, 0xc7,
    ],
    [
        0x69, 0xbd, 0x72, 0x8a, 0xd6, 0xe1, 0x3c, 0xd7, 0x6f, 0xf1, 0x97, 0x51, 0xfd, 0xe4, 0x27,
        0xb0, 0x0e, 0x39, 0x57, 0x46,
    ],
    [
        0x41, 0xc8, 0x9d, 0x06, 0x00, 0x1b, 0xab, 0x4a, 0xb7, 0x87, 0x36, 0xb4, 0x4e, 0xfe, 0x7c,
        0xe1, 0x8c, 0xe6, 0xae, 0x08,
    ],
    [
        0xd3, 0xdb, 0xd6, 0x53, 0xbd, 0x85, 0x97, 0xb7, 0x47, 0x53, 0x21, 0xb6, 0x0a, 0x36, 0x89,
        0x12, 0x78, 0xe6, 0xa0, 0x4a,
    ],
    [
        0xe6, 0x43, 0x4b, 0xc4, 0x01, 0xf9, 0x86, 0x03, 0xd7, 0xed, 0xa5, 0x04, 0x79, 0x0c, 0x98,
        0xc6, 0x73, 0x85, 0xd5, 0x35,
    ],
    [
        0xc9, 0xc9, 0x60, 0xa0, 0xb9, 0x25, 0x47, 0x4f, 0xab, 0x83, 0x94, 0x2c, 0xc2, 0x7d, 0x50,
        0x4f, 0xc2, 0x4a, 0xc3, 0x7b,
    ],
    [
        0x1f, 0x7c, 0xaf, 0xed, 0xff, 0xb2, 0x79, 0x7c, 0x60, 0x01, 0x3e, 0x6f, 0x95, 0xd7, 0x76,
        0x3b, 0xbc, 0x57, 0xc1, 0xee,
    ],
];

// The digest of a message, computed in one lane: the calls in the order in which a caller makes them.
fn digest_in_lane(message: &[u8], lane: usize) -> [u8; DIGEST_LEN]
    requires { lane < LANES }
    ensures { result ≡ sha1 message.now }
{
    let mut digests = FourDigests::new();
    let taken = digests.update(&[message, message, message, message]);
    let mut buffer = [0u8; BLOCK_LEN + MAX_PADDING];
    let end = put_last(&mut buffer, &message[taken..], message.len() as u64);
    let last = &buffer[..end];
    digests.update(&[last, last, last, last]);
    digests.finish(lane)
}

// The digest of "abc" in NIST's examples for FIPS 180-4.
const ABC: [u8; DIGEST_LEN] = [
    0xa9, 0x99, 0x3e, 0x36, 0x47, 0x06, 0x81, 0x6a, 0xba, 0x3e, 0x25, 0x71, 0x78, 0x50, 0xc2, 0x6c,
    0x9c, 0xd0, 0xd8, 0x9d,
];

#[test]
fn abc_in_each_lane(rt: HostRuntime) {
    for lane in 0..LANES {
        assert_eq!(rt;
            digest_in_lane(b"abc", lane).as_slice(),
            ABC.as_slice(),
            "lane {lane}"
        );
    }
}

// The text whose fronts are hashed.
fn counted(alloc: Global) -> Result<Vec<u8>, AllocError> {
    let mut text = Vec::new(alloc);
    for i in 0..1000000usize {
        text.push((i % 251) as u8)?;
    }
    Ok(text)
}

// The message of a number: a front of the text.
fn message_of(text: &[u8], number: usize) -> &[u8] {
    &text[..LENGTHS[number % COUNT].min(text.len())]
}

// A message with its padding, and how much of it is hashed.
#[derive(Drop)]
struct Cursor {
    number: usize,
    padded: Vec<u8>,
    done: usize,
}

impl Cursor {
    fn new(alloc: Global, text: &[u8], number: usize) -> Result<Cursor, AllocError> {
        let message = message_of(text, number);
        let mut padded = message.to_vec(alloc)?;
        padded.extend_from_slice(&[0; MAX_PADDING])?;
        let end = pad(&mut padded, message.len(), message.len() as u64);
        padded.truncate(end);
        Ok(Cursor {
            number,
            padded,
            done: 0,
        })
    }

    fn rest(&self) -> &[u8] {
        if self.done < self.padded.len() {
            &self.padded[self.done..]
        } else {
            &[]
        }
    }
}

// The messages one after another, four times over: a lane takes the next one when its own has ended, so that messages
// of different lengths are side by side. In the end each lane has a long one.
#[test]
fn known_digests(rt: HostRuntime) -> Result<(), Fail> {
    let text = counted(rt.alloc())?;
    let mut digests = FourDigests::new();
    let mut cursors = [
        Cursor::new(rt.alloc(), &text, 0)?,
        Cursor::new(rt.alloc(), &text, 1)?,
        Cursor::new(rt.alloc(), &text, 2)?,
        Cursor::new(rt.alloc(), &text, 3)?,
    ];
    let mut begun = LANES;
    for _ in 0..1000 {
        let taken = digests.update(&[
            cursors[0].rest(),
            cursors[1].rest(),
            cursors[2].rest(),
            cursors[3].rest(),
        ]);
        for lane in 0..LANES {
            cursors[lane].done = cursors[lane].done.saturating_add(taken);
            if cursors[lane].rest().is_empty() {
                let number = cursors[lane].number;
                let digest = digests.finish(lane);
                assert_eq!(rt;
                    digest.as_slice(),
                    DIGESTS[number % COUNT].as_slice(),
                    "message {number}"
                );
                cursors[lane] = Cursor::new(rt.alloc(), &text, begun)?;
                begun = begun.saturating_add(1);
            }
        }
        if begun == LANES + 4 * COUNT {
            return Ok(());
        }
    }
    assert!(rt; false, "a lane doesn't end");
    Ok(())
}

// All messages by one call, of different lengths: none, fewer than there are lanes, and more.
#[test]
fn each_digest(rt: HostRuntime) -> Result<(), Fail> {
    let text = counted(rt.alloc())?;
    for count in [0usize, 1, 2, 3, 4, 5, COUNT, 3 * COUNT] {
        let mut messages = Vec::new(rt.alloc());
        for number in 0..count {
            messages.push(message_of(&text, number))?;
        }
        let mut digests = vec![in rt.alloc(); [0u8; DIGEST_LEN]; messages.len()]?;
        digest_each(&messages, &mut digests);
        for (number, digest) in digests.iter().enumerate() {
            assert_eq!(rt;
                digest.as_slice(),
                DIGESTS[number % COUNT].as_slice(),
                "message {number} of {count}"
            );
        }
    }
    Ok(())
}

// The digest of a message that comes in two pieces.
fn digest_of_two(first: &[u8], second: &[u8]) -> [u8; DIGEST_LEN]
    ensures { result ≡ sha1 (first.now ++ second.now) }
{
    let mut digest = OneDigest::new();
    digest.update(first);
    digest.update(second);
    digest.finish()
}

// The digests of no bytes, of "abc", and of a message of 448 bits in NIST's examples for FIPS 180-4.
#[test]
fn one_known_digest(rt: HostRuntime) {
    let long = b"abcdbcdecdefdefgefghfghighijhijkijkljklmklmnlmnomnopnopq";
    let long_digest: [u8; DIGEST_LEN] = [
        0x84, 0x98, 0x3e, 0x44, 0x1c, 0x3b, 0xd2, 0x6e, 0xba, 0xae, 0x4a, 0xa1, 0xf9, 0x51, 0x29,
        0xe5, 0xe5, 0x46, 0x70, 0xf1,
    ];
    assert_eq!(rt; digest_of_two(b"", b"").as_slice(), DIGESTS[0].as_slice());
    assert_eq!(rt; digest_of_two(b"abc", b"").as_slice(), ABC.as_slice());
    assert_eq!(rt; digest_of_two(b"a", b"bc").as_slice(), ABC.as_slice());
    assert_eq!(rt; digest_of_two(long, b"").as_slice(), long_digest.as_slice());
}

// Each message in one piece and in pieces of 4,096 bytes.
#[test]
fn one_digest(rt: HostRuntime) -> Result<(), Fail> {
    let text = counted(rt.alloc())?;
    for number in 0..COUNT {
        let message = message_of(&text, number);
        let mut digest = OneDigest::new();
        for piece in message.chunks(4096) {
            digest.update(piece);
        }
        assert_eq!(rt;
            digest.finish().as_slice(),
            DIGESTS[number].as_slice(),
            "message {number} in pieces"
        );
        assert_eq!(rt;
            digest_of_two(message, b"").as_slice(),
            DIGESTS[number].as_slice(),
            "message {number}"
        );
    }
    Ok(())
}

// Each front of the text up to two groups of blocks, cut at each place near the edge of a block, has the digest that
// scalar code gives.
#[test]
fn one_digest_of_each_length(rt: HostRuntime) -> Result<(), Fail> {
    let text = counted(rt.alloc())?;
    let cuts = [
        0usize, 1, 8, 55, 56, 63, 64, 65, 119, 127, 128, 129, 192, 255, 256, 257, 320, 511,
    ];
    for len in 0..2 * LANES * BLOCK_LEN + 2 {
        let message = &text[..len.min(text.len())];
        let whole = Sha1::digest(message);
        for cut in cuts {
            let (first, second) = message.split_at(cut.min(message.len()));
            assert_eq!(rt;
                digest_of_two(first, second).as_slice(),
                whole.as_slice(),
                "{len} bytes, cut at {cut}"
            );
        }
    }
    Ok(())
}

// A message in pieces of each size from 1 to 130.
#[test]
fn one_digest_of_pieces(rt: HostRuntime) -> Result<(), Fail> {
    let text = counted(rt.alloc())?;
    let message = message_of(&text, 10);
    for size in 1..131 {
        let mut digest = OneDigest::new();
        for piece in message.chunks(size) {
            digest.update(piece);
        }
        assert_eq!(rt;
            digest.finish().as_slice(),
            DIGESTS[10].as_slice(),
            "pieces of {size} bytes"
        );
    }
    Ok(())
}
