//! SHA-1 (FIPS 180-4) in the four lanes of one register: of four messages at once, or of a single one.
//!
//! A processor computes the digests of four messages in the four lanes. That takes about two fifths of the time that
//! the four take one after another, and the same time where fewer lanes are in use. So a single message is better given
//! to [`OneDigest`], which computes the message schedules of four of its blocks in the lanes. A long message then takes
//! about three quarters of the time that the scalar code of `sha1::Sha1` takes.
//!
//! [`digest_each`] gives the digests of many messages that are in memory. A caller with four messages that come in
//! pieces uses [`FourDigests`].
//!
//! Each lane takes the blocks of a message, 64 bytes each. [`FourDigests::update`] is given a piece of each message,
//! and takes as many blocks of each as the shortest piece has. The last blocks of a message hold its last bytes and its
//! padding, which [`pad`] writes after them. Then [`FourDigests::finish`] gives the digest, and the lane begins another
//! message, while the other lanes go on with theirs. A lane that has no message left may be given any bytes, such as
//! the piece of another lane. `digest_in_lane` in src/tests.rt makes these calls, and proves that they give the digest.
#![tactic(auto)]

ghost use Rattle.std.specs.Prelude.{◌≡◌, ℕ, ◌+◌, ◌*◌, ◌/◌, ◌<◌, ◌≤◌, ◌≢◌, List, [], ◌++◌, length, take, drop, slice_index};
ghost use Rattle.sha1.specs.Sha1.{digest_bytes, initial_hash, padded_message, padding, sha1};
ghost use Rattle.warc_lanes.specs.Lanes.{InEachLane, lane_of, bytes_in, shortest};

mod chain;
mod each;
mod kernel;
mod one;
mod schedule;
#[cfg(test)]
mod tests;

use chain::bytes_of;
pub use each::digest_each;
use kernel::{STATE_LEN, State};
pub use one::OneDigest;
use std::simd::u32x4;

/// The number of lanes.
pub const LANES: usize = 4;

/// The length of a block in bytes.
pub const BLOCK_LEN: usize = 64;

/// The length of a digest in bytes.
pub const DIGEST_LEN: usize = 20;

/// The length of the longest padding in bytes.
pub const MAX_PADDING: usize = 72;

// The length in bytes of the message's length, which ends the padding.
const LENGTH_LEN: usize = 8;

// The initial hash value (5.3.1).
const INITIAL: [u32; STATE_LEN] = [
    0x6745_2301,
    0xEFCD_AB89,
    0x98BA_DCFE,
    0x1032_5476,
    0xC3D2_E1F0,
];

/// Four digests that are being computed. Each field is one word of the hash value, in each lane.
#[derive(Drop)]
pub struct FourDigests {
    h0: u32x4,
    h1: u32x4,
    h2: u32x4,
    h3: u32x4,
    h4: u32x4,
}

impl FourDigests {
    ghost use Rattle.warc_lanes.specs.Digests.{LaneHasTaken, words_of};

    /// Each lane begins a message.
    pub fn new() -> FourDigests
        ensures { InEachLane (λ lane. LaneHasTaken result lane []) }
    {
        FourDigests {
            h0: u32x4::splat(INITIAL[0]),
            h1: u32x4::splat(INITIAL[1]),
            h2: u32x4::splat(INITIAL[2]),
            h3: u32x4::splat(INITIAL[3]),
            h4: u32x4::splat(INITIAL[4]),
        }
    }

    /// Takes the blocks at the front of the four pieces, each piece into its lane: as many of each as the shortest has.
    /// Returns how many bytes of each that is.
    pub fn update(&mut self, pieces: &[&[u8]; LANES]) -> usize
        ensures len { result ≡ shortest pieces.now / BLOCK_LEN * BLOCK_LEN }
        ensures taken { InEachLane (λ lane. (taken : List ℕ) → LaneHasTaken self.old lane taken →
            LaneHasTaken self.new lane (taken ++ take result (bytes_in lane pieces.now))) }
    {
        let count = shortest(pieces) / BLOCK_LEN;
        let mut state = self.state();
        'hashing: for i in 0..count {
            kernel::compress(&mut state, &blocks_at(pieces, BLOCK_LEN * i));
        }
        self.set_state(state);
        BLOCK_LEN * count
    }

    /// The digest of the message that the lane has taken with its padding. The lane then begins another message.
    pub fn finish(&mut self, lane: usize) -> [u8; DIGEST_LEN]
        requires { lane < LANES }
        ensures digest { (message : List ℕ) → LaneHasTaken self.old lane (padded_message message) →
            result ≡ sha1 message }
        ensures begun { LaneHasTaken self.new lane [] }
        ensures others { (other : ℕ) (taken : List ℕ) → other ≢ lane → LaneHasTaken self.old other taken →
            LaneHasTaken self.new other taken }
    {
        let digest = self.digest(lane);
        self.begin(lane);
        digest
    }

    fn state(&self) -> State
        ensures { result ≡ words_of self.now }
    {
        [self.h0, self.h1, self.h2, self.h3, self.h4]
    }

    fn set_state(&mut self, state: State)
        ensures { words_of self.new ≡ state }
    {
        let [h0, h1, h2, h3, h4] = state;
        *self = FourDigests { h0, h1, h2, h3, h4 };
    }

    fn digest(&self, lane: usize) -> [u8; DIGEST_LEN]
        requires { lane < LANES }
        ensures { result ≡ digest_bytes (lane_of lane (words_of self.now)) STATE_LEN }
    {
        bytes_of(&[
            self.h0.to_array()[lane],
            self.h1.to_array()[lane],
            self.h2.to_array()[lane],
            self.h3.to_array()[lane],
            self.h4.to_array()[lane],
        ])
    }

    fn begin(&mut self, lane: usize)
        requires { lane < LANES }
        ensures begun { lane_of lane (words_of self.new) ≡ initial_hash }
        ensures others { (other : ℕ) → other ≢ lane →
            lane_of other (words_of self.new) ≡ lane_of other (words_of self.old) }
    {
        self.h0 = replaced(self.h0, lane, INITIAL[0]);
        self.h1 = replaced(self.h1, lane, INITIAL[1]);
        self.h2 = replaced(self.h2, lane, INITIAL[2]);
        self.h3 = replaced(self.h3, lane, INITIAL[3]);
        self.h4 = replaced(self.h4, lane, INITIAL[4]);
    }
}

// The vector with another word in a lane.
fn replaced(vector: u32x4, lane: usize, word: u32) -> u32x4
    requires { lane < LANES }
    ensures word { slice_index result lane ≡ word }
    ensures others { (other : ℕ) → other ≢ lane → slice_index result other ≡ slice_index vector other }
{
    let mut words = vector.to_array();
    words[lane] = word;
    u32x4::from_array(words)
}

fn shortest(pieces: &[&[u8]; LANES]) -> usize
    ensures { result ≡ shortest pieces.now }
{
    let left = pieces[0].len().min(pieces[1].len());
    let right = pieces[2].len().min(pieces[3].len());
    left.min(right)
}

fn block_at(piece: &[u8], at: usize) -> &[u8]
    requires { at + BLOCK_LEN ≤ length piece.now }
    ensures { result.now ≡ take BLOCK_LEN (drop at piece.now) }
{
    &piece[at..at + BLOCK_LEN]
}

// The block of each piece at an offset.
fn blocks_at<'a>(pieces: &[&'a [u8]; LANES], at: usize) -> [&'a [u8]; LANES]
    requires { at + BLOCK_LEN ≤ shortest pieces.now }
    ensures { InEachLane (λ lane. bytes_in lane result ≡ take BLOCK_LEN (drop at (bytes_in lane pieces.now))) }
{
    [
        block_at(pieces[0], at),
        block_at(pieces[1], at),
        block_at(pieces[2], at),
        block_at(pieces[3], at),
    ]
}

/// Writes the padding of a message of `len` bytes into a buffer, after the first `used` bytes (5.1.1). Returns where it
/// ends.
pub fn pad(buffer: &mut [u8], used: usize, len: u64) -> usize
    requires { used + MAX_PADDING ≤ length buffer.old }
    ensures end { result ≡ used + length (padding len) }
    ensures padded { buffer.new ≡ take used buffer.old ++ padding len ++ drop result buffer.old }
{
    let zeros = (119 - (len % BLOCK_LEN as u64) as usize) % 64;
    let zeros_end = used + 1 + zeros;
    let end = zeros_end + LENGTH_LEN;
    let bits = len.wrapping_mul(8);
    buffer[used] = 0x80;
    buffer[used + 1..zeros_end].fill(0);
    buffer[zeros_end..end].copy_from_slice(&bits.to_be_bytes());
    end
}
