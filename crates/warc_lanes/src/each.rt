//! The SHA-1 of many messages in memory, four at a time.
//!
//! Each lane hashes the whole blocks of its message where they lie, and then a copy of the last bytes with the padding.
//! When its message has ended, it takes the next one, while the other lanes go on with theirs.

ghost use Rattle.std.specs.Prelude.{◌≡◌, ◌≢◌, ℕ, ◌+◌, ◌-◌, ◌*◌, ◌/◌, ◌%◌, ◌<◌, ◌≤◌, ◌++◌, length, map, take};
ghost use Rattle.std.specs.Prelude.{slice_index, slice_set, sum, MatchOption};
ghost use Rattle.sha1.specs.Sha1.{padding, sha1};
ghost use Rattle.warc_lanes.specs.Lanes.{InEachLane, bytes_in, shortest};
ghost use Rattle.warc_lanes.specs.Messages.{IsPadded};

use crate::{BLOCK_LEN, DIGEST_LEN, FourDigests, LANES, MAX_PADDING, pad};

/// Room for the last bytes of a message and its padding.
pub const TAIL_LEN: usize = BLOCK_LEN + MAX_PADDING;

/// What is kept of a message in a lane.
#[derive(Clone, Copy)]
struct Padded {
    // The index of the message, or the number of messages where there is none.
    index: usize,
    // The length of the message with its padding.
    len: usize,
    // What follows the message's whole blocks: its last bytes and its padding.
    tail: [u8; TAIL_LEN],
}

/// The messages that are in the lanes.
#[derive(Drop)]
struct Hashing {
    padded: [Padded; LANES],
    // How many bytes of each, with its padding, are not hashed yet.
    left: [usize; LANES],
    // How many messages were begun.
    next: usize,
}

/// Writes the SHA-1 of each message to its place in `digests`.
///
/// The messages are hashed four at a time, and their lengths may differ. Towards the end, when no message is left for a
/// lane, the others take as long as all four. So a single message takes longer than with [`crate::OneDigest`].
pub fn digest_each(messages: &[&[u8]], digests: &mut [[u8; DIGEST_LEN]])
    requires { length digests.old ≡ length messages.now }
    ensures { digests.new ≡ map (λ message. sha1 message.now) messages.now }
{
    let mut lanes = FourDigests::new();
    let mut hashing = Hashing::idle(messages.len());
    hashing.refill(&mut lanes, messages, digests);
    'hashing: while let Some(busy) = hashing.busy_lane() {
        let taken = lanes.update(&hashing.pieces(messages, busy));
        hashing.advance(taken);
        hashing.refill(&mut lanes, messages, digests);
    }
}

impl Hashing {
    ghost use Rattle.warc_lanes.specs.Messages.{Begins, IsHashing, IsLane, IsNextPiece, IsReady, bytes_left};
    ghost use Rattle.warc_lanes.specs.Messages.{index_in, message_in};

    // No message of `count` is begun.
    fn idle(count: usize) -> Hashing
        ensures indexes { InEachLane (λ lane. index_in result lane ≡ count) }
        ensures left { InEachLane (λ lane. slice_index result.left lane ≡ 0) }
        ensures next { result.next ≡ 0 }
    {
        Hashing {
            padded: [Padded::none(count); LANES],
            left: [0; LANES],
            next: 0,
        }
    }

    // A lane with bytes left.
    fn busy_lane(&self) -> Option<usize>
        ensures { MatchOption result (InEachLane (λ lane. slice_index self.now.left lane ≡ 0))
            (λ lane. (lane < LANES) × (0 < slice_index self.now.left lane)) }
    {
        self.left.iter().position(|left| *left > 0)
    }

    // The next piece of the message in a lane that has bytes left.
    fn piece<'a, 'm: 'a>(&'a self, messages: &[&'m [u8]], lane: usize) -> &'a [u8]
        requires lane { lane < LANES }
        requires left { 0 < slice_index self.now.left lane }
        requires message { IsLane messages.now self.now lane }
        ensures { IsNextPiece (message_in messages.now self.now lane) (slice_index self.now.left lane) result.now }
    {
        let padded = &self.padded[lane];
        padded.piece(messages[padded.index], self.left[lane])
    }

    // The next piece of the message in a lane, or of the one in a busy lane if no bytes are left.
    fn piece_or<'a, 'm: 'a>(&'a self, messages: &[&'m [u8]], lane: usize, busy: usize) -> &'a [u8]
        requires lane { lane < LANES }
        requires busy { (busy < LANES) × (0 < slice_index self.now.left busy) }
        requires messages { InEachLane (IsLane messages.now self.now) }
        ensures some { 0 < length result.now }
        ensures blocks { length result.now % BLOCK_LEN ≡ 0 }
        ensures next { 0 < slice_index self.now.left lane →
            IsNextPiece (message_in messages.now self.now lane) (slice_index self.now.left lane) result.now }
    {
        if self.left[lane] > 0 {
            self.piece(messages, lane)
        } else {
            self.piece(messages, busy)
        }
    }

    // A piece for each lane: the next one of its message, or of the message in a busy lane if no bytes are left.
    fn pieces<'a, 'm: 'a>(&'a self, messages: &[&'m [u8]], busy: usize) -> [&'a [u8]; LANES]
        requires busy { (busy < LANES) × (0 < slice_index self.now.left busy) }
        requires messages { InEachLane (IsLane messages.now self.now) }
        ensures some { 0 < shortest result }
        ensures blocks { shortest result % BLOCK_LEN ≡ 0 }
        ensures next { InEachLane (λ lane. 0 < slice_index self.now.left lane →
            IsNextPiece (message_in messages.now self.now lane) (slice_index self.now.left lane)
            (bytes_in lane result)) }
    {
        [
            self.piece_or(messages, 0, busy),
            self.piece_or(messages, 1, busy),
            self.piece_or(messages, 2, busy),
            self.piece_or(messages, 3, busy),
        ]
    }

    // Takes off `taken` bytes of each message, which are hashed.
    fn advance(&mut self, taken: usize)
        ensures padded { self.new.padded ≡ self.old.padded }
        ensures left { InEachLane (λ lane.
            slice_index self.new.left lane ≡ slice_index self.old.left lane - taken) }
        ensures less { (lane : ℕ) → lane < LANES → 0 < taken → 0 < slice_index self.old.left lane →
            sum self.new.left < sum self.old.left }
        ensures next { self.new.next ≡ self.old.next }
    {
        self.left = [
            self.left[0].saturating_sub(taken),
            self.left[1].saturating_sub(taken),
            self.left[2].saturating_sub(taken),
            self.left[3].saturating_sub(taken),
        ];
    }

    // Each lane whose message has ended gives its digest, and begins the next message.
    fn refill(
        &mut self,
        lanes: &mut FourDigests,
        messages: &[&[u8]],
        digests: &mut [[u8; DIGEST_LEN]],
    )
        requires { IsHashing messages.now lanes.old self.old digests.old }
        ensures hashing { IsHashing messages.now lanes.new self.new digests.new }
        ensures ready { InEachLane (IsReady messages.now self.new) }
        ensures left { bytes_left messages.now self.new ≡ bytes_left messages.now self.old }
    {
        'lanes: for lane in 0..LANES {
            self.refill_lane(lane, lanes, messages, digests);
        }
    }

    // If the message of a lane has ended, the lane gives its digest, and begins the next message.
    fn refill_lane(
        &mut self,
        lane: usize,
        lanes: &mut FourDigests,
        messages: &[&[u8]],
        digests: &mut [[u8; DIGEST_LEN]],
    )
        requires lane { lane < LANES }
        requires hashing { IsHashing messages.now lanes.old self.old digests.old }
        ensures hashing { IsHashing messages.now lanes.new self.new digests.new }
        ensures ready { IsReady messages.now self.new lane }
        ensures others { (other : ℕ) → other ≢ lane → IsReady messages.now self.old other →
            IsReady messages.now self.new other }
        ensures left { bytes_left messages.now self.new ≡ bytes_left messages.now self.old }
    {
        if self.left[lane] > 0 {
            return;
        }
        let digest = lanes.finish(lane);
        let index = self.padded[lane].index;
        put_digest(digests, index, digest);
        self.begin_next(lane, messages);
    }

    // A lane whose message has ended begins the next one, if there is one.
    fn begin_next(&mut self, lane: usize, messages: &[&[u8]])
        requires lane { lane < LANES }
        requires next { self.old.next ≤ length messages.now }
        requires ended { slice_index self.old.left lane ≡ 0 }
        ensures begins { Begins messages.now self.old self.new lane }
        ensures left { bytes_left messages.now self.new ≡ bytes_left messages.now self.old }
    {
        let padded = padded_at(messages, self.next);
        self.padded[lane] = padded;
        self.left[lane] = padded.len;
        self.next = (self.next + 1).min(messages.len());
    }
}

// The message at an index, if there is one.
fn padded_at(messages: &[&[u8]], index: usize) -> Padded
    requires { index ≤ length messages.now }
    ensures index { result.index ≡ index }
    ensures message { index < length messages.now → IsPadded (bytes_in index messages.now) result }
    ensures none { index ≡ length messages.now → result.len ≡ 0 }
{
    if index < messages.len() {
        Padded::new(messages[index], index)
    } else {
        Padded::none(index)
    }
}

// Writes a digest, unless its index is past the end.
fn put_digest(digests: &mut [[u8; DIGEST_LEN]], index: usize, digest: [u8; DIGEST_LEN])
    ensures { digests.new ≡ slice_set digests.old index digest }
{
    if index < digests.len() {
        digests[index] = digest;
    }
}

impl Padded {
    ghost use Rattle.warc_lanes.specs.Messages.{IsNextPiece};

    // No message.
    fn none(index: usize) -> Padded
        ensures index { result.index ≡ index }
        ensures len { result.len ≡ 0 }
    {
        Padded {
            index,
            len: 0,
            tail: [0; TAIL_LEN],
        }
    }

    // The message at an index.
    fn new(message: &[u8], index: usize) -> Padded
        ensures index { result.index ≡ index }
        ensures padded { IsPadded message.now result }
    {
        let whole = whole_len(message.len());
        let mut tail = [0u8; TAIL_LEN];
        let end = put_last(&mut tail, &message[whole..], message.len() as u64);
        Padded {
            index,
            len: whole + end,
            tail,
        }
    }

    // The next piece of the message, where `left` bytes are left: the rest of its whole blocks, or else of its tail.
    fn piece<'a>(&'a self, message: &'a [u8], left: usize) -> &'a [u8]
        requires message { IsPadded message.now self.now }
        requires some { 0 < left }
        requires within { left ≤ self.now.len }
        requires blocks { left % BLOCK_LEN ≡ 0 }
        ensures { IsNextPiece message.now left result.now }
    {
        let whole = whole_len(message.len());
        let done = self.len - left;
        if done < whole {
            &message[done..whole]
        } else {
            &self.tail[done - whole..self.len - whole]
        }
    }
}

/// The length of a message's whole blocks.
pub fn whole_len(len: usize) -> usize
    ensures { result ≡ len / BLOCK_LEN * BLOCK_LEN }
{
    len / BLOCK_LEN * BLOCK_LEN
}

/// Writes the last bytes of a message of `len` bytes and its padding to the front of a buffer. Returns where they end.
pub fn put_last(buffer: &mut [u8], last: &[u8], len: u64) -> usize
    requires { length last.now + MAX_PADDING ≤ length buffer.old }
    ensures len { length buffer.new ≡ length buffer.old }
    ensures last { take result buffer.new ≡ last.now ++ padding len }
    ensures end { result ≤ length buffer.new }
{
    buffer[..last.len()].copy_from_slice(last);
    pad(buffer, last.len(), len)
}
