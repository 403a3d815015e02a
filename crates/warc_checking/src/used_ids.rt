//! The ids of the records so far.
ghost use Rattle.std.specs.Prelude.{◌≡◌, ℕ, ◌*◌, ◌<◌, ◌≤◌, ◌^◌, List, [], ◌∷◌, ◌++◌, length, nat_lt, IfOk, OnOk, Some};
ghost use Rattle.warc_frame.specs.Record.{Record};
ghost use Rattle.warc_record.specs.Ids.{id_key};
ghost use Rattle.warc_checking.specs.Checking.{is_used, record_key};
ghost use Rattle.warc_checking.specs.UsedIds.{HoldsIdsOf, IsAlone, IsBucketAt, IsTally, bucket_of, buckets_in, level, level_at, level_in};

use std::alloc::{AllocError, Allocator};
use std::collections::BTreeSet;
use std::hash::{FoldHasher, Hasher};
use std::marker::Model;
use warc_reading::Rows;
use warc_record::id_key;

/// How many buckets have their levels in one byte.
const BUCKETS_IN_BYTE: usize = 4;

/// How many bytes of levels there are for each id: 32 buckets.
const BYTES_FOR_ID: usize = 8;

/// How many buckets there are at most, so that each has a number of 32 bits.
const MAX_BUCKETS: usize = 0xffff_ffff;

/// The bucket of a key, of n buckets. Keys that differ mostly have buckets that differ.
#[tactic(auto, unfolding(crate::specs::UsedIds::bucket_of))]
fn bucket(key: &[u8], count: usize) -> usize
    requires { 0 < count }
    ensures within { result < count }
    ensures is { result ≡ bucket_of count key.now }
{
    let mut hasher = FoldHasher::default();
    hasher.write(key);
    (hasher.finish() % count as u64) as usize
}

/// The level at a place in a byte of four.
#[tactic(auto, unfolding(crate::specs::UsedIds::level_in))]
fn level_of(levels: u8, place: usize) -> u8
    requires { place < 4 }
    ensures { result ≡ level_in levels place }
{
    (levels >> (2 * place)) % 4
}

/// A byte of four levels, with the one at a place raised if it is below 2.
fn raise_level(levels: u8, place: usize) -> u8
    requires { place < 4 }
    ensures more { (other : ℕ) → other < 4 → level_in levels other ≤ level_in result other }
    ensures once { 0 < level_in result place }
    ensures twice { 0 < level_in levels place → 1 < level_in result place }
{
    if level_of(levels, place) < 2 {
        levels + (1 << (2 * place))
    } else {
        levels
    }
}

/// Counts one more id in a bucket.
fn count_in(bucket: usize, counts: &mut [u8])
    requires { bucket < buckets_in counts.old }
    ensures more { (other : ℕ) → level_at counts.old other ≤ level_at counts.new other }
    ensures once { 0 < level_at counts.new bucket }
    ensures twice { 0 < level_at counts.old bucket → 1 < level_at counts.new bucket }
{
    let at = bucket / BUCKETS_IN_BYTE;
    counts[at] = raise_level(counts[at], bucket % BUCKETS_IN_BYTE);
}

/// Counts a key in its bucket, and returns the bucket.
fn count_key(key: &[u8], counts: &mut [u8]) -> u32
    requires some { 0 < length counts.old }
    requires few { buckets_in counts.old ≤ 2 ^ 32 }
    ensures more { (other : List ℕ) → level counts.old other ≤ level counts.new other }
    ensures once { 0 < level counts.new key.now }
    ensures twice { 0 < level counts.old key.now → 1 < level counts.new key.now }
    ensures bucket { result ≡ bucket_of (buckets_in counts.old) key.now }
{
    let bucket = bucket(key, BUCKETS_IN_BYTE * counts.len());
    count_in(bucket, counts);
    bucket as u32
}

/// Counts the id that a text holds, and returns its bucket. If it holds none, the bucket is 0.
fn count_id(text: &[u8], counts: &mut [u8]) -> u32
    requires some { 0 < length counts.old }
    requires few { buckets_in counts.old ≤ 2 ^ 32 }
    ensures more { (other : List ℕ) → level counts.old other ≤ level counts.new other }
    ensures once { (key : List ℕ) → id_key text.now ≡ Some key → 0 < level counts.new key }
    ensures twice { (key : List ℕ) → id_key text.now ≡ Some key → 0 < level counts.old key →
        1 < level counts.new key }
    ensures bucket { (key : List ℕ) → id_key text.now ≡ Some key →
        result ≡ bucket_of (buckets_in counts.old) key }
{
    match id_key(text) {
        Some(key) => count_key(key.bytes(), counts),
        None => 0,
    }
}

/// The level of each bucket, and the bucket of each row's id.
#[derive(Drop)]
struct Tally<A: Allocator> {
    counts: Vec<u8, A>,
    buckets: Vec<u32, A>,
}

/// Counts the ids of the rows.
fn tally_rows<A: Allocator + Copy>(alloc: A, rows: &Rows<A>) -> Result<Tally<A>, AllocError>
    ensures { IfOk result (λ t. IsTally (length rows.now) rows.now t.counts.items t.buckets.items) }
{
    let count = rows
        .len()
        .saturating_mul(BYTES_FOR_ID)
        .max(1)
        .min(MAX_BUCKETS / BUCKETS_IN_BYTE);
    let mut counts = vec![in alloc; 0u8; count]?;
    let mut buckets = Vec::with_capacity(alloc, rows.len())?;
    'counting: for position in 0..rows.len() {
        let Some(row) = rows.get(position) else {
            unreachable!()
        };
        let bucket = count_id(row.id, &mut counts);
        buckets.push(bucket)?;
    }
    Ok(Tally { counts, buckets })
}

/// The ids that earlier records use. An id whose bucket counts no other record may be left out.
#[derive(Drop)]
pub(crate) struct UsedIds<A: Allocator> {
    counts: Vec<u8, A>,
    buckets: Vec<u32, A>,
    keys: BTreeSet<Vec<u8, A>, A>,
}

impl<A: Allocator> Model for UsedIds<A> {
    ghost use Rattle.std.specs.Prelude.{◌<◌, length, map};
    ghost use Rattle.std.specs.Vec.{vec_items};
    ghost use Rattle.warc_checking.specs.UsedIds.{Ids};

    ghost Value = { Ids };

    ghost view = { λ m. record {
      counts = m.counts.items;
      buckets = m.buckets.items;
      keys = map vec_items m.keys.keys;
    } };

    ghost invariant = { λ m. 0 < length m.counts.items };
}

impl<A: Allocator + Copy> UsedIds<A> {
    /// None of the ids of these rows.
    pub(crate) fn new(alloc: A, rows: &Rows<A>) -> Result<UsedIds<A>, AllocError>
        ensures tally { IfOk result (λ ids. IsTally (length rows.now) rows.now ids.counts ids.buckets) }
        ensures ids { IfOk result (HoldsIdsOf []) }
    {
        let Tally { counts, buckets } = tally_rows(alloc, rows)?;
        Ok(UsedIds {
            counts,
            buckets,
            keys: BTreeSet::new(alloc),
        })
    }

    /// Whether the bucket at a position has more than one id.
    fn is_shared(&self, position: usize) -> bool
        ensures shared { (key : List ℕ) → IsBucketAt self.now position key →
            result ≡ nat_lt 1 (level self.now.counts key) }
    {
        let Some(bucket) = self.buckets.get(position) else {
            return true;
        };
        let bucket = *bucket as usize;
        match self.counts.get(bucket / BUCKETS_IN_BYTE) {
            Some(levels) => level_of(*levels, bucket % BUCKETS_IN_BYTE) > 1,
            None => true,
        }
    }

    /// Adds the id that the text of the row at a position holds, and returns whether it is used already. It takes
    /// about as many steps as the number of ids has digits. An id that is alone in its bucket isn't parsed.
    pub(crate) fn add(&mut self, alloc: A, position: usize, text: &[u8]) -> Result<bool, AllocError>
        requires bucket { (key : List ℕ) → id_key text.now ≡ Some key → IsBucketAt self.old position key }
        ensures used { (before : List Record) → HoldsIdsOf before self.old →
            IsAlone before self.old (id_key text.now) → IfOk result (λ used. used ≡ is_used before (id_key text.now)) }
        ensures ids { (before : List Record) (r : Record) → HoldsIdsOf before self.old →
            record_key r ≡ id_key text.now → OnOk result (HoldsIdsOf (before ++ r ∷ []) self.new) }
        ensures counts { self.new.counts ≡ self.old.counts }
        ensures buckets { self.new.buckets ≡ self.old.buckets }
    {
        if !self.is_shared(position) {
            return Ok(false);
        }
        let Some(key) = id_key(text) else {
            return Ok(false);
        };
        if self.keys.contains(key.bytes()) {
            return Ok(true);
        }
        let kept = Vec::from_slice(alloc, key.bytes())?;
        let Ok(_) = self.keys.insert(kept) else {
            return Err(AllocError);
        };
        Ok(false)
    }
}
