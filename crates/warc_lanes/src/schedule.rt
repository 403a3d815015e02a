//! The message schedules of four blocks at once, each in a lane of its own (FIPS 180-4, 6.1.2).
//!
//! The schedule of a block depends on no other block. So four blocks that follow each other in one message are as good
//! as those of four messages.

ghost use Rattle.std.specs.Prelude.{◌≡◌, ℕ, ◌+◌, ◌<◌, ◌≤◌, List, length};
ghost use Rattle.warc_lanes.specs.Lanes.{InEachLane, lane_of, bytes_in};
ghost use Rattle.warc_lanes.specs.Rounds.{HasKeyedWords, IsBeforeKeyedWord};

use crate::LANES;
use crate::kernel::{ROUNDS, WINDOW_LEN, Window, add, constant, load, word};
use std::simd::u32x4;

/// The word of each round with the round's constant added, in each lane.
pub type Keyed = [[u32; LANES]; ROUNDS];

// Writes the keyed word of round `t`.
#[inline(always)]
fn put_word(keyed: &mut Keyed, window: &mut Window, t: usize)
    requires { t < ROUNDS }
    ensures { InEachLane (λ j. (block : List ℕ) →
        IsBeforeKeyedWord block t (lane_of j window.old) (lane_of j keyed.old) →
        IsBeforeKeyedWord block (t + 1) (lane_of j window.new) (lane_of j keyed.new)) }
{
    let word = word(window, t);
    keyed[t] = add(word, u32x4::splat(constant(t))).to_array();
}

#[inline(always)]
fn put_five_words(keyed: &mut Keyed, window: &mut Window, t: usize)
    requires { t + 5 ≤ ROUNDS }
    ensures { InEachLane (λ j. (block : List ℕ) →
        IsBeforeKeyedWord block t (lane_of j window.old) (lane_of j keyed.old) →
        IsBeforeKeyedWord block (t + 5) (lane_of j window.new) (lane_of j keyed.new)) }
{
    put_word(keyed, window, t);
    put_word(keyed, window, t + 1);
    put_word(keyed, window, t + 2);
    put_word(keyed, window, t + 3);
    put_word(keyed, window, t + 4);
}

// The keyed words of twenty rounds from round `T` on. By a const parameter the places in the window and the constant
// are known when this is compiled.
fn put_twenty_words<const T: usize>(keyed: &mut Keyed, window: &mut Window)
    requires { T + 20 ≤ ROUNDS }
    ensures { InEachLane (λ j. (block : List ℕ) →
        IsBeforeKeyedWord block T (lane_of j window.old) (lane_of j keyed.old) →
        IsBeforeKeyedWord block (T + 20) (lane_of j window.new) (lane_of j keyed.new)) }
{
    put_five_words(keyed, window, T);
    put_five_words(keyed, window, T + 5);
    put_five_words(keyed, window, T + 10);
    put_five_words(keyed, window, T + 15);
}

/// Writes the keyed words of a block in each lane.
pub(crate) fn schedule(keyed: &mut Keyed, blocks: &[&[u8]; LANES])
    requires { InEachLane (λ j. length (bytes_in j blocks.now) ≡ 64) }
    ensures { InEachLane (λ j. HasKeyedWords (bytes_in j blocks.now) ROUNDS (lane_of j keyed.new)) }
{
    let mut window = [u32x4::splat(0); WINDOW_LEN];
    load(&mut window, blocks);
    put_twenty_words::<0>(keyed, &mut window);
    put_twenty_words::<20>(keyed, &mut window);
    put_twenty_words::<40>(keyed, &mut window);
    put_twenty_words::<60>(keyed, &mut window);
}
