//! What is put into buffers that callers lend.
ghost use Rattle.std.specs.Prelude.{◌≡◌, ◌++◌, ℕ, List, drop, length, min, take};
ghost use Rattle.warc_frame.specs.Count.{capped};
ghost use Rattle.warc_lent.specs.Buffers.{HoldsFront, KeepsAfter};

/// Copies as much of a text as a buffer has room for.
fn copy_front(text: &[u8], out: &mut [u8])
    ensures front { take (min (length text.now) (length out.old)) out.new
        ≡ take (min (length text.now) (length out.old)) text.now }
    ensures rest { drop (min (length text.now) (length out.old)) out.new
        ≡ drop (min (length text.now) (length out.old)) out.old }
    ensures room { length out.new ≡ length out.old }
{
    let count = text.len().min(out.len());
    out[..count].copy_from_slice(&text[..count]);
}

/// Puts the front of a text into a buffer, as much as it has room for, and answers the text's length. What follows in
/// the buffer stays.
pub fn put_text(text: &[u8], out: &mut [u8]) -> usize
    ensures whole { result ≡ length text.now }
    ensures front { HoldsFront text.now out.new }
    ensures rest { KeepsAfter (length text.now) out.old out.new }
    ensures room { length out.new ≡ length out.old }
{
    copy_front(text, out);
    text.len()
}

/// Puts a text into a buffer from an index on, as much as it has room for, and answers the index after the whole text,
/// up to 2^64 - 1. So texts are put one after another: if the buffer holds the front of what comes before the index, it
/// then holds the front of both. What follows in the buffer stays.
pub fn put_text_at(text: &[u8], at: usize, out: &mut [u8]) -> usize
    ensures end { (before : List ℕ) → at ≡ capped (length before) → result ≡ capped (length (before ++ text.now)) }
    ensures front { (before : List ℕ) → at ≡ capped (length before) → HoldsFront before out.old →
        HoldsFront (before ++ text.now) out.new }
    ensures rest { (before : List ℕ) → at ≡ capped (length before) →
        KeepsAfter (length (before ++ text.now)) out.old out.new }
    ensures room { length out.new ≡ length out.old }
{
    let from = at.min(out.len());
    put_text(text, &mut out[from..]);
    at.saturating_add(text.len())
}

/// Copies as many positions as a buffer has room for.
fn copy_positions(positions: &[usize], out: &mut [usize])
    ensures front { take (min (length positions.now) (length out.old)) out.new
        ≡ take (min (length positions.now) (length out.old)) positions.now }
    ensures rest { drop (min (length positions.now) (length out.old)) out.new
        ≡ drop (min (length positions.now) (length out.old)) out.old }
    ensures room { length out.new ≡ length out.old }
{
    let count = positions.len().min(out.len());
    out[..count].copy_from_slice(&positions[..count]);
}

/// Puts the first positions into a buffer, as many as it has room for, and answers how many there are. What follows in
/// the buffer stays.
pub fn put_positions(positions: &[usize], out: &mut [usize]) -> usize
    ensures number { result ≡ length positions.now }
    ensures front { HoldsFront positions.now out.new }
    ensures rest { KeepsAfter (length positions.now) out.old out.new }
    ensures room { length out.new ≡ length out.old }
{
    copy_positions(positions, out);
    positions.len()
}
