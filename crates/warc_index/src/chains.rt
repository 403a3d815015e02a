//! Where the chains of referents end: a table that is made for all records at once, so that no way is gone twice.

ghost use Rattle.std.specs.Prelude.{◌≡◌, ℕ, ◌+◌, length, Option};
ghost use Rattle.warc_index.specs.Chains.{AreReached, place_for};

/// The place that a table has for a position: the position itself, if it has none.
pub(crate) fn place_for(places: &[usize], position: usize) -> usize
    ensures { result ≡ place_for places.now position }
{
    match places.get(position) {
        Some(place) => *place,
        None => position,
    }
}

/// Takes each way on by as many steps as it has taken, or more.
pub(crate) fn double(places: &mut [usize])
    ensures same { length places.new ≡ length places.old }
    ensures further { (next : ℕ → Option ℕ) (least : ℕ) → AreReached next least places.old →
        AreReached next (least + least) places.new }
{
    'doubling: for position in 0..places.len() {
        places[position] = place_for(places, places[position]);
    }
}
