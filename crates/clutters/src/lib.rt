// Needs in the places of a slice: the place of a given one, and one taken out.
#![tactic(auto)]

ghost use Rattle.std.specs.Prelude.{◌≡◌, ℕ, map, MatchOption};
ghost use Rattle.clutters.specs.Clutters.{SameAt, Lowest, closed_up};

use needs::Kind;

// The lowest place of a need that is the same as the given one.
pub fn same_place<K: Kind>(held: &[K], need: K) -> Option<usize>
    ensures answer { MatchOption result ((p : ℕ) → SameAt (map K.Kind.levels held.now) (K.Kind.levels need) p → ⊥) (Lowest (SameAt (map K.Kind.levels held.now) (K.Kind.levels need))) }
{
    held.iter().position(|other| need.same(*other))
}

// Takes what stands in a place out: what stands behind it moves down by one, and the last place keeps what it holds.
// A place past the end leaves the row as it is.
pub fn close_up<T: Copy>(row: &mut [T], place: usize)
    ensures after { row.new ≡ closed_up row.old place }
{
    if place < row.len() {
        row.copy_within(place + 1.., place);
    }
}
