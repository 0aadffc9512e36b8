// What was taken so far, joined to one need more.
ghost use Rattle.std.specs.Prelude.{◌≡◌, ℕ};
ghost use Rattle.needs.specs.Levels.{join};
ghost use Rattle.totals.specs.Joins.{begun};

use needs::Kind;

// The join of what was taken so far with one need more.
pub(crate) fn joined_to<K: Kind>(so_far: Option<K>, need: K) -> K
    ensures answer { (i : ℕ) → K.Kind.levels result i ≡ join (begun K.Kind.levels so_far) (K.Kind.levels need) i }
{
    so_far.map_or(need, |taken| taken.join(need))
}
