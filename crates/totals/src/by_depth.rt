// The totals of many depths from one pass over the choices.
ghost use Rattle.std.specs.Prelude.{◌≡◌, ℕ, suc, ◌<◌, map, length, slice_index_or};
ghost use Rattle.totals.specs.Choices.{total as total_of, alternating, setting};
ghost use Rattle.totals.specs.Joins.{begun, sum_from};

use crate::chances::Chances;
use crate::joined::joined_to;
use algebras::Algebra;
use needs::Kind;

// Turns sums by size into totals by depth: each sum is added at even places and subtracted at odd ones.
fn accumulate<A: Algebra>(values: &mut [A::Value])
    ensures after { (k : ℕ) (d : A.Value) → k < length values.old → A.Algebra.means (slice_index_or values.new k d) ≡ alternating A.Algebra.model (λ j. A.Algebra.means (slice_index_or values.old j d)) (suc k) }
{
    let mut total = A::zero();
    for (i, value) in values.iter_mut().enumerate() {
        total = if i % 2 == 0 {
            A::add(total, *value)
        } else {
            A::sub(total, *value)
        };
        *value = total;
    }
}

impl Chances<'_> {
    // Adds, at place k of `sums`, the weights of all choices of k + 1 needs, each joined to `so_far`.
    fn add_sums<K: Kind, A: Algebra>(self, needs: &[K], so_far: Option<K>, sums: &mut [A::Value])
        ensures after { (k : ℕ) (d : A.Value) → k < length sums.old → A.Algebra.means (slice_index_or sums.new k d) ≡ A.Algebra.model.plus (A.Algebra.means (slice_index_or sums.old k d)) (sum_from A.Algebra.model (setting self.entry.components self.entry.rows.now K.Kind.TOP) (begun K.Kind.levels so_far) (suc k) (map K.Kind.levels needs.now)) }
    {
        let [first, rest @ ..] = needs else {
            return;
        };
        let Some((sum, larger)) = sums.split_first_mut() else {
            return;
        };
        let joined = joined_to(so_far, *first);
        *sum = A::add(*sum, self.weight::<K, A>(joined));
        self.add_sums::<K, A>(rest, Some(joined), larger);
        self.add_sums::<K, A>(rest, so_far, sums);
    }

    // The totals of all depths up to the length of `totals`, place k for depth k + 1, in one pass over the choices.
    pub fn fill_totals<K: Kind, A: Algebra>(self, needs: &[K], totals: &mut [A::Value])
        ensures answer { (k : ℕ) (d : A.Value) → k < length totals.old → A.Algebra.means (slice_index_or totals.new k d) ≡ total_of A.Algebra.model (setting self.entry.components self.entry.rows.now K.Kind.TOP) (suc k) (map K.Kind.levels needs.now) }
    {
        totals.fill_with(|| A::zero());
        self.add_sums::<K, A>(needs, None, totals);
        accumulate::<A>(totals);
    }
}
