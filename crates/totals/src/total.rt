// The total to one depth.
ghost use Rattle.std.specs.Prelude.{◌≡◌, map};
ghost use Rattle.totals.specs.Choices.{total as total_of, setting};
ghost use Rattle.totals.specs.Joins.{begun, total_from as total_joined};

use crate::chances::Chances;
use crate::joined::joined_to;
use algebras::Algebra;
use needs::Kind;

impl Chances<'_> {
    // The total over the choices of `needs`, each joined to what was taken so far: those without the first need, the first
    // need alone, and, with the other sign, the first need with others.
    fn total_from<K: Kind, A: Algebra>(
        self,
        needs: &[K],
        so_far: Option<K>,
        depth: usize,
    ) -> A::Value
        ensures answer { A.Algebra.means result ≡ total_joined A.Algebra.model (setting self.entry.components self.entry.rows.now K.Kind.TOP) (begun K.Kind.levels so_far) depth (map K.Kind.levels needs.now) }
    {
        let [first, rest @ ..] = needs else {
            return A::zero();
        };
        if depth == 0 {
            return A::zero();
        }
        let joined = joined_to(so_far, *first);
        let with_others = self.total_from::<K, A>(rest, Some(joined), depth - 1);
        let with_first = A::sub(self.weight::<K, A>(joined), with_others);
        A::add(self.total_from::<K, A>(rest, so_far, depth), with_first)
    }

    // The total to a depth: the sums of sizes 1, 2, 3 and on, with signs in turn.
    pub fn total<K: Kind, A: Algebra>(self, needs: &[K], depth: usize) -> A::Value
        ensures answer { A.Algebra.means result ≡ total_of A.Algebra.model (setting self.entry.components self.entry.rows.now K.Kind.TOP) depth (map K.Kind.levels needs.now) }
    {
        self.total_from::<K, A>(needs, None, depth)
    }
}
