// The components of a sheet, and the weight of a need by them.
ghost use Rattle.std.specs.Prelude.{◌≡◌};
ghost use Rattle.totals.specs.Choices.{weight as weight_from, setting};

use algebras::Algebra;
use needs::Kind;
use weights::Rows;

// The components of a sheet: how many there are, and the rows of their weights.
#[derive(Clone, Copy, Debug, PartialEq, Eq)]
pub struct Chances<'a> {
    pub components: usize,
    pub rows: &'a Rows,
}

impl Chances<'_> {
    // The weight of a need: the start, taken through the step of each component.
    pub fn weight<K: Kind, A: Algebra>(self, need: K) -> A::Value
        ensures answer { A.Algebra.means result ≡ weight_from A.Algebra.model (setting self.entry.components self.entry.rows.now K.Kind.TOP) (K.Kind.levels need) }
    {
        (0..self.components).fold(A::start(self.components), |value, i| {
            A::step(value, self.rows, K::TOP, i, need.level(i))
        })
    }
}
