// What a sheet holds, in the bay and on the road.
ghost use Rattle.std.specs.Prelude.{◌≡◌, ℕ, ◌≤◌, [], slice_index_or};
ghost use Rattle.weights.specs.Chances.{Falling};
ghost use Rattle.sheets.specs.Standings.{standing_of};
ghost use Rattle.sheets.specs.Settled.{Settled};

use crate::clutter::Clutter;
use needs::Kind;
use totals::Chances;
use weights::Card;

// `settled` stands between bars, since a type keeps a fact with at most one proof; `settled_whole` takes them off.
#[derive(Drop)]
pub(crate) struct Sheet<'a, K: Kind> {
    pub(crate) needs: Clutter<'a, K>,
    pub(crate) components: usize,
    pub(crate) card: Card,
    ghost least: { 1 ≤ components },
    ghost most: { components ≤ 8 },
    ghost falling: { (i : ℕ) → Falling 3 (slice_index_or card.rows i []) },
    ghost settled: { ∥ Settled K.levels K.TOP (standing_of needs.held needs.places.now components card.rows) ∥₁ },
}

impl<K: Kind> Sheet<'_, K> {
    // The components and their weights, as the reckoning takes them.
    pub(crate) fn chances(&self) -> Chances<'_>
        ensures components { result.components ≡ self.now.components }
        ensures rows { result.rows.now ≡ self.now.card.rows }
    {
        Chances {
            components: self.components,
            rows: self.card.rows(),
        }
    }
}
