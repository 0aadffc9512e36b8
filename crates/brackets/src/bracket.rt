// The ends of a bracket, and what is made of them.
ghost use Rattle.std.specs.Prelude.{◌≡◌, ℕ, map, length, ℤ};
ghost use Rattle.totals.specs.Choices.{setting};
ghost use Rattle.brackets.specs.Brackets.{ends as ends_of, pair as pair_of, verdict as verdict_of};
ghost use Rattle.brackets.specs.Readings.{ReadsAs, best_so_far};

use crate::depth::Depth;
use crate::ends::Ends;
use crate::threshold::Threshold;
use crate::verdict::Verdict;
use algebras::{Algebra, Fixed, Residue};
use needs::Kind;
use totals::Chances;

// A unit of a pair, 2^-32 of certainty, as the ends count: in units of 2^-48.
const PAIR_UNIT: u64 = 1 << 16;

// A unit of a threshold, 2^-15 of certainty, as the ends count.
const THRESHOLD_UNIT: i64 = 1 << 33;

impl Ends {
    // Certainty, as a fixed total has it.
    pub const CERTAIN: i64 = 1 << 48;

    // The ends in units of 2^-32 of certainty, the low one rounded down and the high one up.
    pub fn pair(self) -> (u64, u64)
        ensures answer { result ≡ pair_of self }
    {
        let low = self.low.max(0).unsigned_abs() / PAIR_UNIT;
        let high = self.high.max(0).unsigned_abs().div_ceil(PAIR_UNIT);
        (low, high)
    }

    // Sound where even the low end reaches the threshold, attention where not even the high one does.
    pub fn verdict(self, threshold: Threshold) -> Verdict
        ensures answer { result ≡ verdict_of self threshold.of }
    {
        let bound = i64::from(u16::from(threshold)) * THRESHOLD_UNIT;
        if self.low >= bound {
            Verdict::Sound
        } else if self.high < bound {
            Verdict::Attention
        } else {
            Verdict::Undecided
        }
    }
}

// The best bounds among the totals of all depths up to the last one, at place k that of depth k + 1.
// A total of an odd depth, so at an even place, is a bound from above, and one of an even depth a bound from below.
fn best_ends(totals: &[Residue]) -> Ends
    ensures answer { (t : ℕ → ℤ) → ReadsAs totals.now t → result ≡ best_so_far t (length totals.now) }
{
    let mut best = Ends {
        low: 0,
        high: Ends::CERTAIN,
    };
    for (i, total) in totals.iter().enumerate() {
        if i % 2 == 0 {
            best.high = best.high.min(total.signed());
        } else {
            best.low = best.low.max(total.signed());
        }
    }
    best
}

// The ends of the bracket at a depth: at full depth the total itself, else the best bounds so far.
pub fn bracket_ends<K: Kind>(needs: &[K], chances: Chances<'_>, depth: Depth) -> Ends
    ensures answer { result ≡ ends_of (setting chances.entry.components chances.entry.rows.now K.Kind.TOP) (map K.Kind.levels needs.now) depth.of }
{
    let depth = usize::from(depth);
    if depth >= needs.len() {
        let total = chances.total::<K, Fixed>(needs, depth).signed();
        return Ends {
            low: total,
            high: total,
        };
    }
    let mut totals = [Fixed::zero(); Depth::MOST];
    let front = &mut totals[..depth];
    chances.fill_totals::<K, Fixed>(needs, front);
    best_ends(front)
}
