// What the dispatch screen shows of a bracket.
ghost use Rattle.std.specs.Prelude.{◌≡◌, ◌^◌, ◌≤◌, false};
ghost use Rattle.std.specs.Float.Ieee.Exact.{HasValue};
ghost use Rattle.brackets.specs.Screens.{share};

use std::num::nearest_u64_to_f64;

// Certainty as a pair counts, 2^32: a division by it loses nothing.
const CERTAIN: f64 = 4294967296.0;

// A bracket as the dispatch screen has it: each number of its pair as a share of certainty.
#[derive(Clone, Copy, Debug, PartialEq)]
pub struct Screen {
    pub low: f64,
    pub high: f64,
}

// A number of a pair as a share of certainty. Past 2^53 a float may only come near the number.
fn share_of(number: u64) -> f64
    ensures answer { result ≡ share number }
    ensures exact { number ≤ 2 ^ 53 → HasValue result false number (2 ^ 32) }
{
    nearest_u64_to_f64(number) / CERTAIN
}

// The pair's numbers, each divided by 2^32; exact for numbers up to 2^53.
impl From<(u64, u64)> for Screen {
    ghost from_gives = { λ pair s. (s.low ≡ share pair.0) × (s.high ≡ share pair.1) × (pair.0 ≤ 2 ^ 53 → HasValue s.low false pair.0 (2 ^ 32)) × (pair.1 ≤ 2 ^ 53 → HasValue s.high false pair.1 (2 ^ 32)) };

    fn from(pair: (u64, u64)) -> Screen {
        let (low, high) = pair;
        Screen {
            low: share_of(low),
            high: share_of(high),
        }
    }
}
