// Depths: how many needs a choice may have at most.
ghost use Rattle.std.specs.Prelude.{◌≡◌, ◌<◌, ◌≤◌, ◌⊎◌, MatchResult, Some, codes};

use std::error::Error;
use std::fmt;

// A depth from 1 to 12.
#[derive(Clone, Copy, Debug, PartialEq, Eq)]
pub struct Depth {
    of: u8,
    ghost least: { 1 ≤ of },
    ghost most: { of ≤ 12 },
}

// A number that is no depth.
#[derive(Clone, Copy, Debug, PartialEq, Eq)]
pub struct BadDepth;

impl Depth {
    // The greatest depth.
    pub const MOST: usize = 12;
}

impl TryFrom<u8> for Depth {
    type Error = BadDepth;

    ghost try_from_gives = { λ n r. MatchResult r (λ d. (d.of ≡ n) × (1 ≤ n) × (n ≤ 12)) (λ _. (n < 1) ⊎ (12 < n)) };

    fn try_from(depth: u8) -> Result<Depth, BadDepth> {
        if (1..=Depth::MOST).contains(&usize::from(depth)) {
            Ok(Depth { of: depth })
        } else {
            Err(BadDepth)
        }
    }
}

impl From<Depth> for u8 {
    ghost from_gives = { λ d n. n ≡ d.of };

    fn from(depth: Depth) -> u8 {
        depth.of
    }
}

impl From<Depth> for usize {
    ghost from_gives = { λ d n. n ≡ d.of };

    fn from(depth: Depth) -> usize {
        usize::from(depth.of)
    }
}

impl fmt::Display for BadDepth {
    ghost output = { λ _. Some (codes "a depth goes from 1 to 12") };

    fn fmt<W: fmt::Write>(&self, f: &mut fmt::Formatter<W>) -> fmt::Result {
        f.write_str("a depth goes from 1 to 12")
    }
}

impl Error for BadDepth {}
