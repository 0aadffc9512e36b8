// Thresholds: the reliability asked for, in units of 2^-15 of certainty.
ghost use Rattle.std.specs.Prelude.{◌≡◌, ◌<◌, ◌≤◌, MatchResult, Some, codes};

use std::error::Error;
use std::fmt;

// A threshold from 0 to 32768, which is certainty.
#[derive(Clone, Copy, Debug, PartialEq, Eq)]
pub struct Threshold {
    of: u16,
    ghost most: { of ≤ 32768 },
}

// A number that is no threshold.
#[derive(Clone, Copy, Debug, PartialEq, Eq)]
pub struct BadThreshold;

impl Threshold {
    // The greatest threshold: certainty, 2^15 of its units.
    pub const MOST: u16 = 32768;
}

impl TryFrom<u16> for Threshold {
    type Error = BadThreshold;

    ghost try_from_gives = { λ n r. MatchResult r (λ t. (t.of ≡ n) × (n ≤ 32768)) (λ _. 32768 < n) };

    fn try_from(threshold: u16) -> Result<Threshold, BadThreshold> {
        if threshold <= Threshold::MOST {
            Ok(Threshold { of: threshold })
        } else {
            Err(BadThreshold)
        }
    }
}

impl From<Threshold> for u16 {
    ghost from_gives = { λ t n. n ≡ t.of };

    fn from(threshold: Threshold) -> u16 {
        threshold.of
    }
}

impl fmt::Display for BadThreshold {
    ghost output = { λ _. Some (codes "a threshold goes up to 32768") };

    fn fmt<W: fmt::Write>(&self, f: &mut fmt::Formatter<W>) -> fmt::Result {
        f.write_str("a threshold goes up to 32768")
    }
}

impl Error for BadThreshold {}
