// Refusals: why a call or a file was turned down.
ghost use Rattle.std.specs.Prelude.{◌≡◌};
ghost use Rattle.sheets.specs.Refusals.{number as number_of};
ghost use Rattle.sheets.specs.declared.refusal.Refusal.TheVariants.{BadDepth as bad_depth, BadThreshold as bad_threshold};

use brackets::{BadDepth, BadThreshold};

#[derive(Clone, Copy, Debug, PartialEq, Eq)]
pub enum Refusal {
    UnknownComponent,
    RisingWeights,
    BadReading,
    EmptyNeed,
    // with the lowest place whose need covers the new one or is covered by it
    Comparable(usize),
    Full,
    NotHeld,
    BadDepth,
    BadThreshold,
    BadSize,
    NeedsHeld,
    WrongMark,
    Truncated,
    TrailingBytes,
}

impl Refusal {
    // The number that the refusal is told by.
    pub fn number(self) -> u8
        ensures answer { result ≡ number_of self }
    {
        match self {
            Refusal::UnknownComponent => 1,
            Refusal::RisingWeights => 2,
            Refusal::BadReading => 3,
            Refusal::EmptyNeed => 4,
            Refusal::Comparable(_) => 5,
            Refusal::Full => 6,
            Refusal::NotHeld => 7,
            Refusal::BadDepth => 8,
            Refusal::BadThreshold => 9,
            Refusal::BadSize => 10,
            Refusal::NeedsHeld => 11,
            Refusal::WrongMark => 12,
            Refusal::Truncated => 13,
            Refusal::TrailingBytes => 14,
        }
    }
}

impl From<BadDepth> for Refusal {
    ghost from_gives = { λ _ refusal. refusal ≡ bad_depth };

    fn from(_: BadDepth) -> Refusal {
        Self::BadDepth
    }
}

impl From<BadThreshold> for Refusal {
    ghost from_gives = { λ _ refusal. refusal ≡ bad_threshold };

    fn from(_: BadThreshold) -> Refusal {
        Self::BadThreshold
    }
}
