// The algebra of polynomials in p: a component at a level counts as p to that level.
ghost use Rattle.std.specs.Prelude.{◌≡◌};
ghost use Rattle.algebras.specs.Meanings.{coefficients};
ghost use Rattle.algebras.specs.Models.{polynomial_model};
ghost use Rattle.algebras.specs.Residues.{signed};

use crate::{Algebra, Residue};
use std::array;
use weights::{COMPONENTS, LEVELS, Rows};

// How many powers are kept: from p^0 to every component at the greatest level, p^24.
const POWERS: usize = COMPONENTS * LEVELS + 1;

// A coefficient for each power that is kept, from p^0 up.
#[derive(Clone, Copy, Debug, PartialEq, Eq)]
pub struct Coefficients {
    of: [Residue; POWERS],
}

impl Coefficients {
    // The signed reading of the coefficient of a power, 0 for one that is not kept.
    pub fn signed(&self, power: usize) -> i64
        ensures answer { result ≡ signed (coefficients self.now power) }
    {
        self.of
            .get(power)
            .map_or(0, |coefficient| coefficient.signed())
    }
}

pub struct Polynomial;

impl Algebra for Polynomial {
    type Value = Coefficients;

    ghost model = { polynomial_model };

    ghost means = { coefficients };

    fn zero() -> Coefficients {
        Coefficients {
            of: [Residue::from(0); POWERS],
        }
    }

    fn add(a: Coefficients, b: Coefficients) -> Coefficients {
        Coefficients {
            of: array::from_fn(|power| a.of[power] + b.of[power]),
        }
    }

    fn sub(a: Coefficients, b: Coefficients) -> Coefficients {
        Coefficients {
            of: array::from_fn(|power| a.of[power] - b.of[power]),
        }
    }

    fn start(_components: usize) -> Coefficients {
        let mut of = [Residue::from(0); POWERS];
        of[0] = Residue::from(1);
        Coefficients { of }
    }

    // Moves each coefficient up by `level` places; those that pass the last place are dropped.
    fn step(
        value: Coefficients,
        _rows: &Rows,
        _top: u8,
        _component: usize,
        level: u8,
    ) -> Coefficients {
        let kept = POWERS.saturating_sub(usize::from(level));
        let mut of = [Residue::from(0); POWERS];
        of[POWERS - kept..].copy_from_slice(&value.of[..kept]);
        Coefficients { of }
    }
}
