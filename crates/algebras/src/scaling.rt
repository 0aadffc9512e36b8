// Algebras over numbers modulo 2^64 whose steps multiply, told apart by what they start from and by a step's factor.
ghost use Rattle.std.specs.Prelude.{◌≡◌, ℕ};
ghost use Rattle.weights.specs.Chances.{chance};
ghost use Rattle.algebras.specs.Meanings.{meaning};
ghost use Rattle.algebras.specs.Models.{scaling_model};

use crate::{Algebra, Residue};
use weights::Rows;

pub trait Scaling {
    // what to start from, by the number of components
    ghost initial: { ℕ → ℕ };

    // the factor of a step
    ghost factor: { (chance : ℕ → ℕ → ℕ) → (top component level : ℕ) → ℕ };

    fn initial(components: usize) -> u64
        ensures answer { result ≡ initial components };

    fn factor(rows: &Rows, top: u8, component: usize, level: u8) -> u64
        ensures answer { result ≡ factor (chance rows.now) top component level };
}

impl<S: Scaling> Algebra for S {
    type Value = Residue;

    ghost model = { scaling_model S.initial S.factor };

    ghost means = { meaning };

    fn zero() -> Residue {
        Residue::from(0)
    }

    fn add(a: Residue, b: Residue) -> Residue {
        a + b
    }

    fn sub(a: Residue, b: Residue) -> Residue {
        a - b
    }

    fn start(components: usize) -> Residue {
        Residue::from(S::initial(components))
    }

    fn step(value: Residue, rows: &Rows, top: u8, component: usize, level: u8) -> Residue {
        value * S::factor(rows, top, component, level)
    }
}
