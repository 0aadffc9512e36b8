// Algebras: what a total is worked out in.
#![tactic(auto)]

ghost use Rattle.std.specs.Prelude.{◌≡◌};
ghost use Rattle.weights.specs.Chances.{chance};
ghost use Rattle.algebras.specs.Model.{Model};

use weights::Rows;

mod count;
mod fixed;
mod polynomial;
mod residue;
mod scaling;

pub use count::Count;
pub use fixed::Fixed;
pub use polynomial::{Coefficients, Polynomial};
pub use residue::Residue;
pub use scaling::Scaling;

// An algebra by its model, which keeps the four laws; each operation answers by what its operands mean.
pub trait Algebra {
    type Value: Copy;

    ghost model: { Model };

    // what a machine value stands for
    ghost means: { Self.Value → model.Carrier };

    fn zero() -> Self::Value
        ensures answer { means result ≡ model.zero };

    fn add(a: Self::Value, b: Self::Value) -> Self::Value
        ensures answer { means result ≡ model.plus (means a) (means b) };

    fn sub(a: Self::Value, b: Self::Value) -> Self::Value
        ensures answer { means result ≡ model.minus (means a) (means b) };

    fn start(components: usize) -> Self::Value
        ensures answer { means result ≡ model.start components };

    fn step(value: Self::Value, rows: &Rows, top: u8, component: usize, level: u8) -> Self::Value
        ensures answer { means result ≡ model.step (chance rows.now) top component level (means value) };
}
