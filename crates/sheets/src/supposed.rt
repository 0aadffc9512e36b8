// What a try supposes of a component.
ghost use Rattle.std.specs.Prelude.{◌≡◌};
ghost use Rattle.sheets.specs.Tries.{weight_of};

use weights::CERTAIN;

#[derive(Clone, Copy, Debug, PartialEq, Eq)]
pub enum Supposed {
    Dead,
    Sure,
}

impl Supposed {
    // The weight of the component at every level above 0.
    pub(crate) fn weight(self) -> u16
        ensures answer { result ≡ weight_of self }
    {
        match self {
            Supposed::Dead => 0,
            Supposed::Sure => CERTAIN,
        }
    }
}
