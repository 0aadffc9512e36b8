// The weight card: for each component, the chance in 64ths that it reaches a level.
#![tactic(auto)]

ghost use Rattle.std.specs.Prelude.{◌≡◌};
ghost use Rattle.weights.specs.Chances.{chance as chance_of};

mod card;
mod row;

pub use card::{Card, row_at, write_row};
pub use row::{falls, trimmed};

// How many components a card has a row for.
pub const COMPONENTS: usize = 8;

// The greatest top level of any kind.
pub const LEVELS: usize = 3;

// The weight of certainty, in 64ths.
pub const CERTAIN: u16 = 64;

// The weights of one component, from level 1 up.
pub type Row = [u16; LEVELS];

// A row for each component.
pub type Rows = [Row; COMPONENTS];

// The weight of a component at a level: certainty at level 0, and 0 where the card has none.
pub fn chance(rows: &Rows, component: usize, level: u8) -> u16
    ensures answer { result ≡ chance_of rows.now component level }
{
    if level == 0 {
        return CERTAIN;
    }
    rows.get(component)
        .and_then(|row| row.get(usize::from(level) - 1))
        .copied()
        .unwrap_or(0)
}
