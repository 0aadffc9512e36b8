// The weights of one component: whether they fall, and what of them a top level keeps.
ghost use Rattle.std.specs.Prelude.{◌≡◌, Decides};
ghost use Rattle.weights.specs.Chances.{Falling, trimmed as trimmed_of};

use crate::{CERTAIN, Row};
use std::array;

// Whether the weights up to the top level never rise with the level and never pass certainty.
pub fn falls(row: &Row, top: u8) -> bool
    ensures answer { Decides result (Falling top row.now) }
{
    // What is above the top counts as 0 here, to which every weight may fall.
    let held = trimmed(*row, top);
    held[0] <= CERTAIN && held.is_sorted_by(|above, weight| above >= weight)
}

// The row with its weights above the top level noted as 0.
pub fn trimmed(row: Row, top: u8) -> Row
    ensures answer { result ≡ trimmed_of top row }
{
    array::from_fn(|place| {
        if place < usize::from(top) {
            row[place]
        } else {
            0
        }
    })
}
