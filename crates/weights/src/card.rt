// The weight card: a row of weights for each component.
ghost use Rattle.std.specs.Prelude.{◌≡◌, replicate, slice_index_or, slice_set};

use crate::{COMPONENTS, LEVELS, Row, Rows};

#[derive(Clone, Copy, Debug, PartialEq, Eq)]
pub struct Card {
    pub rows: Rows,
}

impl Card {
    // A card with no chance above level 0.
    pub fn blank() -> Card
        ensures answer { result.rows ≡ replicate 8 (replicate 3 0) }
    {
        Card {
            rows: [[0; LEVELS]; COMPONENTS],
        }
    }

    pub fn rows(&self) -> &Rows
        ensures answer { result.now ≡ self.now.rows }
    {
        &self.rows
    }

    // Writes the row of a component whole, if the card has one; every other row stays.
    pub fn write(&mut self, component: usize, row: Row)
        ensures after { self.new.rows ≡ slice_set self.old.rows component row }
    {
        write_row(&mut self.rows, component, row);
    }
}

// The row of a component, a blank one where there is none.
pub fn row_at(rows: &Rows, component: usize) -> Row
    ensures answer { result ≡ slice_index_or rows.now component (replicate 3 0) }
{
    rows.get(component).copied().unwrap_or([0; LEVELS])
}

// Writes the row of a component whole, if there is one; every other row stays.
pub fn write_row(rows: &mut Rows, component: usize, row: Row)
    ensures after { rows.new ≡ slice_set rows.old component row }
{
    if component < rows.len() {
        let held = &mut rows[component];
        *held = row;
    }
}
