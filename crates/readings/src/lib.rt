// Readings: the chances of one component as telemetry sends them, and the weights that they become.
#![tactic(auto)]

ghost use Rattle.std.specs.Prelude.{◌≡◌, ℕ, ◌≤◌, map, IfSome, MatchOption};
ghost use Rattle.weights.specs.Chances.{trimmed};
ghost use Rattle.readings.specs.Readings.{IsChance, AtMost, sixty_fourths, AreChances};

use weights::{CERTAIN, LEVELS, Row};

// The readings of one component, from level 1 up.
pub type Readings = [f64; LEVELS];

// The weight of a reading: the largest whole number not above 64 times it; none for a reading that is no chance.
pub fn weight_of(reading: f64) -> Option<u16>
    ensures answer { MatchOption result (IsChance reading → ⊥) (λ w. IsChance reading × (w ≡ sixty_fourths reading)) }
    ensures largest { IfSome result (λ w. AtMost w reading × ((v : ℕ) → AtMost v reading → v ≤ w)) }
{
    if !(0.0..=1.0).contains(&reading) {
        return None;
    }
    // Exact, since 64 is a power of two and the reading is at most 1.
    let scaled = reading * 64.0;
    // A cast would have to drop a fraction: weights are tried from certainty down instead.
    (0..CERTAIN + 1)
        .rev()
        .find(|weight| f64::from(*weight) <= scaled)
}

// The weights of the readings up to the top; readings above it are not read, and their weights are noted as 0.
pub fn row_of(readings: &Readings, top: u8) -> Option<Row>
    ensures answer { MatchOption result (AreChances top readings.now → ⊥) (λ row. AreChances top readings.now × (row ≡ trimmed top (map sixty_fourths readings.now))) }
{
    let mut row = [0; LEVELS];
    let read = row.len().min(usize::from(top));
    for (place, reading) in readings[..read].iter().enumerate() {
        row[place] = weight_of(*reading)?;
    }
    Some(row)
}
