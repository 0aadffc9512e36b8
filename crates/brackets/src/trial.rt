// A try: the ends of a bracket with another row for one component, which has its own row back however the try ends.
ghost use Rattle.std.specs.Prelude.{◌≡◌, ◌<◌, ◌≤◌, ◌⊎◌, map, MatchResult, slice_set};
ghost use Rattle.totals.specs.Choices.{setting};
ghost use Rattle.brackets.specs.Brackets.{ends as ends_of};

use crate::bracket::bracket_ends;
use crate::depth::{BadDepth, Depth};
use crate::ends::Ends;
use needs::Kind;
use totals::Chances;
use weights::{Row, Rows, row_at, write_row};

// Rows of which one is not its own, and the old row that a drop writes back.
struct Trial<'a> {
    rows: &'a mut Rows,
    component: usize,
    old: Row,
}

impl Drop for Trial<'_> {
    fn drop(self)
        ensures after { self.exit.0.now ≡ slice_set self.entry.rows.now self.entry.component self.entry.old }
    {
        let Trial {
            rows,
            component,
            old,
        } = self;
        write_row(rows, component, old);
    }
}

// The ends of the bracket with the row of a component replaced for the call; refused where the depth is bad.
pub fn tried_ends<K: Kind>(
    needs: &[K],
    components: usize,
    rows: &mut Rows,
    component: usize,
    row: Row,
    depth: u8,
) -> Result<Ends, BadDepth>
    ensures answer { MatchResult result (λ e. (e ≡ ends_of (setting components (slice_set rows.old component row) K.Kind.TOP) (map K.Kind.levels needs.now) depth) × (1 ≤ depth) × (depth ≤ 12)) (λ _. (depth < 1) ⊎ (12 < depth)) }
    ensures after { rows.new ≡ rows.old }
{
    let old = row_at(rows, component);
    write_row(rows, component, row);
    let trial = Trial {
        rows,
        component,
        old,
    };
    let depth = Depth::try_from(depth)?;
    let chances = Chances {
        components,
        rows: trial.rows,
    };
    Ok(bracket_ends(needs, chances, depth))
}
