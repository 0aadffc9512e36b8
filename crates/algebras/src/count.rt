// The algebra that counts states: a component counts by how many levels it may have.
ghost use Rattle.std.specs.Prelude.{◌+◌, ◌-◌};

use crate::Scaling;
use weights::Rows;

pub struct Count;

impl Scaling for Count {
    ghost initial = { λ components. 1 };

    ghost factor = { λ chance top component level. top + 1 - level };

    fn initial(_components: usize) -> u64 {
        1
    }

    // The levels from `level` up to `top`: none where `level` is above it.
    fn factor(_rows: &Rows, top: u8, _component: usize, level: u8) -> u64 {
        (u64::from(top) + 1).saturating_sub(u64::from(level))
    }
}
