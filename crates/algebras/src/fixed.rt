// The algebra of fixed weights: a component counts by its chance, in 64ths.
ghost use Rattle.std.specs.Prelude.{◌-◌, ◌*◌, ◌^◌};

use crate::Scaling;
use weights::{COMPONENTS, Rows, chance};

pub struct Fixed;

impl Scaling for Fixed {
    ghost initial = { λ components. 2 ^ (6 * (8 - components)) };

    ghost factor = { λ chance top component level. chance component level };

    // A component that takes no step counts as certain, 64 = 2^6: so 2^48 is certainty for any number of components up to 8.
    fn initial(components: usize) -> u64 {
        1 << (6 * COMPONENTS.saturating_sub(components))
    }

    fn factor(rows: &Rows, _top: u8, component: usize, level: u8) -> u64 {
        chance(rows, component, level).into()
    }
}
