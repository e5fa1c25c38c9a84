// What stands in the places of a plan that are not in use. Assumes nothing.

ghost use Rattle.std.specs.Prelude.{◌≡◌};
ghost use Rattle.plan.specs.Blank.{blank_circuit};

use crate::Circuit;
use num_divisor::Cycle;
use plan_list::{Blank, List};

impl Blank for Circuit {
    ghost blank = { blank_circuit };

    // A circuit that asks for nothing.
    fn blank() -> Circuit {
        Circuit {
            cycle: Cycle { slots: 1 },
            demand: 0,
            uses: List::new(),
            sends: List::new(),
        }
    }
}
