// The remainders of the offsets of a mask by a cycle. Assumes nothing.

ghost use Rattle.std.specs.Prelude.{◌≡◌};
ghost use Rattle.line_served.specs.Residues.{Folds};

use model::CYCLE_MOST;
use num_divisor::Cycle;

// `found` has the remainders by the cycle of the offsets of the mask.
#[derive(Clone, Copy)]
pub struct Residues {
    pub mask: u32,
    pub cycle: Cycle,
    pub found: u32,
    ghost folds: { Folds mask cycle.slots found },
}

impl Residues {
    // By the longest cycle, which all offsets are below.
    pub fn of(mask: u32) -> Residues
        ensures { result.mask ≡ mask }
    {
        Residues {
            mask,
            cycle: Cycle { slots: CYCLE_MOST },
            found: mask,
        }
    }

    // The same mask's, by g.
    pub fn modulo(self, g: Cycle) -> Residues
        ensures mask { result.mask ≡ self.mask }
        ensures cycle { result.cycle.slots ≡ g.slots }
    {
        if self.cycle.slots == g.slots {
            return self;
        }
        let mut found = 0u32;
        for a in num_mask::offsets(self.mask) {
            found = num_mask::with(found, (a as usize % g.slots) as u32);
        }
        Residues {
            mask: self.mask,
            cycle: g,
            found,
        }
    }
}
