// Cycles, and the common divisor of two, by Euclid's rule. Assumes nothing.
#![tactic(auto)]

ghost use Rattle.num_divisor.specs.Common.{IsCycle, Common};

// So many slots, until what is booked comes round: a circuit's cycle, a line's period, or the common divisor of two.
#[derive(Clone, Copy)]
pub struct Cycle {
    pub slots: usize,
    ghost fits: { IsCycle slots },
}

impl Cycle {
    // The common divisor.
    pub fn common(self, other: Cycle) -> Cycle
        ensures { Common self.slots other.slots result.slots }
    {
        let mut x = self.slots;
        let mut y = other.slots;
        while y != 0 {
            let r = x % y;
            x = y;
            y = r;
        }
        Cycle { slots: x }
    }
}
