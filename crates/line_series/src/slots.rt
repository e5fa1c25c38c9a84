// The slots of a series, and whether a line matches them. Assumes nothing.

ghost use Rattle.std.specs.Prelude.{◌≡◌, ◌+◌, ◌%◌, ◌<◌};
ghost use Rattle.num_divisor.specs.Common.{IsCycle};
ghost use Rattle.line_series.specs.Matching.{agrees, covers};

use model::Line;
use num_divisor::Cycle;

// The slots start, start + cycle, .. Of them all `early` is the remainder by the cycle.
#[derive(Clone, Copy)]
pub struct Slots {
    pub cycle: Cycle,
    pub start: usize,
    pub early: usize,
    ghost early_is: { early ≡ start % cycle.slots },
}

impl Slots {
    // Those that come so long after an offset.
    pub fn new(cycle: Cycle, offset: u32, after: u16) -> Slots
        ensures cycle { result.cycle.slots ≡ cycle.slots }
        ensures start { result.start ≡ offset + after }
    {
        let start = offset as usize + usize::from(after);
        Slots {
            cycle,
            start,
            early: start % cycle.slots,
        }
    }

    // Some slot matches the line.
    pub fn meet(self, line: Line) -> bool
        requires period { IsCycle line.period }
        requires slot { line.slot < line.period }
        ensures { result ≡ agrees self.cycle.slots self.start line }
    {
        let period = usize::from(line.period);
        let slot = usize::from(line.slot);
        if period == self.cycle.slots {
            return self.early == slot;
        }
        let g = self.cycle.common(Cycle { slots: period }).slots;
        self.start % g == slot % g
    }

    // Every slot matches the line.
    pub fn all_match(self, line: Line) -> bool
        requires { IsCycle line.period }
        ensures { result ≡ covers self.cycle.slots self.start line }
    {
        let period = usize::from(line.period);
        self.cycle.slots % period == 0 && self.start % period == usize::from(line.slot)
    }
}
