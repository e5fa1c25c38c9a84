// The search for slots: cells in order, take before skip, with a budget of visits. The offsets that
// a circuit has taken are the set bits of a mask. Assumes nothing.
#![tactic(auto)]

ghost use Rattle.std.specs.Prelude.{◌≡◌, ◌+◌, ◌<◌, ◌≤◌};
ghost use Rattle.std.specs.Result.{IfOk, OnErr};
ghost use Rattle.plan.specs.Plan.{circuits_in};
ghost use Rattle.slot_search.specs.Code.{Inside, CircuitEnds, CellEnds};

use plan::{Masks, Plan};
use slot_grid::Grid;

// The budget is spent.
#[derive(Clone, Copy, Debug, PartialEq, Eq)]
pub struct Spent;

// What a search comes to, with a number of visits.
#[derive(Clone, Copy, Debug, PartialEq, Eq)]
pub enum Outcome {
    Found(u32),
    NoRoom(u32),
}

// A cell of a circuit, which has taken the mask's offsets and whose offsets in `shut` are not free.
#[derive(Clone, Copy)]
struct Cell {
    circuit: usize,
    from: u32,
    mask: u32,
    shut: u32,
}

// What is left of a budget after so many visits.
fn spend(left: u32, visits: u32) -> Result<u32, Spent>
    ensures kept { IfOk result (λ rest. rest + visits ≡ left) }
    ensures spent { OnErr result (left < visits) }
{
    left.checked_sub(visits).ok_or(Spent)
}

// The plan whose circuits want slots, and the grid of its clashes.
#[derive(Clone, Copy)]
pub struct Search<'a> {
    pub grid: &'a Grid,
    pub plan: &'a Plan,
}

impl<'a> Search<'a> {
    // The walk from circuit c on, and what it leaves of the budget.
    #[cycle(enter_walk)]
    pub fn enter(&self, taken: &mut Masks, c: usize, left: u32) -> Result<Outcome, Spent>
        requires c_bound { c ≤ circuits_in self.now.plan.now }
        ensures { CircuitEnds self.now.grid.now self.now.plan.now c left taken.old taken.new result }
    {
        if c == self.plan.len() {
            return Ok(Outcome::Found(left));
        }
        let shut = slot_cells::blocked(self.grid, taken, c);
        let first = Cell {
            circuit: c,
            from: 0,
            mask: 0,
            shut,
        };
        self.walk(taken, first, left)
    }

    // The walk from a cell on. A turn passes the cells that can only be skipped; then a cell is taken where it is free,
    // and where that comes to nothing it is skipped.
    #[cycle(enter_walk)]
    fn walk(&self, taken: &mut Masks, at: Cell, budget: u32) -> Result<Outcome, Spent>
        requires inside { Inside self.now.plan.now at.circuit at.from at.mask }
        ensures { CellEnds self.now.grid.now self.now.plan.now at.circuit at.from at.mask at.shut budget taken.old taken.new result }
    {
        let Cell {
            circuit: c,
            mask,
            shut,
            ..
        } = at;
        let own = &self.plan[c];
        let cycle = own.cycle.slots as u32;
        let demand = own.demand as u32;
        let have = u32::count_ones(mask);
        let mut a = at.from;
        let mut left = budget;
        while a < cycle {
            let next = slot_cells::next_cell(shut, a, cycle, demand, have);
            left = spend(left, next - a)?;
            a = next;
            if a == cycle {
                continue;
            }
            if (shut >> a) % 2 == 0 {
                let behind = Cell {
                    from: a + 1,
                    mask: mask | (1u32 << a),
                    ..at
                };
                let rest = spend(left, 1)?;
                match self.walk(taken, behind, rest)? {
                    Outcome::NoRoom(rest) => left = rest,
                    found => return Ok(found),
                }
            }
            if cycle + have <= demand + a {
                return Ok(Outcome::NoRoom(left));
            }
            left = spend(left, 1)?;
            a += 1;
        }
        taken[c] = mask;
        self.enter(taken, c + 1, left)
    }
}
