// Slots for the circuits of a plan, and how long their assignment will be. Assumes nothing.
#![tactic(auto)]

ghost use Rattle.std.specs.Prelude.{[]};
ghost use Rattle.model.specs.Search.{search, reply};
ghost use Rattle.plan.specs.Plan.{circuits_in};
ghost use Rattle.slot_grid.specs.Table.{clash_in};
ghost use Rattle.slot_search.specs.Code.{circuits, Replies};
ghost use Rattle.slot_allot.specs.Slots.{SizeFor, SlotsFor};

use model::{CIRCUITS_MOST, CYCLE_MOST, HEAD_SIZE};
use plan::{Masks, Plan};
use slot_search::{Outcome, Search, Spent};

// How many bytes the assignment of a plan will have.
pub fn assignment_size(p: &Plan) -> usize
    ensures { SizeFor p.now result }
{
    let circuits: usize = p.iter().map(|c| HEAD_SIZE + c.demand).sum();
    circuits + HEAD_SIZE
}

// The whole search, with at most `budget` visits, and how many it made: where it has found offsets they are in the masks.
fn allot(problem: &Search, taken: &mut Masks, budget: u32) -> Result<Outcome, Spent>
    ensures { Replies (reply budget (search (clash_in problem.now.grid.now) (circuits problem.now.plan.now) [])) (circuits_in problem.now.plan.now) taken.new result }
{
    match problem.enter(taken, 0, budget)? {
        Outcome::Found(left) => Ok(Outcome::Found(budget - left)),
        Outcome::NoRoom(left) => Ok(Outcome::NoRoom(budget - left)),
    }
}

// Looks for slots for the circuits of a plan: where it finds them the offsets are in the masks.
pub fn search_slots(p: &Plan, budget: u32, masks: &mut Masks) -> Result<Outcome, Spent>
    ensures { SlotsFor p.now budget masks.new result }
{
    let mut grid = [[[0u32; CYCLE_MOST]; CIRCUITS_MOST]; CIRCUITS_MOST];
    slot_grid::fill(p, &mut grid);
    let problem = Search {
        grid: &grid,
        plan: p,
    };
    allot(&problem, masks, budget)
}
