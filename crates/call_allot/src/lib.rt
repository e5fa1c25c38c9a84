// The slots of a request that was read without a fault, written as its assignment: an area that is too short is told first, then what the
// search comes to. Assumes nothing.
#![tactic(auto)]

ghost use Rattle.call_allot.specs.Allot.{Loaded, Allots};

use model::{Answer, CIRCUITS_MOST};
use plan::Plan;
use slot_search::{Outcome, Spent};

pub fn allot(p: &Plan, budget: u32, assignment: &mut [u8]) -> Answer
    requires { Loaded p.now }
    ensures { Allots p.now budget assignment.old result assignment.new }
{
    let needed = slot_allot::assignment_size(p);
    let bytes = needed as u32;
    if assignment.len() < needed {
        return Answer::Short { bytes };
    }
    let mut masks = [0u32; CIRCUITS_MOST];
    match slot_allot::search_slots(p, budget, &mut masks) {
        Ok(Outcome::Found(visits)) => {
            slot_writer::write_assignment(&masks[..p.len()], assignment);
            Answer::Allocated { visits, bytes }
        }
        Ok(Outcome::NoRoom(visits)) => Answer::NoRoom { visits },
        Err(Spent) => Answer::Unfinished { visits: budget },
    }
}
