// The public calls. Each does all its own checking, so none has a `requires`, and each contract gives
// one answer and one list of output bytes for every input. Assumes nothing.
#![tactic(auto)]

ghost use Rattle.std.specs.Prelude.{◌≡◌, []};
ghost use Rattle.model.specs.Tests.{or_else};
ghost use Rattle.model.specs.Jobs.{Contract, read, allot, check, make, verify, check_assignment, check_tables};
ghost use Rattle.model.specs.declared.Answer.TheVariants.{Done};
ghost use Rattle.plan_refusal.specs.Found.{found};

use model::{Answer, CIRCUITS_MOST, File};
use plan::{Bookings, Plan};
use plan_load::{damaged, load, load_both};
use plan_refusal::Tested;

// Reads a request.
pub fn read_request(request: &[u8]) -> Answer
    ensures { Contract (read request.now) result [] }
{
    match damaged(File::Request.into(), file_request::read(request)) {
        Ok(_) => Answer::Done,
        Err(refusal) => refusal,
    }
}

// Gives slots to the circuits of a request and writes them as its assignment, with at most `budget`
// visits of the search.
pub fn allocate(request: &[u8], budget: u32, assignment: &mut [u8]) -> Answer
    ensures { Contract (allot request.now budget assignment.old) result assignment.new }
{
    let mut plan = Plan::new();
    if let Err(refusal) = load(request, &mut plan) {
        return refusal;
    }
    call_allot::allot(&plan, budget, assignment)
}

// What speaks against a request and its assignment.
fn assignment_tested(request: &[u8], assignment: &[u8]) -> Tested
    ensures { or_else (found result) Done ≡ check_assignment request.now assignment.now }
{
    let mut plan = Plan::new();
    let mut masks = [0u32; CIRCUITS_MOST];
    load_both(request, assignment, &mut plan, &mut masks)?;
    clash_first::first_clash(&Bookings {
        plan: &plan,
        masks: &masks,
    })
}

// Checks an assignment of a request.
pub fn check_assignment(request: &[u8], assignment: &[u8]) -> Answer
    ensures { Contract (check request.now assignment.now) result [] }
{
    plan_refusal::answer(assignment_tested(request, assignment))
}

// Makes the table of an assignment, and writes it to the front of the area.
pub fn make_tables(request: &[u8], assignment: &[u8], table: &mut [u8]) -> Answer
    ensures { Contract (make request.now assignment.now table.old) result table.new }
{
    let mut plan = Plan::new();
    let mut masks = [0u32; CIRCUITS_MOST];
    if let Err(refusal) = load_both(request, assignment, &mut plan, &mut masks) {
        return refusal;
    }
    let bookings = Bookings {
        plan: &plan,
        masks: &masks,
    };
    call_make::make(&bookings, table)
}

// What speaks against a request, its assignment and its table.
fn table_tested(request: &[u8], assignment: &[u8], table: &[u8]) -> Tested
    ensures { or_else (found result) Done ≡ check_tables request.now assignment.now table.now }
{
    let mut plan = Plan::new();
    let mut masks = [0u32; CIRCUITS_MOST];
    load_both(request, assignment, &mut plan, &mut masks)?;
    let lines = damaged(File::Table.into(), file_table::read(request, table))?;
    let bookings = Bookings {
        plan: &plan,
        masks: &masks,
    };
    call_verify::verify(&bookings, table, lines)
}

// Checks a table against the request and the assignment that it is for.
pub fn check_tables(request: &[u8], assignment: &[u8], table: &[u8]) -> Answer
    ensures { Contract (verify request.now assignment.now table.now) result [] }
{
    plan_refusal::answer(table_tested(request, assignment, table))
}
