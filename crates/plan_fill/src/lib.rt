// Puts the circuits of a request into a plan. Assumes nothing.
#![tactic(auto)]

ghost use Rattle.std.specs.Prelude.{◌≡◌};
ghost use Rattle.file_parts.specs.Records.{asked, recorded};
ghost use Rattle.plan.specs.Plan.{shown, Stands};
ghost use Rattle.plan_fill.specs.Loading.{planned_by};

use file_parts::{CircuitRecord, Request};
use model::{BUFFERS_MOST, LOCAL, Send, Use};
use plan::{Circuit, Plan};
use plan_list::List;

// A circuit by its record: its numbers, and then at each hop what it uses and what its router sends.
fn circuit(source: &CircuitRecord) -> Circuit
    ensures { shown result ≡ planned_by (asked source.now.request).network (recorded source.now) }
{
    let cycle = source.cycle();
    let demand = source.demand();
    let mut uses = List::new();
    let mut sends = List::new();
    let first = source.hop(0);
    let owner = source.request.owner(first);
    uses.push(Use {
        what: (BUFFERS_MOST + usize::from(owner)) as u16,
        after: 0,
    });
    let mut inp = LOCAL as u16;
    let mut late = 0u16;
    for j in 0..source.hops() {
        let buffer = source.hop(j);
        let router = source.request.owner(buffer);
        uses.push(Use {
            what: buffer,
            after: late,
        });
        sends.push(Send {
            router,
            inp,
            out: buffer,
            after: late,
        });
        inp = buffer;
        late += 1;
    }
    Circuit {
        cycle,
        demand,
        uses,
        sends,
    }
}

// Makes the plan of a request without a fault.
pub fn fill(request: &Request, plan: &mut Plan)
    ensures { Stands (asked request.now) plan.new }
{
    plan.clear();
    for c in 0..request.len() {
        plan.push(circuit(&request.circuit(c)));
    }
}
