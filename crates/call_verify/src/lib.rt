// What speaks against an assignment and a table that were read without a fault: a clash, and then a series that is not served. What a test
// found is handed on as it is. Assumes nothing.
#![tactic(auto)]

ghost use Rattle.line_chains.specs.Chains.{Tabled};
ghost use Rattle.call_verify.specs.Verify.{FaultIs};

use clash_first::first_clash;
use line_chains::{Chains, Table};
use plan::Bookings;
use plan_refusal::Tested;

pub fn verify(b: &Bookings, bytes: &[u8], lines: usize) -> Tested
    requires { Tabled bytes.now lines }
    ensures { FaultIs b.now.plan.now b.now.masks.now bytes.now lines result }
{
    first_clash(b)?;
    let mut chains = Chains::default();
    chains.link(bytes, lines);
    let table = Table {
        bytes,
        lines,
        chains: &chains,
    };
    line_check::check(b, &table)
}
