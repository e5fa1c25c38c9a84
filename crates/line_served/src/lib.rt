// The series of all offsets of a circuit at one hop, held against the lines of its inport in one walk. Assumes nothing.
#![tactic(auto)]

ghost use Rattle.std.specs.Prelude.{◌≡◌, true};
ghost use Rattle.plan.specs.Ports.{SendFits};
ghost use Rattle.line_served.specs.Serving.{AllServed};

use line_chains::Table;
use model::Send;
use num_cyclic::difference;
use num_divisor::Cycle;
use plan::port_of;

mod residues;

use residues::Residues;

// Whether the series of all offsets of a circuit are served where this send takes them on, told in one walk over the lines: a line
// whose period is the cycle meets the series of one offset, and any other line must meet none. Where it does not say yes,
// `Series::judge` tells what is wrong, if anything is.
pub fn all_served(table: &Table, cycle: Cycle, offsets: u32, send: Send) -> bool
    requires { SendFits send }
    ensures { result ≡ true → AllServed table.now.bytes.now table.now.lines cycle.slots send offsets }
{
    let after = usize::from(send.after);
    let mut residues = Residues::of(offsets);
    let mut met = 0u32;
    for m in table.at(port_of(send.router, send.inp)) {
        let line = table.line(m);
        let period = usize::from(line.period);
        let slot = usize::from(line.slot);
        if period != cycle.slots {
            residues = residues.modulo(cycle.common(Cycle { slots: period }));
            let r = difference(residues.cycle, slot, after) as u32;
            if num_mask::has(residues.found, r) {
                return false;
            }
            continue;
        }
        let a = difference(cycle, slot, after) as u32;
        if !num_mask::has(offsets, a) {
            continue;
        }
        if num_mask::has(met, a) {
            return false;
        }
        if line.out != send.out {
            return false;
        }
        met = num_mask::with(met, a);
    }
    met == offsets
}
