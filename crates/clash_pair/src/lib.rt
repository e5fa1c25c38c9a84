// Two circuits: when they clash, by differences of offsets modulo the common divisor. Assumes nothing.
#![tactic(auto)]

ghost use Rattle.std.specs.Prelude.{◌≡◌};
ghost use Rattle.model.specs.Holding.{clashes?};
ghost use Rattle.plan.specs.Bookings.{claim_of};
ghost use Rattle.clash_pair.specs.Differences.{MarksUse, Bad, one_hits, hits_any};

use model::Use;
use num_divisor::Cycle;
use plan::{Booking, Circuit};

// ---- Differences of offsets.

// Marks the differences at which use u of a circuit meets one of circuit e.
fn mark_use(u: Use, e: &Circuit, g: Cycle, from: u32) -> u32
    ensures { MarksUse u e.now.uses.items g.slots from result }
{
    let mut acc = from;
    for v in e.uses.iter() {
        if v.what != u.what {
            continue;
        }
        let d = num_cyclic::difference(g, usize::from(v.after), usize::from(u.after));
        acc = num_mask::with(acc, d as u32);
    }
    acc
}

// The differences at which a use of circuit c meets one of circuit e.
pub fn bad_differences(c: &Circuit, e: &Circuit, g: Cycle) -> u32
    ensures { Bad g.slots c.now.uses.items e.now.uses.items result }
{
    let mut acc = 0u32;
    for u in c.uses.iter() {
        acc = mark_use(*u, e, g, acc);
    }
    acc
}

// ---- Offsets by the differences that clash.

// Whether offset a clashes with one of the offsets m.
fn one_hits(bad: u32, g: Cycle, a: usize, m: u32) -> bool
    ensures { result ≡ one_hits bad g.slots a m }
{
    num_mask::offsets(m).any(|b| {
        let d = num_cyclic::difference(g, a, b as usize);
        num_mask::has(bad, d as u32)
    })
}

// Whether one of the offsets l clashes with one of the offsets m.
fn hits(bad: u32, g: Cycle, l: u32, m: u32) -> bool
    ensures { result ≡ hits_any bad g.slots l m }
{
    num_mask::offsets(l).any(|a| one_hits(bad, g, a as usize, m))
}

// ---- Two circuits.

// Whether two circuits clash with the offsets that they have taken.
pub fn pair_clashes(a: &Booking, b: &Booking) -> bool
    ensures { result ≡ clashes? (claim_of a.now) (claim_of b.now) }
{
    let g = a.circuit.cycle.common(b.circuit.cycle);
    let bad = bad_differences(a.circuit, b.circuit, g);
    if bad == 0 {
        return false;
    }
    hits(bad, g, a.offsets, b.offsets)
}
