// Two circuits: whether they clash, and what they hold in a slot. Assumes nothing.
#![tactic(auto)]

ghost use Rattle.std.specs.Prelude.{◌≡◌};
ghost use Rattle.model.specs.Holding.{holds?, both?, clashes?};
ghost use Rattle.plan.specs.Bookings.{claim_of};
ghost use Rattle.clash_sets.specs.Sets.{Collected};
ghost use Rattle.clash_held.specs.Held.{SlotsOf};

use clash_sets::Resources;
use num_divisor::Cycle;
use plan::Booking;

// Whether a circuit holds w in slot t.
fn holds(b: &Booking, t: usize, w: usize) -> bool
    ensures { result ≡ holds? (claim_of b.now) t w }
{
    b.circuit.uses.iter().any(|u| {
        if usize::from(u.what) != w {
            return false;
        }
        let ahead = num_cyclic::difference(b.circuit.cycle, t, usize::from(u.after));
        num_mask::has(b.offsets, ahead as u32)
    })
}

// Whether two circuits both hold w in slot t.
pub fn both_hold(a: &Booking, b: &Booking, t: usize, w: usize) -> bool
    ensures { result ≡ both? (claim_of a.now) (claim_of b.now) t w }
{
    holds(a, t, w) && holds(b, t, w)
}

// Whether two circuits clash: never where the resources that they use are apart.
pub fn clashes_by_sets(x: &Resources, y: &Resources, a: &Booking, b: &Booking) -> bool
    requires left { Collected a.now.circuit.now.uses.items x.now.words }
    requires right { Collected b.now.circuit.now.uses.items y.now.words }
    ensures { result ≡ clashes? (claim_of a.now) (claim_of b.now) }
{
    !x.is_apart(y) && clash_pair::pair_clashes(a, b)
}

// The slots before two cycles come round together for certain.
pub fn slots_of(c: Cycle, d: Cycle) -> usize
    ensures { SlotsOf c.slots d.slots result }
{
    c.slots * d.slots
}
