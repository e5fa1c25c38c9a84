// A circuit with the offsets that it has taken, and a plan with those of all its circuits. Assumes nothing.

ghost use Rattle.std.specs.Prelude.{◌≡◌, ◌<◌, ◌^◌, length, get_or};
ghost use Rattle.plan.specs.Plan.{circuits_in, circuit_in, claim, booking_in, shown, Slotted};

use crate::{Circuit, Masks, Plan};

#[derive(Clone, Copy)]
pub struct Booking<'a> {
    pub circuit: &'a Circuit,
    pub offsets: u32,
    ghost low: { offsets < 2 ^ circuit.now.cycle.slots },
}

#[derive(Clone, Copy)]
pub struct Bookings<'a> {
    pub plan: &'a Plan,
    pub masks: &'a Masks,
    ghost slotted: { Slotted plan.now masks.now },
}

impl<'a> Bookings<'a> {
    // How many circuits there are.
    pub fn len(&self) -> usize
        ensures { result ≡ circuits_in self.now.plan.now }
    {
        self.plan.len()
    }

    // Circuit c with its offsets.
    pub fn of(&self, c: usize) -> Booking<'a>
        requires { c < circuits_in self.now.plan.now }
        ensures circuit { shown result.circuit.now ≡ circuit_in self.now.plan.now c }
        ensures offsets { result.offsets ≡ get_or self.now.masks.now c 0 }
    {
        Booking {
            circuit: &self.plan[c],
            offsets: self.masks[c],
        }
    }
}
