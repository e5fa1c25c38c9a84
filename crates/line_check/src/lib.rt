// The table check behind reading: the series by circuit, offset and hop, to the first that has a fault. Assumes nothing.
#![tactic(auto)]

ghost use Rattle.std.specs.Prelude.{◌≡◌, ℕ, true};
ghost use Rattle.std.proofs.Math.Option.{none};
ghost use Rattle.plan.specs.Plan.{shown};
ghost use Rattle.plan_refusal.specs.Found.{found};
ghost use Rattle.line_check.specs.Checks.{offset_fault, circuit_fault, LinesFaultIs};

use line_chains::Table;
use line_series::Series;
use line_served::all_served;
use plan::{Booking, Bookings, Circuit};
use plan_refusal::Tested;

// The hops of a circuit, by its number, with one offset.
fn check_offset(table: &Table, circuit: &Circuit, number: u32, offset: u32) -> Tested
    ensures { found result ≡ offset_fault (shown circuit.now) table.now.bytes.now table.now.lines number offset }
{
    for (hop, send) in circuit.sends.iter().enumerate() {
        let series = Series {
            circuit: number,
            offset,
            hop: hop as u32,
            cycle: circuit.cycle,
            send: *send,
        };
        series.judge(table)?;
    }
    Ok(())
}

// Whether the series of all offsets of a circuit are served at every hop. Where it does not say yes, `check_offset` tells
// what is wrong, if anything is.
fn served(table: &Table, booking: &Booking) -> bool
    ensures { result ≡ true → (c : ℕ) → circuit_fault (shown booking.now.circuit.now) booking.now.offsets table.now.bytes.now table.now.lines c ≡ none }
{
    booking.circuit.sends.iter().all(|send| all_served(
        table,
        booking.circuit.cycle,
        booking.offsets,
        *send,
    ))
}

// The offsets of a circuit, by its number, rising.
fn check_circuit(table: &Table, booking: &Booking, number: u32) -> Tested
    ensures { found result ≡ circuit_fault (shown booking.now.circuit.now) booking.now.offsets table.now.bytes.now table.now.lines number }
{
    if served(table, booking) {
        return Ok(());
    }
    for offset in num_mask::offsets(booking.offsets) {
        check_offset(table, booking.circuit, number, offset)?;
    }
    Ok(())
}

// All series of the circuits, by circuit, offset and hop.
pub fn check(b: &Bookings, table: &Table) -> Tested
    ensures { LinesFaultIs b.now.plan.now b.now.masks.now table.now.bytes.now table.now.lines result }
{
    for c in 0..b.plan.len() {
        check_circuit(table, &b.of(c), c as u32)?;
    }
    Ok(())
}
