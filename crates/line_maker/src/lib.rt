// The table as a file: the lines that slots need, laid into an area with room. Assumes nothing.
#![tactic(auto)]

ghost use Rattle.std.specs.Prelude.{◌≡◌, ◌+◌, ◌*◌, ◌≤◌, ◌<◌, length};
ghost use Rattle.model.specs.Sizes.{cycle_most, hops_most, head_size, line_size, detail_end};
ghost use Rattle.plan.specs.Plan.{shown};
ghost use Rattle.file_writer.specs.Pasting.{Laid};
ghost use Rattle.line_maker.specs.Files.{offset_bytes, circuit_bytes, lines_size, table_size, WroteTable};

use model::{HEAD_SIZE, LINE_BYTES};
use plan::{Booking, Bookings, Circuit};

// How many bytes the lines of a circuit have.
fn lines_size(b: &Booking) -> usize
    ensures is { result ≡ lines_size (shown b.now.circuit.now) b.now.offsets }
    ensures few { result ≤ cycle_most * hops_most * (head_size + line_size) }
{
    num_mask::size(b.offsets) as usize * b.circuit.sends.len() * LINE_BYTES
}

// How many bytes the table will have.
pub fn table_size(b: &Bookings) -> usize
    ensures is { result ≡ table_size b.now.plan.now b.now.masks.now }
    ensures few { result < detail_end }
{
    let mut total = HEAD_SIZE;
    for c in 0..b.plan.len() {
        total += lines_size(&b.of(c));
    }
    total
}

// The lines of a circuit for one offset, send by send; and the place behind them.
fn put_sends(circuit: &Circuit, offset: u32, out: &mut [u8], at: usize) -> usize
    requires low { offset < cycle_most }
    requires room { at + length (offset_bytes (shown circuit.now) offset) ≤ length out.old }
    ensures { Laid out.old at (offset_bytes (shown circuit.now) offset) out.new result }
{
    let mut next = at;
    for send in &circuit.sends {
        next = line_record::put_line(out, next, line_record::line_of(circuit, send, offset));
    }
    next
}

// The lines of a circuit, offset by offset, rising; and the place behind them.
fn put_circuit(b: &Booking, out: &mut [u8], at: usize) -> usize
    requires { at + length (circuit_bytes (shown b.now.circuit.now) b.now.offsets) ≤ length out.old }
    ensures { Laid out.old at (circuit_bytes (shown b.now.circuit.now) b.now.offsets) out.new result }
{
    let mut next = at;
    for offset in num_mask::offsets(b.offsets) {
        next = put_sends(b.circuit, offset, out, next);
    }
    next
}

// The table: the lines of each circuit, and the end record. It says how many bytes that is.
pub fn write_table(b: &Bookings, out: &mut [u8]) -> usize
    requires { table_size b.now.plan.now b.now.masks.now ≤ length out.old }
    ensures { WroteTable b.now.plan.now b.now.masks.now out.old out.new result }
{
    let mut at = 0;
    for c in 0..b.len() {
        at = put_circuit(&b.of(c), out, at);
    }
    file_writer::put_end(out, at)
}
