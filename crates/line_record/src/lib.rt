// One line of the table: what a send needs with an offset, as bytes, and laid into an area with room. Assumes nothing.
#![tactic(auto)]

ghost use Rattle.std.specs.Prelude.{◌≡◌, ◌+◌, ◌≤◌, ◌<◌, length};
ghost use Rattle.model.specs.Sizes.{head_size, line_size, cycle_most};
ghost use Rattle.file_writer.specs.Pasting.{Laid};
ghost use Rattle.line_record.specs.Record.{line_of, line_record};

use model::{Kind, LINE_BYTES, LINE_SIZE, Line, Send};
use plan::Circuit;

// The line that a circuit's send needs with an offset.
pub fn line_of(circuit: &Circuit, send: &Send, offset: u32) -> Line
    requires { offset < cycle_most }
    ensures { result ≡ line_of circuit.now.cycle.slots send.now offset }
{
    let cycle = circuit.cycle.slots;
    let slot = ((offset as usize + usize::from(send.after)) % cycle) as u8;
    Line {
        router: send.router,
        period: cycle as u8,
        slot,
        inp: send.inp,
        out: send.out,
    }
}

// The record of a line.
fn record_of(line: Line) -> [u8; LINE_BYTES]
    ensures { result ≡ line_record line }
{
    let [len_low, len_high, kind_low, kind_high] = file_writer::head(LINE_SIZE as u16, Kind::Line);
    let [inp_low, inp_high] = line.inp.to_le_bytes();
    let [out_low, out_high] = line.out.to_le_bytes();
    [
        len_low,
        len_high,
        kind_low,
        kind_high,
        line.router,
        line.period,
        line.slot,
        0,
        inp_low,
        inp_high,
        out_low,
        out_high,
    ]
}

// Lays a line into the area from `at` on; and the place behind it.
pub fn put_line(out: &mut [u8], at: usize, line: Line) -> usize
    requires { at + (head_size + line_size) ≤ length out.old }
    ensures { Laid out.old at (line_record line) out.new result }
{
    file_writer::put(out, at, &record_of(line))
}
