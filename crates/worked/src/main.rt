// Runs the worked cases of document 01 that are not in the proved table, and writes the number and the four details of each answer.
// A write that fails ends it with an error. Assumes what std assumes of the system's calls.
#![tactic(auto)]

use call_answer::Details;
use model::Answer;
use std::io;
use std::io::Write;

// One buffer, and one circuit over it: D at byte 14.
const ONE_BUFFER: [u8; 24] = *b"\x06\x00\x01\x00\x02\x00\x01\x00\x00\x01\
    \x06\x00\x02\x00\x20\x01\x01\x00\x00\x00\
    \x00\x00\x05\x00";

const CYCLE_AT: usize = 14;

// Sixteen buffers in a row, and one circuit over all of them.
const SIXTEEN_HOPS: [u8; 84] = *b"\x24\x00\x01\x00\x11\x00\x10\x00\
    \x00\x01\x01\x02\x02\x03\x03\x04\x04\x05\x05\x06\x06\x07\x07\x08\
    \x08\x09\x09\x0a\x0a\x0b\x0b\x0c\x0c\x0d\x0d\x0e\x0e\x0f\x0f\x10\
    \x24\x00\x02\x00\x04\x01\x10\x00\
    \x00\x00\x01\x00\x02\x00\x03\x00\x04\x00\x05\x00\x06\x00\x07\x00\
    \x08\x00\x09\x00\x0a\x00\x0b\x00\x0c\x00\x0d\x00\x0e\x00\x0f\x00\
    \x00\x00\x05\x00";

// Seventeen buffers in a row, and one circuit over all of them: its record has the length 38.
const SEVENTEEN_HOPS: [u8; 88] = *b"\x26\x00\x01\x00\x12\x00\x11\x00\
    \x00\x01\x01\x02\x02\x03\x03\x04\x04\x05\x05\x06\x06\x07\x07\x08\
    \x08\x09\x09\x0a\x0a\x0b\x0b\x0c\x0c\x0d\x0d\x0e\x0e\x0f\x0f\x10\x10\x11\
    \x26\x00\x02\x00\x04\x01\x11\x00\
    \x00\x00\x01\x00\x02\x00\x03\x00\x04\x00\x05\x00\x06\x00\x07\x00\
    \x08\x00\x09\x00\x0a\x00\x0b\x00\x0c\x00\x0d\x00\x0e\x00\x0f\x00\x10\x00\
    \x00\x00\x05\x00";

// One buffer without a circuit.
const NO_CIRCUITS: [u8; 14] = *b"\x06\x00\x01\x00\x02\x00\x01\x00\x00\x01\
    \x00\x00\x05\x00";

// One buffer, and one circuit over it with D 4 and N 2; its offsets 0 and 2; and one line with period 2 and slot 0.
const TWO_SLOTS: [u8; 24] = *b"\x06\x00\x01\x00\x02\x00\x01\x00\x00\x01\
    \x06\x00\x02\x00\x04\x02\x01\x00\x00\x00\
    \x00\x00\x05\x00";

const OFFSETS_0_2: [u8; 10] = *b"\x02\x00\x03\x00\x00\x02\
    \x00\x00\x05\x00";

const SINGLE_LINE: [u8; 16] = *b"\x08\x00\x04\x00\x00\x02\x00\x00\xff\xff\x00\x00\
    \x00\x00\x05\x00";

fn main(rt: HostRuntime) -> io::Result<()> {
    let mut out = io::writer(&rt);
    show(
        &mut out,
        "one line serves both offsets",
        vaskunoor::check_tables(&TWO_SLOTS, &OFFSETS_0_2, &SINGLE_LINE),
    )?;
    show_no_circuits(&mut out)?;
    show(&mut out, "an empty request", vaskunoor::read_request(b""))?;
    show(&mut out, "D 32", vaskunoor::read_request(&one_circuit(32)))?;
    show(&mut out, "D 33", vaskunoor::read_request(&one_circuit(33)))?;
    show(&mut out, "H 16", vaskunoor::read_request(&SIXTEEN_HOPS))?;
    show(&mut out, "H 17", vaskunoor::read_request(&SEVENTEEN_HOPS))
}

// Allocates where nothing is to be done, in an area that is one byte longer than the end record, and writes the area.
fn show_no_circuits<W: Write>(out: &mut W) -> io::Result<()> {
    let mut area = [0xeeu8; 5];
    let answer = vaskunoor::allocate(&NO_CIRCUITS, 0, &mut area);
    show(out, "no circuits", answer)?;
    write!(out, "  area")?;
    for byte in &area {
        write!(out, " {byte:02x}")?;
    }
    writeln!(out)
}

// The request with one buffer and one circuit of this cycle.
fn one_circuit(cycle: u8) -> [u8; 24] {
    let mut request = ONE_BUFFER;
    request[CYCLE_AT] = cycle;
    request
}

// Writes the name of a case and what was answered.
fn show<W: Write>(out: &mut W, name: &str, answer: Answer) -> io::Result<()> {
    let told = Details::from(answer);
    writeln!(out, "{name}: {told}")
}
