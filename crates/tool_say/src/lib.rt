// Answers and lines in words, for any writer. A write that fails ends each function, with the writer's error. Assumes nothing.
#![tactic(auto)]

ghost use Rattle.std.specs.Prelude.{◌≡◌, ◌+◌, ◌/◌};
ghost use Rattle.model.specs.Sizes.{head_size, line_size};

use call_answer::Details;
use model::{Answer, LINE_BYTES, LOCAL, Line};
use std::io::Write;
use std::{fmt, io};

// The line of a refusal: its number and its four details.
pub fn refused<W: Write>(out: &mut W, answer: Answer) -> io::Result<()> {
    let told = Details::from(answer);
    writeln!(out, "refused {told}")
}

// How many lines a table of this many bytes has.
pub fn line_count(bytes: usize) -> usize
    ensures { result ≡ bytes / (head_size + line_size) }
{
    bytes / LINE_BYTES
}

// The lines of a table, one to a line: router, period, slot, in, out.
pub fn lines<W: Write>(out: &mut W, table: &[u8]) -> io::Result<()> {
    for record in table.chunks_exact(LINE_BYTES) {
        line(out, file_line::line_at(record, 0))?;
    }
    Ok(())
}

fn line<W: Write>(out: &mut W, line: Line) -> io::Result<()> {
    let inport = Inport(line.inp);
    writeln!(
        out,
        "{} {} {} {inport} {}",
        line.router, line.period, line.slot, line.out
    )
}

// An inport: the buffer that it stands behind, or the local one.
#[derive(Clone, Copy)]
struct Inport(u16);

impl fmt::Display for Inport {
    fn fmt<W: fmt::Write>(&self, f: &mut fmt::Formatter<W>) -> fmt::Result {
        if usize::from(self.0) == LOCAL {
            return f.write_str("local");
        }
        write!(f, "{}", self.0)
    }
}
