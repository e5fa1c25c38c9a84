// A table of lines that are chained by their inports, so that a series is held only against the lines of its own inport.
// Assumes nothing.
#![tactic(auto)]

ghost use Rattle.std.specs.Prelude.{◌≡◌, ◌<◌};
ghost use Rattle.model.specs.Sizes.{resources_most};
ghost use Rattle.num_divisor.specs.Common.{IsCycle};
ghost use Rattle.line_chains.specs.Chains.{line_in, lines_at, Tabled, Chained};

use file_line::line_at;
use model::{LINES_MOST, Line, RESOURCES_MOST};
use plan::port_of;

mod lines_at;

pub use lines_at::LinesAt;

// Of each inport its first line, and of each line the next with its inport. Where there is none, the number of lines.
#[derive(Clone, Copy)]
pub struct Chains {
    pub first: [u16; RESOURCES_MOST],
    pub next: [u16; LINES_MOST],
}

impl Default for Chains {
    fn default() -> Self {
        Chains {
            first: [0; RESOURCES_MOST],
            next: [0; LINES_MOST],
        }
    }
}

impl Chains {
    // Puts the lines of a table into chains, from the last to the first.
    pub fn link(&mut self, bytes: &[u8], lines: usize)
        requires { Tabled bytes.now lines }
        ensures { Chained bytes.now lines 0 self.new.first self.new.next }
    {
        let none = lines as u16;
        self.first = [none; RESOURCES_MOST];
        for m in (0..lines).rev() {
            let line = line_at(bytes, m);
            let port = port_of(line.router, line.inp);
            self.next[m] = self.first[port];
            self.first[port] = m as u16;
        }
    }
}

// The bytes of a table, how many lines stand in them, and the chains of these.
#[derive(Clone, Copy)]
pub struct Table<'a> {
    pub bytes: &'a [u8],
    pub lines: usize,
    pub chains: &'a Chains,
    ghost tabled: { Tabled bytes.now lines },
    ghost chained: { Chained bytes.now lines 0 chains.now.first chains.now.next },
}

impl<'a> Table<'a> {
    ghost use Rattle.line_chains.specs.Left.{left};

    // Line m.
    pub fn line(&self, m: usize) -> Line
        requires { m < self.now.lines }
        ensures is { result ≡ line_in self.now.bytes.now m }
        ensures period { IsCycle result.period }
        ensures slot { result.slot < result.period }
    {
        line_at(self.bytes, m)
    }

    // The lines with this inport, by their numbers, rising.
    pub fn at(&self, port: usize) -> LinesAt<'_>
        requires { port < resources_most }
        ensures { left result ≡ lines_at self.now.bytes.now self.now.lines port }
    {
        LinesAt {
            table: self,
            port,
            line: usize::from(self.chains.first[port]),
        }
    }
}
