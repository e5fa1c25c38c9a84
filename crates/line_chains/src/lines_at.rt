// The lines at an inport, one behind the other along its chain. Assumes nothing.

ghost use Rattle.std.specs.Prelude.{◌≡◌, ◌≤◌, ◌<◌};
ghost use Rattle.line_chains.specs.Chains.{port_at};

use crate::Table;

// The lines with this inport from `line` on.
#[derive(Clone, Copy)]
pub struct LinesAt<'a> {
    pub table: &'a Table<'a>,
    pub port: usize,
    pub line: usize,
    ghost within: { line ≤ table.now.lines },
    ghost on: { line < table.now.lines → port_at table.now.bytes.now line ≡ port },
}

impl Iterator for LinesAt<'_> {
    type Item = usize;

    ghost use Rattle.std.specs.Iterator.{item_count, YieldsFirst};
    ghost use Rattle.line_chains.specs.Left.{left};

    ghost next_gives = { YieldsFirst left };

    ghost remaining = { item_count left };

    fn next(&mut self) -> Option<usize> {
        let here = self.line;
        if here == self.table.lines {
            return None;
        }
        self.line = usize::from(self.table.chains.next[here]);
        Some(here)
    }
}
