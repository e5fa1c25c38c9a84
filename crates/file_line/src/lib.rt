// A line of a table file, read in place: all lines have one size, so line m starts at m times that size. Assumes nothing.
#![tactic(auto)]

ghost use Rattle.std.specs.Prelude.{◌≡◌, ◌<◌};
ghost use Rattle.model.specs.Sizes.{lines_most};
ghost use Rattle.model.specs.Reading.{line_at};
ghost use Rattle.file_line.specs.Parts.{line_start};

use model::{LINE_BYTES, Line};

// Line m.
pub fn line_at(table: &[u8], m: usize) -> Line
    requires { m < lines_most }
    ensures { result ≡ line_at table.now (line_start m) }
{
    file_records::line(table, LINE_BYTES * m)
}
