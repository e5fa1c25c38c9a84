// The grid of clashes that the search asks: for two circuits and an offset of one, the offsets of the other that clash
// with it. Assumes nothing.
#![tactic(auto)]

ghost use Rattle.std.specs.Prelude.{◌≤◌, map, length};
ghost use Rattle.model.specs.Sizes.{circuits_most};
ghost use Rattle.plan.specs.Plan.{shown};
ghost use Rattle.slot_grid.specs.Table.{Barred, RowBarred, RowFilled, RowsFilled, FilledFor};

use model::{CIRCUITS_MOST, CYCLE_MOST};
use num_divisor::Cycle;
use plan::{Circuit, Plan};

// An entry for each offset of the other circuit: the offsets that clash with it.
pub type Row = [u32; CYCLE_MOST];

// A row for each other circuit.
pub type Rows = [Row; CIRCUITS_MOST];

// Those of each circuit with the circuits before it.
pub type Grid = [Rows; CIRCUITS_MOST];

// The offsets below d that clash with offset b of the other circuit.
fn barred(bad: u32, g: Cycle, d: Cycle, b: usize) -> u32
    ensures { Barred bad g.slots d.slots b result }
{
    let mut acc = 0u32;
    for a in 0..d.slots {
        let x = num_cyclic::difference(g, a, b);
        if !num_mask::has(bad, x as u32) {
            continue;
        }
        acc = num_mask::with(acc, a as u32);
    }
    acc
}

// The entries of one pair.
fn row(bad: u32, g: Cycle, d: Cycle, e: Cycle) -> Row
    ensures { RowBarred bad g.slots d.slots e.slots result }
{
    let mut entries = [0u32; CYCLE_MOST];
    for b in 0..e.slots {
        entries[b] = barred(bad, g, d, b);
    }
    entries
}

// The entries of a circuit with another.
fn pair(own: &Circuit, other: &Circuit) -> Row
    ensures { RowFilled (shown own.now) (shown other.now) result }
{
    let g = own.cycle.common(other.cycle);
    let bad = clash_pair::bad_differences(own, other, g);
    row(bad, g, own.cycle, other.cycle)
}

// Fills the rows of a circuit with those before it.
fn fill_rows(own: &Circuit, earlier: &[Circuit], rows: &mut Rows)
    requires { length earlier.now ≤ circuits_most }
    ensures { RowsFilled (shown own.now) (map shown earlier.now) rows.new }
{
    for (e, other) in earlier.iter().enumerate() {
        rows[e] = pair(own, other);
    }
}

// Fills the grid of the offsets of a plan's circuits that clash.
pub fn fill(p: &Plan, grid: &mut Grid)
    ensures { FilledFor p.now grid.new }
{
    for (c, own) in p.iter().enumerate() {
        fill_rows(own, &p[..c], &mut grid[c]);
    }
}
