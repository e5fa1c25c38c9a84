// What the search asks about the cells of a circuit: the offsets that earlier circuits bar, and the next cell where there is a choice.
// Assumes nothing.
#![tactic(auto)]

ghost use Rattle.std.specs.Prelude.{◌≡◌, ℕ, ◌≤◌, ◌<◌, map, length, take};
ghost use Rattle.model.specs.Sizes.{circuits_most, cycle_most};
ghost use Rattle.model.specs.Search.{barred};
ghost use Rattle.num_mask.specs.Bits.{bit, offsets};
ghost use Rattle.slot_grid.specs.Table.{clash_in};
ghost use Rattle.slot_cells.specs.Cells.{SkippedTo, gathered};

use slot_grid::{Grid, Row};

// The entries of a row at the offsets of m, joined bit by bit with from.
fn gather(row: &Row, m: u32, from: u32) -> u32
    ensures { result ≡ gathered row.now from (offsets m) }
{
    num_mask::offsets(m).fold(from, |acc, a| acc | row[a as usize])
}

// The offsets of circuit c that clash with one taken by an earlier circuit.
pub fn blocked(grid: &Grid, taken: &[u32], c: usize) -> u32
    requires { (c < circuits_most) × (c ≤ length taken.now) }
    ensures { (i : ℕ) → bit result i ≡ barred (clash_in grid.now) c i 0 (map offsets (take c taken.now)) }
{
    grid[c]
        .iter()
        .zip(&taken[..c])
        .fold(0, |acc, (row, mask)| gather(row, *mask, acc))
}

// The next cell of a circuit, from a on, that could be taken or may not be skipped, or else its end.
pub fn next_cell(shut: u32, a: u32, cycle: u32, demand: u32, have: u32) -> u32
    requires a_lt_cycle { a < cycle }
    requires cycle_le_cycle_most { (cycle ≤ cycle_most) × (demand ≤ cycle_most) × (have ≤ cycle_most) }
    ensures { SkippedTo shut a cycle demand have result }
{
    if demand <= have {
        return cycle;
    }
    if cycle + have <= demand + a {
        return a;
    }
    let last = cycle + have - demand;
    let free = a + u32::trailing_zeros(!(shut >> a));
    if last < free {
        return last;
    }
    free
}
