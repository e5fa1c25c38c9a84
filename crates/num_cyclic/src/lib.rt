// Numbers on a cycle. Assumes nothing.
#![tactic(auto)]

ghost use Rattle.std.specs.Prelude.{◌≡◌, ◌<◌};
ghost use Rattle.num_cyclic.specs.Ahead.{ahead};

use num_divisor::Cycle;

// How far a is ahead of b, modulo g.
pub fn difference(g: Cycle, a: usize, b: usize) -> usize
    ensures is { result ≡ ahead g.slots a b }
    ensures low { result < g.slots }
{
    (a % g.slots + (g.slots - b % g.slots)) % g.slots
}
