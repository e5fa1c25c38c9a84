// Sets of offsets as the set bits of a number: to ask, to add, to count, and to go through. Assumes nothing.
#![tactic(auto)]

ghost use Rattle.std.specs.Prelude.{◌≡◌, ◌-◌, ◌^◌, ◌<◌, length};
ghost use Rattle.std.specs.Iterator.{at_most, YieldsFirst};
ghost use Rattle.model.specs.Sizes.{cycle_most};
ghost use Rattle.num_mask.specs.Bits.{bit, offsets, Above, More, Marked, Lowest};

// Whether offset i is in the set.
pub fn has(mask: u32, i: u32) -> bool
    requires { i < cycle_most }
    ensures { result ≡ bit mask i }
{
    (mask >> i) % 2 == 1
}

// The set with offset i.
pub fn with(mask: u32, i: u32) -> u32
    requires { i < cycle_most }
    ensures marked { Marked mask i result }
    ensures above { Above mask i → More mask i result }
{
    mask | (1u32 << i)
}

// How many offsets are in the set.
pub fn size(mask: u32) -> u32
    ensures { result ≡ length (offsets mask) }
{
    u32::count_ones(mask)
}

// The lowest offset of a set that is not empty.
fn lowest(mask: u32) -> u32
    requires { 0 < mask }
    ensures { Lowest mask result }
{
    u32::trailing_zeros(mask)
}

// The set without its lowest offset, i.
fn without(mask: u32, i: u32) -> u32
    requires { Lowest mask i }
    ensures { result ≡ mask - 2 ^ i }
{
    mask - (1u32 << i)
}

// The offsets of the set, rising.
pub fn offsets(mask: u32) -> Rising
    ensures { result.left ≡ mask }
{
    Rising { left: mask }
}

// The offsets of a set that are left, rising.
#[derive(Clone, Copy)]
pub struct Rising {
    pub left: u32,
}

impl Iterator for Rising {
    type Item = u32;

    ghost next_gives = { YieldsFirst (λ s. offsets s.left) };

    ghost remaining = { λ s. at_most (length (offsets s.left)) };

    fn next(&mut self) -> Option<u32> {
        if self.left == 0 {
            return None;
        }
        let first = lowest(self.left);
        self.left = without(self.left, first);
        Some(first)
    }
}
