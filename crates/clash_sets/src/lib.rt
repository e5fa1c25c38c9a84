// The resources that circuits use, as sets of bits, and which circuits share none. Assumes nothing.
#![tactic(auto)]

ghost use Rattle.std.specs.Prelude.{◌≡◌};
ghost use Rattle.plan.specs.Plan.{circuits_in};
ghost use Rattle.clash_sets.specs.Sets.{InSet, Grown, Collected, SetsOf, apart?};

use model::{CIRCUITS_MOST, RESOURCES_MOST};
use plan::{Circuit, Plan};
use plan_list::{Blank, List};

// A set of resources has a bit for each, in words.
const WORD_BITS: usize = 32;

const SET_WORDS: usize = (RESOURCES_MOST + WORD_BITS - 1) / WORD_BITS;

#[derive(Clone, Copy, Default)]
pub struct Resources {
    pub words: [u32; SET_WORDS],
}

impl Blank for Resources {
    ghost use Rattle.clash_sets.specs.declared.TheConstants.{SET_WORDS};
    ghost use Rattle.std.specs.Prelude.{replicate};

    ghost blank = { record { words = replicate SET_WORDS 0 } };

    fn blank() -> Resources {
        Resources {
            words: [0; SET_WORDS],
        }
    }
}

impl Resources {
    // What a circuit uses.
    pub fn of(circuit: &Circuit) -> Resources
        ensures { Collected circuit.now.uses.items result.words }
    {
        let mut set = Resources::default();
        for u in circuit.uses.iter() {
            set.put(usize::from(u.what));
        }
        set
    }

    // Puts resource w into the set. A number that is no resource shares the bit of one.
    fn put(&mut self, w: usize)
        ensures grown { Grown self.old.words self.new.words }
        ensures added { InSet self.new.words w }
    {
        let at = w / WORD_BITS % SET_WORDS;
        self.words[at] = num_mask::with(self.words[at], (w % WORD_BITS) as u32);
    }

    // Whether two sets have nothing in common.
    pub fn is_apart(&self, other: &Resources) -> bool
        ensures { result ≡ apart? self.now.words other.now.words }
    {
        self.words
            .iter()
            .zip(other.words.iter())
            .all(|(x, y)| x & y == 0)
    }
}

// What each circuit uses.
pub fn of_all(plan: &Plan) -> List<Resources, CIRCUITS_MOST>
    ensures { SetsOf plan.now result.items (circuits_in plan.now) }
{
    let mut sets = List::new();
    for circuit in plan.iter() {
        sets.push(Resources::of(circuit));
    }
    sets
}
