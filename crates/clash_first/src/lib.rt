// Where a plan first clashes. Assumes nothing.
#![tactic(auto)]

ghost use Rattle.clash_first.specs.First.{FirstIs};

use model::{Answer, RESOURCES_MOST};
use plan::Bookings;
use plan_refusal::Tested;

// The first clash of the circuits with the offsets that they have taken: by the lower circuit, the higher, the slot and the resource.
pub fn first_clash(b: &Bookings) -> Tested
    ensures { FirstIs b.now.plan.now b.now.masks.now result }
{
    let n = b.len();
    let sets = clash_sets::of_all(b.plan);
    let mut answer = Ok(());
    'found: for i in 0..n {
        let lower = b.of(i);
        for j in i + 1..n {
            let higher = b.of(j);
            if !clash_held::clashes_by_sets(&sets[i], &sets[j], &lower, &higher) {
                continue;
            }
            let slots = clash_held::slots_of(lower.circuit.cycle, higher.circuit.cycle);
            for t in 0..slots {
                for w in 0..RESOURCES_MOST {
                    if clash_held::both_hold(&lower, &higher, t, w) {
                        answer = Err(Answer::Clash {
                            lower: i as u32,
                            higher: j as u32,
                            slot: t as u32,
                            what: w as u32,
                        });
                        break 'found;
                    }
                }
            }
        }
    }
    answer
}
