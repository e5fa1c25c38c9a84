// One series of packets held against the lines of its inport: which lines meet it, and what is wrong with it. Assumes nothing.
#![tactic(auto)]

ghost use Rattle.std.specs.Prelude.{◌≡◌};
ghost use Rattle.plan.specs.Ports.{SendFits};
ghost use Rattle.plan_refusal.specs.Found.{found};

use line_chains::Table;
use model::{Answer, Send};
use num_divisor::Cycle;
use plan::port_of;
use plan_refusal::Tested;

mod slots;

use slots::Slots;

// The packets of a circuit, by its number, with one offset at one hop, where a router's send takes them on.
#[derive(Clone, Copy)]
pub struct Series {
    pub circuit: u32,
    pub offset: u32,
    pub hop: u32,
    pub cycle: Cycle,
    pub send: Send,
    ghost send_fits: { SendFits send },
}

// Of the lines that meet a series: the first, the first that does not serve it whole, and the second.
#[derive(Clone, Copy)]
struct Met {
    one: Option<usize>,
    part: Option<usize>,
    two: Option<usize>,
}

impl Series {
    ghost use Rattle.line_series.specs.Series.{series_met, series_fault};

    // Goes through the lines of its inport.
    fn meeting(&self, table: &Table) -> Met
        ensures { result ≡ series_met table.now.bytes.now table.now.lines self.now }
    {
        let slots = Slots::new(self.cycle, self.offset, self.send.after);
        let mut met = Met {
            one: None,
            part: None,
            two: None,
        };
        for m in table.at(port_of(self.send.router, self.send.inp)) {
            let line = table.line(m);
            if !slots.meet(line) {
                continue;
            }
            met = Met {
                one: met.one.or(Some(m)),
                part: met.part.or((!slots.all_match(line)).then_some(m)),
                two: met.two.or(met.one.and(Some(m))),
            };
        }
        met
    }

    // What is wrong with it.
    pub fn judge(&self, table: &Table) -> Tested
        ensures { found result ≡ series_fault table.now.bytes.now table.now.lines self.now }
    {
        let Series {
            circuit,
            offset,
            hop,
            ..
        } = *self;
        let met = self.meeting(table);
        let Some(one) = met.one else {
            return Err(Answer::Unserved {
                circuit,
                offset,
                hop,
            });
        };
        if let Some(part) = met.part {
            let line = part as u32;
            return Err(Answer::Partly {
                circuit,
                offset,
                hop,
                line,
            });
        }
        if let Some(two) = met.two {
            let line = two as u32;
            return Err(Answer::Twice {
                circuit,
                offset,
                hop,
                line,
            });
        }
        if table.line(one).out != self.send.out {
            let line = one as u32;
            return Err(Answer::Astray {
                circuit,
                offset,
                hop,
                line,
            });
        }
        Ok(())
    }
}
