// An answer as numbers: its number and four details. Assumes nothing.
#![tactic(auto)]

ghost use Rattle.std.specs.Prelude.{◌≡◌};
ghost use Rattle.call_answer.specs.Handed.{handed};

use model::{Answer, NOWHERE};
use std::fmt;

#[derive(Clone, Copy, Debug, PartialEq, Eq)]
pub struct Details {
    pub number: u32,
    pub first: u32,
    pub second: u32,
    pub third: u32,
    pub fourth: u32,
}

impl Details {
    fn new(number: u32, first: u32, second: u32, third: u32, fourth: u32) -> Self
        ensures { result ≡ record { number = number; first = first; second = second; third = third; fourth = fourth } }
    {
        Details {
            number,
            first,
            second,
            third,
            fourth,
        }
    }
}

impl From<Answer> for Details {
    ghost from_gives = { λ answer details. details ≡ handed answer };

    fn from(answer: Answer) -> Details {
        match answer {
            Answer::Done => Details::new(0, 0, 0, 0, 0),
            Answer::Made { bytes } => Details::new(0, bytes, 0, 0, 0),
            Answer::Allocated { visits, bytes } => Details::new(0, visits, bytes, 0, 0),
            Answer::Damaged { file, fault, byte } => Details::new(fault.into(), file, byte, 0, 0),
            Answer::NoRoom { visits } => Details::new(10, visits, 0, 0, 0),
            Answer::Unfinished { visits } => Details::new(11, visits, 0, 0, 0),
            Answer::Clash {
                lower,
                higher,
                slot,
                what,
            } => Details::new(12, lower, higher, slot, what),
            Answer::Unserved {
                circuit,
                offset,
                hop,
            } => Details::new(13, circuit, offset, hop, NOWHERE),
            Answer::Partly {
                circuit,
                offset,
                hop,
                line,
            } => Details::new(14, circuit, offset, hop, line),
            Answer::Twice {
                circuit,
                offset,
                hop,
                line,
            } => Details::new(15, circuit, offset, hop, line),
            Answer::Astray {
                circuit,
                offset,
                hop,
                line,
            } => Details::new(16, circuit, offset, hop, line),
            Answer::Short { bytes } => Details::new(17, bytes, 0, 0, 0),
        }
    }
}

impl fmt::Display for Details {
    // The number, and the four details behind it.
    fn fmt<W: fmt::Write>(&self, f: &mut fmt::Formatter<W>) -> fmt::Result {
        write!(
            f,
            "{} {} {} {} {}",
            self.number, self.first, self.second, self.third, self.fourth
        )
    }
}

// The number and the details of an answer.
pub fn hand_out(answer: Answer) -> Details
    ensures { result ≡ handed answer }
{
    answer.into()
}
