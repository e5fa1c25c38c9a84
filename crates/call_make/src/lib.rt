// The table of an assignment that was read without a fault: a clash is told first, then an area that is too short. Assumes nothing.
#![tactic(auto)]

ghost use Rattle.call_make.specs.Make.{Makes};

use model::Answer;
use plan::Bookings;

pub fn make(b: &Bookings, table: &mut [u8]) -> Answer
    ensures { Makes b.now.plan.now b.now.masks.now table.old result table.new }
{
    if let Err(clash) = clash_first::first_clash(b) {
        return clash;
    }
    let needed = line_maker::table_size(b);
    let bytes = needed as u32;
    if table.len() < needed {
        return Answer::Short { bytes };
    }
    line_maker::write_table(b, table);
    Answer::Made { bytes }
}
