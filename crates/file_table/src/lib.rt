// Reads a table file in place, and stores nothing of it. Assumes nothing.
#![tactic(auto)]

ghost use Rattle.std.specs.Prelude.{◌≡◌, ◌≤◌, length};
ghost use Rattle.model.specs.Reading.{request, bad_in, bad_out, line_verdict, table_step, table_walk};
ghost use Rattle.file_records.specs.Walks.{count_of};
ghost use Rattle.file_table.specs.Parts.{line_numbers};

use file_records::{Record, line, link, word};
use model::{
    BUFFERS_AT, CYCLE_MOST, Damage, Fault, HEAD_SIZE, Kind, LINE_SIZE, LINE_SPARE_AT, LINES_MOST,
    LOCAL, Line, ROUTERS_AT,
};

// The line's inport is neither local nor a buffer that leads to its router.
#[tactic(auto, using(crate::proofs::Laws::links), unfolding(model::specs::Reading::bad_in, model::specs::Tests::neg))]
fn bad_in(req: &[u8], line: Line) -> bool
    ensures { result ≡ bad_in (request req.now).network line.router line.inp }
{
    let inp = usize::from(line.inp);
    inp != LOCAL && (word(req, BUFFERS_AT) <= inp || link(req, inp).to != line.router)
}

// The line's outport is no buffer that its router owns.
#[tactic(auto, using(crate::proofs::Laws::links), unfolding(model::specs::Reading::bad_out, model::specs::Tests::neg))]
fn bad_out(req: &[u8], line: Line) -> bool
    ensures { result ≡ bad_out (request req.now).network line.router line.out }
{
    let out = usize::from(line.out);
    word(req, BUFFERS_AT) <= out || link(req, out).from != line.router
}

// The tests on a line's own numbers, and on the spare byte between them.
#[tactic(auto, using(crate::proofs::Laws::links), unfolding(crate::specs::Parts::line_numbers, model::specs::Tests::neg))]
fn line_numbers(req: &[u8], line: Line, spare: usize) -> Result<(), Fault>
    ensures { result ≡ line_numbers (request req.now).network line.router line.period line.slot spare line.inp line.out }
{
    if word(req, ROUTERS_AT) <= usize::from(line.router)
        || line.period < 1
        || CYCLE_MOST < usize::from(line.period)
        || line.period <= line.slot
        || spare != 0
        || bad_in(req, line)
        || bad_out(req, line)
    {
        return Err(Fault::Line);
    }
    Ok(())
}

// The verdict on a line's record, where n lines stand before it.
#[tactic(auto, using(crate::proofs::Laws::links), unfolding(model::specs::Reading::line_verdict, crate::specs::Parts::line_numbers, model::specs::Tests::neg))]
fn verdict(req: &[u8], place: &Record, n: usize) -> Result<(), Fault>
    ensures { result ≡ line_verdict (request req.now).network place.now.file.now n place.now.start }
{
    if LINES_MOST <= n {
        return Err(Fault::Count);
    }
    let len = place.length();
    if len != LINE_SIZE {
        return Err(Fault::Length);
    }
    if place.room() < HEAD_SIZE + len {
        return Err(Fault::Cut);
    }
    let spare = place.byte(LINE_SPARE_AT);
    line_numbers(req, line(place.file, place.start), spare)
}

// What stands at p, where n lines stand before it.
#[tactic(auto, unfolding(model::specs::Reading::table_step))]
fn step_at(req: &[u8], s: &[u8], n: usize, p: usize) -> Result<Option<usize>, Damage>
    requires { p ≤ length s.now }
    ensures { result ≡ table_step (request req.now).network s.now n p }
{
    let place = Record { file: s, start: p };
    place.step(Kind::Line.into(), false, verdict(req, &place, n))
}

// How many lines the table file s has, for the network of the request file.
pub fn read(req: &[u8], s: &[u8]) -> Result<usize, Damage>
    ensures { result ≡ count_of (table_walk (request req.now).network s.now) }
{
    file_records::count(0, LINES_MOST, |n, p| step_at(req, s, n, p))
}
