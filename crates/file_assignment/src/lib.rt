// The assignment file, read in place beside the request that it is for: the bytes where its offsets
// records start, or its fault. Assumes nothing.
#![tactic(auto)]

ghost use Rattle.std.specs.Prelude.{◌≡◌, ◌+◌, ◌≤◌, ◌<◌, length};
ghost use Rattle.model.specs.Sizes.{head_size, word_end};
ghost use Rattle.model.specs.Bytes.{length_at};
ghost use Rattle.model.specs.Reading.{have, bad_offset, offsets_verdict, assignment_step, assignment_walk};
ghost use Rattle.file_records.specs.Walks.{places_of};
ghost use Rattle.file_parts.specs.Records.{asked, recorded};
ghost use Rattle.file_assignment.specs.Parts.{offsets_numbers};

use file_parts::{CircuitRecord, Request};
use file_records::{Places, Record, byte_in};
use model::{CYCLE_MOST, Damage, Fault, HEAD_SIZE, Kind};

// The tests on the numbers of an offsets record, which is for this circuit.
#[tactic(auto, using(file_records::proofs::Laws::tests), unfolding(crate::specs::Parts::offsets_numbers, model::specs::Tests::neg))]
fn offsets_head(circuit: &CircuitRecord, offsets: &Record) -> Result<(), Fault>
    ensures { result ≡ offsets_numbers (have offsets.now.file.now offsets.now.start) (length_at offsets.now.file.now offsets.now.start) (recorded circuit.now).demand }
{
    let len = offsets.length();
    if len < 1 || CYCLE_MOST < len {
        return Err(Fault::Length);
    }
    if offsets.room() < HEAD_SIZE + len {
        return Err(Fault::Cut);
    }
    if len != circuit.demand() {
        return Err(Fault::Offsets);
    }
    Ok(())
}

// Offset i of the record is not below the cycle, or not above the offset before it.
#[tactic(auto, using(file_records::proofs::Laws::tests), unfolding(model::specs::Reading::bad_offset))]
fn bad_offset(offsets: &Record, cycle: usize, i: usize) -> bool
    requires few { i < word_end }
    requires room { offsets.now.start + head_size + i < length offsets.now.file.now }
    ensures { result ≡ bad_offset offsets.now.file.now offsets.now.start cycle i }
{
    let at = offsets.start + HEAD_SIZE + i;
    let offset = byte_in(offsets.file, at);
    cycle <= usize::from(offset) || (0 < i && offset <= byte_in(offsets.file, at - 1))
}

// The verdict on an offsets record, behind k others.
#[tactic(auto, using(crate::proofs::Laws::surplus))]
fn verdict(request: &Request, offsets: &Record, k: usize) -> Result<(), Fault>
    ensures { result ≡ offsets_verdict (asked request.now) offsets.now.file.now k offsets.now.start }
{
    if request.len() <= k {
        return Err(Fault::Offsets);
    }
    let circuit = request.circuit(k);
    offsets_head(&circuit, offsets)?;
    let cycle = circuit.cycle().slots;
    if (0..offsets.length()).any(|i| bad_offset(offsets, cycle, i)) {
        return Err(Fault::Offsets);
    }
    Ok(())
}

// What stands at p, behind k offsets records.
#[tactic(auto, using(file_records::proofs::Laws::tests), unfolding(model::specs::Reading::assignment_step))]
fn step_at(request: &Request, s: &[u8], k: usize, p: usize) -> Result<Option<usize>, Damage>
    requires { p ≤ length s.now }
    ensures { result ≡ assignment_step (asked request.now) s.now k p }
{
    let offsets = Record { file: s, start: p };
    let early = k < request.len();
    offsets.step(Kind::Offsets.into(), early, verdict(request, &offsets, k))
}

// Reads the assignment of a request.
pub fn read(request: &Request, s: &[u8]) -> Result<Places, Damage>
    ensures { result ≡ places_of (assignment_walk (asked request.now) s.now) }
{
    file_records::places(0, |k, p| step_at(request, s, k, p))
}
