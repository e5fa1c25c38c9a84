// The tests on a circuit record of a request, by its bytes. Assumes nothing.
#![tactic(auto)]

ghost use Rattle.std.specs.Prelude.{◌≡◌, ◌<◌};
ghost use Rattle.model.specs.Sizes.{word_end};
ghost use Rattle.model.specs.Reading.{gap, broken_at, circuit_body, circuit_verdict};
ghost use Rattle.file_circuit.specs.Numbers.{head_verdict};

use file_records::{Record, link, word};
use model::{
    BUFFERS_AT, CIRCUIT_LEAST, CIRCUIT_SPARE_AT, CIRCUITS_MOST, COUNTS_SIZE, CYCLE_AT, CYCLE_MOST,
    DEMAND_AT, Fault, HEAD_SIZE, HOP_SIZE, HOPS_AT, HOPS_MOST,
};

// The tests on the numbers of a circuit's record, behind n others.
#[tactic(auto, using(file_records::proofs::Laws::tests), unfolding(model::specs::Reading::circuit_head, model::specs::Tests::neg))]
fn circuit_head(circuit: &Record, n: usize) -> Result<(), Fault>
    ensures { result ≡ head_verdict circuit.now.file.now n circuit.now.start }
{
    let len = circuit.length();
    if CIRCUITS_MOST <= n {
        return Err(Fault::Count);
    }
    if len < CIRCUIT_LEAST || COUNTS_SIZE + HOP_SIZE * HOPS_MOST < len || len % 2 != 0 {
        return Err(Fault::Length);
    }
    if circuit.room() < HEAD_SIZE + len {
        return Err(Fault::Cut);
    }
    let cycle = circuit.byte(CYCLE_AT);
    let demand = circuit.byte(DEMAND_AT);
    let hops = circuit.byte(HOPS_AT);
    if cycle < 1
        || CYCLE_MOST < cycle
        || demand < 1
        || cycle < demand
        || hops < 1
        || HOPS_MOST < hops
    {
        return Err(Fault::Count);
    }
    if len != COUNTS_SIZE + HOP_SIZE * hops {
        return Err(Fault::Length);
    }
    Ok(())
}

// The buffer before hop j does not lead to the router that owns hop j's.
#[tactic(auto, unfolding(model::specs::Reading::gap, model::specs::Tests::neg))]
fn gap_at(circuit: &Record, j: usize) -> bool
    requires { j < word_end }
    ensures { result ≡ gap circuit.now.file.now circuit.now.start j }
{
    if j == 0 {
        return false;
    }
    let x = circuit.hop(j - 1);
    let y = circuit.hop(j);
    link(circuit.file, x).to != link(circuit.file, y).from
}

// Hop j has the buffer of an earlier hop, or does not join the hop before it.
#[tactic(auto, unfolding(model::specs::Reading::broken_at))]
fn broken(circuit: &Record, j: usize) -> bool
    requires { j < word_end }
    ensures { result ≡ broken_at circuit.now.file.now circuit.now.start j }
{
    let buffer = circuit.hop(j);
    (0..j).any(|i| circuit.hop(i) == buffer) || gap_at(circuit, j)
}

// The tests on the spare byte and the path of a circuit's record.
#[tactic(auto, using(file_records::proofs::Laws::tests), unfolding(model::specs::Reading::circuit_body, model::specs::Tests::neg))]
fn circuit_body(circuit: &Record) -> Result<(), Fault>
    ensures { result ≡ circuit_body circuit.now.file.now circuit.now.start }
{
    if circuit.byte(CIRCUIT_SPARE_AT) != 0 {
        return Err(Fault::Value);
    }
    let hops = circuit.byte(HOPS_AT);
    let buffers = word(circuit.file, BUFFERS_AT);
    if (0..hops).any(|j| buffers <= circuit.hop(j)) {
        return Err(Fault::Value);
    }
    if (0..hops).any(|j| broken(circuit, j)) {
        return Err(Fault::Path);
    }
    Ok(())
}

// The verdict on a circuit's record, behind n others.
#[tactic(auto, unfolding(model::specs::Reading::circuit_verdict))]
pub fn verdict(circuit: &Record, n: usize) -> Result<(), Fault>
    ensures { result ≡ circuit_verdict circuit.now.file.now n circuit.now.start }
{
    circuit_head(circuit, n)?;
    circuit_body(circuit)
}
