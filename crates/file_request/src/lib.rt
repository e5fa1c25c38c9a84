// Reads the bytes of a request and copies none of them: `read` tests the whole file and tells where each circuit's record
// starts. Assumes nothing.
#![tactic(auto)]

ghost use Rattle.std.specs.Prelude.{◌≡◌, ◌≤◌, length};
ghost use Rattle.model.specs.Reading.{request_step, request_walk};
ghost use Rattle.file_records.specs.Walks.{places_of};

use file_records::{Places, Record};
use model::{Damage, HEAD_SIZE, Kind};

// What stands at p, behind n circuits.
#[tactic(auto, unfolding(model::specs::Reading::request_step))]
fn step_at(s: &[u8], n: usize, p: usize) -> Result<Option<usize>, Damage>
    requires { p ≤ length s.now }
    ensures { result ≡ request_step s.now n p }
{
    let circuit = Record { file: s, start: p };
    circuit.step(
        Kind::Circuit.into(),
        false,
        file_circuit::verdict(&circuit, n),
    )
}

// Reads the whole file.
#[tactic(auto, unfolding(model::specs::Reading::request_walk))]
pub fn read(s: &[u8]) -> Result<Places, Damage>
    ensures { result ≡ places_of (request_walk s.now) }
{
    file_network::verdict(s).map_err(|fault| fault.at(0))?;
    file_records::places(
        HEAD_SIZE + file_records::word(s, 0),
        |n, p| step_at(s, n, p),
    )
}
