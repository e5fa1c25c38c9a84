// A request without a fault, read in place, and the records of its circuits. Assumes nothing.
#![tactic(auto)]

ghost use Rattle.file_parts.specs.Parts.{Starts, StartsAt};

use file_records::Places;

mod record;

// The bytes of a request, and where the records of its circuits start.
#[derive(Clone, Copy)]
pub struct Request<'a> {
    pub file: &'a [u8],
    pub starts: &'a Places,
    ghost whole: { Starts file.now starts.now.items },
}

// The record of a circuit of the request, by the byte where it starts.
#[derive(Clone, Copy)]
pub struct CircuitRecord<'a> {
    pub request: Request<'a>,
    pub start: usize,
    ghost here: { StartsAt request.file.now start },
}
