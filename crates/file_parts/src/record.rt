// The circuits of a request, the owners of its buffers, and the parts of each circuit. Assumes nothing.

ghost use Rattle.std.specs.Prelude.{◌≡◌, ◌<◌, length};
ghost use Rattle.model.specs.Network.{circuit_of, hops};
ghost use Rattle.file_parts.specs.Parts.{DemandIs, HopsIs, HopIs, FromIs};
ghost use Rattle.file_parts.specs.Records.{asked, recorded};

use crate::{CircuitRecord, Request};
use file_records::Record;
use model::{CYCLE_AT, DEMAND_AT, HOPS_AT};
use num_divisor::Cycle;

impl<'a> Request<'a> {
    // How many circuits there are.
    pub fn len(&self) -> usize
        ensures { result ≡ length (asked self.now).circuits }
    {
        self.starts.len()
    }

    // The record of circuit c.
    pub fn circuit(&self, c: usize) -> CircuitRecord<'a>
        requires { c < length (asked self.now).circuits }
        ensures file { result.request.file.now ≡ self.now.file.now }
        ensures circuit { recorded result ≡ circuit_of (asked self.now) c }
    {
        CircuitRecord {
            request: *self,
            start: self.starts[c],
        }
    }

    // The router that owns buffer b.
    pub fn owner(&self, b: u16) -> u8
        requires { b < length (asked self.now).network.links }
        ensures { FromIs (asked self.now).network b result }
    {
        file_records::link(self.file, usize::from(b)).from
    }
}

impl<'a> CircuitRecord<'a> {
    pub fn cycle(&self) -> Cycle
        ensures { result.slots ≡ (recorded self.now).cycle }
    {
        Cycle {
            slots: file_records::byte(self.request.file, self.start + CYCLE_AT),
        }
    }

    pub fn demand(&self) -> usize
        ensures { DemandIs (recorded self.now) result }
    {
        file_records::byte(self.request.file, self.start + DEMAND_AT)
    }

    // How many hops there are.
    pub fn hops(&self) -> usize
        ensures { HopsIs (recorded self.now) result }
    {
        file_records::byte(self.request.file, self.start + HOPS_AT)
    }

    // The buffer of hop j.
    pub fn hop(&self, j: usize) -> u16
        requires { j < hops (recorded self.now) }
        ensures { HopIs (asked self.now.request).network (recorded self.now) j result }
    {
        Record {
            file: self.request.file,
            start: self.start,
        }
        .hop(j) as u16
    }
}
