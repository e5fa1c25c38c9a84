// The assignment as a file: the offsets of each circuit, laid into an area with room. Assumes nothing.
#![tactic(auto)]

ghost use Rattle.std.specs.Prelude.{◌+◌, ◌≤◌, map, length};
ghost use Rattle.model.specs.Jobs.{assignment_bytes};
ghost use Rattle.num_mask.specs.Bits.{offsets};
ghost use Rattle.file_writer.specs.Pasting.{Laid};
ghost use Rattle.file_writer.specs.Files.{Wrote};
ghost use Rattle.slot_writer.specs.Files.{offsets_record};

use model::Kind;

// The offsets of a mask, rising, a byte for each; and the place behind them.
fn put_places(out: &mut [u8], at: usize, mask: u32) -> usize
    requires { at + length (offsets mask) ≤ length out.old }
    ensures { Laid out.old at (offsets mask) out.new result }
{
    let mut next = at;
    for offset in num_mask::offsets(mask) {
        next = file_writer::put(out, next, &[offset as u8]);
    }
    next
}

// The offsets record of a mask; and the place behind it.
fn put_offsets(out: &mut [u8], at: usize, mask: u32) -> usize
    requires { at + length (offsets_record mask) ≤ length out.old }
    ensures { Laid out.old at (offsets_record mask) out.new result }
{
    let head = file_writer::head(num_mask::size(mask) as u16, Kind::Offsets);
    let next = file_writer::put(out, at, &head);
    put_places(out, next, mask)
}

// The assignment by the mask of each circuit: an offsets record for each, and the end record. It says how many bytes that is.
pub fn write_assignment(masks: &[u32], out: &mut [u8]) -> usize
    requires { length (assignment_bytes (map offsets masks.now)) ≤ length out.old }
    ensures { Wrote (assignment_bytes (map offsets masks.now)) out.old out.new result }
{
    let mut at = 0;
    for mask in masks {
        at = put_offsets(out, at, *mask);
    }
    file_writer::put_end(out, at)
}
