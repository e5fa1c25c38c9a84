// Records as bytes, and bytes laid into an output area with room. Assumes nothing.
#![tactic(auto)]

ghost use Rattle.std.specs.Prelude.{◌≡◌, [], ◌++◌, ◌+◌, ◌≤◌, length};
ghost use Rattle.model.specs.Sizes.{head_size, end_kind};
ghost use Rattle.model.specs.Bytes.{word, kind_number, record_of};
ghost use Rattle.file_writer.specs.Pasting.{Laid};

use model::{HEAD_SIZE, Kind};

// What stands in front of a record's body: its length and its kind.
pub fn head(len: u16, kind: Kind) -> [u8; HEAD_SIZE]
    ensures { result ≡ word len ++ word (kind_number kind) }
{
    let [len_low, len_high] = len.to_le_bytes();
    let [kind_low, kind_high] = (kind as u16).to_le_bytes();
    [len_low, len_high, kind_low, kind_high]
}

// Lays the bytes into the area from `at` on; and the place behind them.
pub fn put(out: &mut [u8], at: usize, bytes: &[u8]) -> usize
    requires { at + length bytes.now ≤ length out.old }
    ensures { Laid out.old at bytes.now out.new result }
{
    let end = at + bytes.len();
    out[at..end].copy_from_slice(bytes);
    end
}

// The end record; and the place behind it.
pub fn put_end(out: &mut [u8], at: usize) -> usize
    requires { at + head_size ≤ length out.old }
    ensures { Laid out.old at (record_of end_kind []) out.new result }
{
    put(out, at, &head(0, Kind::End))
}
