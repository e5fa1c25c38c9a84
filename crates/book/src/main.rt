// The booking program: reads a request from standard input, allocates slots with a budget of 1,000,000 visits, makes the table and
// writes its lines; or writes what was refused. Where standard input cannot be read it says so on standard error and writes nothing else.
// A write that fails ends it with an error. Assumes what std assumes of the system's calls.
#![tactic(auto)]

ghost use Rattle.std.specs.Prelude.{◌<◌, ◌≤◌, length, take, IfOk};
ghost use Rattle.std.specs.Io.KnownBytes.{Consumes, IsAtEnd};

use model::Answer;
use std::io;
use std::io::{Cursor, Read, Write};

const BUDGET: u32 = 1_000_000;

// What is read of a request, which is more than the longest good one has, and the area for its assignment.
const FILE_AREA: usize = 4096;

// The area for a table, which is more than the longest one has.
const TABLE_AREA: usize = 65_536;

// What stands between an error's words and its number.
const CODE: &str = " (os error ";

// The area for an error's words.
const REASON_AREA: usize = 512;

fn main(rt: HostRuntime) -> io::Result<()> {
    let mut request = [0u8; FILE_AREA];
    match read_full(&mut rt.stdin(), &mut request) {
        Ok(size) => book(&mut io::writer(&rt), &request[..size]),
        Err(error) => fail(&rt, error),
    }
}

// Reads until the area is full or the input ends, and returns how many bytes it put at the area's front: those that it took of the
// input, and all of them where the area is not full. Ends with the first read that fails.
fn read_full<R: Read>(input: &mut R, area: &mut [u8]) -> io::Result<usize>
    ensures bound { IfOk result (λ n. n ≤ length area.new) }
    ensures bytes { IfOk result (λ n. Consumes (R.remaining input.old) (R.remaining input.new) (take n area.new)) }
    ensures end { IfOk result (λ n. n < length area.new → IsAtEnd (R.remaining input.new)) }
{
    let mut done = 0;
    while done < area.len() {
        let got = input.read(&mut area[done..])?;
        if got == 0 {
            return Ok(done);
        }
        done += got;
    }
    Ok(done)
}

// Says on standard error that standard input cannot be read, and why.
fn fail<R: Eprint>(rt: &R, error: io::Error) -> io::Result<()> {
    let mut area = [0u8; REASON_AREA];
    let reason = reason(error, &mut area);
    eprintln!(rt; "standard input: {reason}")
}

// The words of an error, without the system's number behind them. They are put into the area, and are empty where it is too small.
fn reason(error: io::Error, area: &mut [u8]) -> &str {
    let mut said = Cursor::new(&mut area[..]);
    if write!(said, "{error}{CODE}").is_err() {
        return "";
    }
    match str::from_utf8(area) {
        Ok(text) => front(text),
        Err(_) => "",
    }
}

// What stands before the number.
fn front(text: &str) -> &str {
    match text.split_once(CODE) {
        Some((words, _)) => words,
        None => text,
    }
}

fn book<W: Write>(out: &mut W, request: &[u8]) -> io::Result<()> {
    let mut assignment = [0u8; FILE_AREA];
    match vaskunoor::allocate(request, BUDGET, &mut assignment) {
        Answer::Allocated { visits, bytes } => make(out, request, &assignment, bytes, visits),
        refusal => tool_say::refused(out, refusal),
    }
}

// Makes the table of the assignment, which is the first `size` bytes of its area.
fn make<W: Write>(
    out: &mut W,
    request: &[u8],
    area: &[u8],
    size: u32,
    visits: u32,
) -> io::Result<()> {
    let written = area.len().min(size as usize);
    let mut table = [0u8; TABLE_AREA];
    match vaskunoor::make_tables(request, &area[..written], &mut table) {
        Answer::Made { bytes } => show(out, &table, bytes, visits),
        refusal => tool_say::refused(out, refusal),
    }
}

fn show<W: Write>(out: &mut W, area: &[u8], size: u32, visits: u32) -> io::Result<()> {
    let written = area.len().min(size as usize);
    let lines = tool_say::line_count(written);
    writeln!(out, "done visits {visits} lines {lines}")?;
    tool_say::lines(out, &area[..written])
}
