// Bytes and numbers of a file by position, 0 past the end, and what all three files share: the step
// over a record, and the walk over all. Assumes nothing.
#![tactic(auto)]

ghost use Rattle.std.specs.Prelude.{◌≡◌, ℕ, suc, ◌+◌, ◌≤◌, ◌<◌, ◌^◌, [], length};
ghost use Rattle.model.specs.Sizes.{circuits_most, word_end};
ghost use Rattle.model.specs.Bytes.{byte_at};
ghost use Rattle.model.specs.Reading.{link_at, line_at, path_place, have, Step, end_step, step_at, walk};
ghost use Rattle.file_records.specs.Fields.{Byte, Word};
ghost use Rattle.file_records.specs.Walks.{Walkable, Tells, Keepable, Walks, places_of, count_of};

use arrayvec::ArrayVec;
use model::{
    CIRCUITS_MOST, Damage, FROM_AT, Fault, HEAD_SIZE, HOP_SIZE, IN_AT, KIND_AT, Kind, LINE_BYTES,
    LINK_SIZE, Line, Link, OUT_AT, PATH_AT, PERIOD_AT, ROUTER_AT, SLOT_AT, TO_AT,
};

// Where the records of a file start.
pub type Places = ArrayVec<usize, CIRCUITS_MOST>;

// The byte at i.
pub fn byte(s: &[u8], i: usize) -> usize
    ensures { Byte s.now i result }
{
    if i < s.len() { usize::from(s[i]) } else { 0 }
}

// The byte at i, where the file has one.
pub fn byte_in(s: &[u8], i: usize) -> u8
    requires { i < length s.now }
    ensures { result ≡ byte_at s.now i }
{
    s[i]
}

// The number of the two bytes at i.
pub fn word(s: &[u8], i: usize) -> usize
    requires { i + 1 < 2 ^ 64 }
    ensures { Word s.now i result }
{
    byte(s, i) + 256 * byte(s, i + 1)
}

// A byte of a file where a record may start.
#[derive(Clone, Copy)]
pub struct Record<'a> {
    pub file: &'a [u8],
    pub start: usize,
    ghost inside: { start ≤ length file.now },
}

impl<'a> Record<'a> {
    // The byte so many behind the start.
    pub fn byte(&self, at: usize) -> usize
        requires { at < 2 ^ 32 }
        ensures { Byte self.now.file.now (self.now.start + at) result }
    {
        byte(self.file, self.start + at)
    }

    // The number of the two bytes there.
    pub fn word(&self, at: usize) -> usize
        requires { at < 2 ^ 32 }
        ensures { Word self.now.file.now (self.now.start + at) result }
    {
        word(self.file, self.start + at)
    }

    // The length that the record's head tells.
    pub fn length(&self) -> usize
        ensures { Word self.now.file.now self.now.start result }
    {
        word(self.file, self.start)
    }

    // The bytes from the start to the end of the file.
    pub fn room(&self) -> usize
        ensures { result ≡ have self.now.file.now self.now.start }
    {
        self.file.len() - self.start
    }

    // The buffer of hop j, where this is a circuit's record.
    pub fn hop(&self, j: usize) -> usize
        requires { j < word_end }
        ensures { Word self.now.file.now (path_place self.now.start j) result }
    {
        self.word(PATH_AT + HOP_SIZE * j)
    }

    // The end record, which comes too early where `early` says so.
    #[tactic(auto, using(crate::proofs::Laws::tests), unfolding(model::specs::Reading::end_step, model::specs::Tests::neg))]
    fn end_step(&self, early: bool) -> Result<Option<usize>, Damage>
        ensures { result ≡ end_step self.now.file.now self.now.start early }
    {
        if early {
            return Err(Fault::Offsets.at(self.start));
        }
        if self.length() != 0 {
            return Err(Fault::Length.at(self.start));
        }
        let behind = self.start + HEAD_SIZE;
        if behind < self.file.len() {
            return Err(Fault::After.at(behind));
        }
        Ok(None)
    }

    // What stands here: a record of the kind with this number, on which the verdict is v, or the end record, or neither.
    #[tactic(auto, using(crate::proofs::Laws::tests), unfolding(model::specs::Reading::step_at))]
    pub fn step(
        &self,
        kind: usize,
        early: bool,
        v: Result<(), Fault>,
    ) -> Result<Option<usize>, Damage>
        ensures { result ≡ step_at kind early v self.now.file.now self.now.start }
    {
        if self.room() < HEAD_SIZE {
            return Err(Fault::Cut.at(self.start));
        }
        let found = self.word(KIND_AT);
        if found == usize::from(Kind::End) {
            return self.end_step(early);
        }
        if found != kind {
            return Err(Fault::Kind.at(self.start));
        }
        let start = self.start;
        v.map_err(|fault| fault.at(start))?;
        Ok(Some(start + HEAD_SIZE + self.length()))
    }
}

// Goes over the records from the byte `first` on, at most so many: `step` tells what stands at a byte
// behind so many records, and `keep` notes where each starts.
fn walk<A, F, K>(first: usize, most: usize, step: F, mut kept: A, keep: K) -> Result<A, Damage>
where
    A: Drop,
    F: Fn(usize, usize) -> Result<Option<usize>, Damage>,
    K: Fn(&mut A, usize),
    requires steps { Walkable (F.pre step) (F.post step) first most }
    requires keeps { Keepable (K.pre keep) (K.post keep) kept most }
    ensures { (said : ℕ → ℕ → Step) → Tells (F.post step) said → Walks (K.post keep) kept (walk (suc most) said [] first) result }
{
    let mut p = first;
    for n in 0..=most {
        let Some(next) = step(n, p)? else {
            return Ok(kept);
        };
        keep(&mut kept, p);
        p = next;
    }
    Err(Fault::Count.at(p))
}

// Where the records from the byte `first` on start, at most one for each circuit.
pub fn places<F: Fn(usize, usize) -> Result<Option<usize>, Damage>>(
    first: usize,
    step: F,
) -> Result<Places, Damage>
    requires { Walkable (F.pre step) (F.post step) first circuits_most }
    ensures { (said : ℕ → ℕ → Step) → Tells (F.post step) said → result ≡ places_of (walk (suc circuits_most) said [] first) }
{
    walk(
        first,
        CIRCUITS_MOST,
        step,
        Places::new(),
        |starts, p| starts.push(p),
    )
}

// How many records stand from the byte `first` on, at most so many.
pub fn count<F: Fn(usize, usize) -> Result<Option<usize>, Damage>>(
    first: usize,
    most: usize,
    step: F,
) -> Result<usize, Damage>
    requires { Walkable (F.pre step) (F.post step) first most }
    ensures { (said : ℕ → ℕ → Step) → Tells (F.post step) said → result ≡ count_of (walk (suc most) said [] first) }
{
    walk(first, most, step, 0, |records, _| *records += 1)
}

// ---- Parts of a request and of a table that more than one reader asks for.

// The link of buffer b.
pub fn link(s: &[u8], b: usize) -> Link
    requires { b < word_end }
    ensures { result ≡ link_at s.now b }
{
    Link {
        from: byte(s, FROM_AT + LINK_SIZE * b) as u8,
        to: byte(s, TO_AT + LINK_SIZE * b) as u8,
    }
}

// The line whose record starts at p.
pub fn line(s: &[u8], p: usize) -> Line
    requires { p + LINE_BYTES < 2 ^ 64 }
    ensures { result ≡ line_at s.now p }
{
    Line {
        router: byte(s, p + ROUTER_AT) as u8,
        period: byte(s, p + PERIOD_AT) as u8,
        slot: byte(s, p + SLOT_AT) as u8,
        inp: word(s, p + IN_AT) as u16,
        out: word(s, p + OUT_AT) as u16,
    }
}
