// What a report answers, and the marks of its places.
ghost use Rattle.std.specs.Prelude.{◌≡◌, ℕ, ◌≤◌, length};
ghost use Rattle.selecting.specs.Made.{shown, left};
ghost use Rattle.selecting.specs.Marks.{asked_place, answered_place, Unmarked};

use crate::{Place, Report};
use answer::Refusal;
use choosing::Question;

impl Report {
    // How many raises the selection took.
    pub fn raise(&self) -> u8
        ensures { result ≡ self.now.raise }
    {
        self.raise
    }

    // How many places it has, marked or not.
    pub fn size(&self) -> usize
        ensures value { result ≡ length (shown self.now) }
        ensures few { result ≤ 400 }
    {
        self.places.len()
    }

    // The question that it answers.
    pub fn question(&self) -> Question
        ensures { result ≡ self.now.question }
    {
        self.question
    }

    // The distance between two turns of that question, in indices.
    pub fn apart(&self) -> u32
        ensures { result ≡ self.now.apart }
    {
        self.apart
    }

    // How many places are still marked.
    pub fn left(&self) -> usize
        ensures value { result ≡ length (left self.now) }
        ensures few { result ≤ 400 }
    {
        self.marked.len()
    }

    // The subframe and the first sub-channel of place i, in order of index and then sub-channel among those still marked.
    pub fn place(&self, i: usize) -> Result<(u64, u8), Refusal>
        ensures { answered_place result ≡ asked_place self.now i }
    {
        let place = self.marked.get(i).ok_or(Refusal::NoPlace)?;
        Ok((place.subframe, place.channel))
    }

    // Gives place i of those still marked, and marks it no more.
    pub fn unmark(&mut self, i: usize) -> Result<Place, Refusal>
        ensures { Unmarked self.old i result self.new }
    {
        // A test before `remove`: with `pop_at` the proof is three times as long, and goes into what the library keeps to itself.
        if i >= self.marked.len() {
            return Err(Refusal::NoPlace);
        }
        Ok(self.marked.remove(i))
    }
}
