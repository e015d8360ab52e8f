// A sensing memory by its meaning: what it answers, and what its calls add.
#![tactic(auto)]

ghost use Rattle.std.specs.Prelude.{◌≡◌, ℕ, ◌<◌, ◌≤◌, true, false, length, Decides, ◌≢◌};
ghost use Rattle.answer.specs.Numbers.{answered};
ghost use Rattle.rules.specs.Counting.{first_no};
ghost use Rattle.rules.specs.Sensing.{Meaning, Sound, Nothing, Inside, bare, readings_ok, listened, sent as was_sent, asked_mark, asked_reading, asked_record, record_answer, readings_answer, sent_questions, slide_questions, heard_as, Moved, Added, Changed};
ghost use Rattle.sensing.specs.Memories.{marked, reading_of, record_in, kept, Heard, Compared, Examined, ExaminedReadings, ExaminedSent, SameReadings};

use answer::Refusal;
use format1::{Record, read};

// What is held for an index.
#[derive(Clone, Copy, PartialEq, Eq, Debug, Default)]
pub enum State {
    #[default]
    Blank,
    Listened,
    Sent,
}

// A record with its RSRP in tenths of a dBm.
#[derive(Clone, Copy, PartialEq, Eq, Debug)]
pub struct Held {
    pub what: Record,
    pub rsrp: i16,
}

// What became of a record or of readings that were accepted.
#[derive(Clone, Copy, PartialEq, Eq, Debug)]
pub enum Kept {
    New,
    Already,
}

// The questions. None of them changes anything.
pub trait Asking {
    // What the memory holds.
    ghost meaning: { Self → Meaning };

    // Each memory proves this of all its values.
    ghost sound: { (m : Self) → Sound (meaning m) };

    // N, the number of sub-channels.
    fn channels(&self) -> u8
        ensures { result ≡ (meaning self.now).channels };

    // W, the length of the window.
    fn window(&self) -> u64
        ensures { result ≡ (meaning self.now).window };

    // n', the index of the first set subframe not before now.
    fn next_index(&self) -> u64
        ensures { result ≡ (meaning self.now).next };

    // The state of an index.
    fn state(&self, index: u64) -> Result<State, Refusal>
        ensures { marked result ≡ asked_mark (meaning self.now) index };

    // The reading of a sub-channel.
    fn reading(&self, index: u64, resource: u8) -> Result<Option<u32>, Refusal>
        ensures { reading_of result ≡ asked_reading (meaning self.now) index resource };

    // The record that was heard at a resource.
    fn record(&self, index: u64, resource: u8) -> Result<Option<Held>, Refusal>
        ensures { record_in result ≡ asked_record (meaning self.now) index resource };

    // Is no record held at any resource of the index?
    fn bare_at(&self, index: u64) -> bool
        ensures { result ≡ bare (meaning self.now) index }
    {
        // A `for`, since no proof was found of `all` over a question that a memory answers.
        for resource in 0..self.channels() {
            let Ok(held) = self.record(index, resource) else {
                return false;
            };
            if held.is_some() {
                return false;
            }
        }
        true
    }

    // Is nothing held?
    fn nothing_held(&self) -> bool
        ensures { Decides result (Nothing (meaning self.now)) }
    {
        let next = self.next_index();
        for index in next - self.window()..=next {
            let Ok(State::Blank) = self.state(index) else {
                return false;
            };
            if !self.bare_at(index) {
                return false;
            }
        }
        true
    }
}

// What adds to a memory. A refusal, and the answer that something is held already, leave the memory and what it was lent as they were.
pub trait Keeping: Asking {
    // Makes n the next index, and drops what is below n - W.
    fn slide(&mut self, n: u64) -> Result<(), Refusal>
        ensures answer { answered result ≡ first_no (slide_questions (Self.Asking.meaning self.old) n) }
        ensures done { answered result ≡ 0 → Moved (Self.Asking.meaning self.old) n (Self.Asking.meaning self.new) }
        ensures refused { (answered result ≢ 0) → self.new ≡ self.old };

    // Keeps the record that four bytes hold, heard at a resource of an index. Which place it is given is left open: it
    // is required only that the record then stands there, that no other is lost, and that 31 comes by their number. The four
    // parameters are what the receiver driver hands over, and its callers hold to them.
    fn keep_record(
        &mut self,
        index: u64,
        resource: u8,
        bytes: [u8; 4],
        rsrp: i16,
    ) -> Result<Kept, Refusal>
        ensures answer { kept result ≡ record_answer (Self.Asking.meaning self.old) index resource bytes rsrp }
        ensures done { kept result ≡ 0 → Added (Self.Asking.meaning self.old) index resource (heard_as (Self.Asking.meaning self.old).channels bytes rsrp) (Self.Asking.meaning self.new) }
        ensures refused { (kept result ≢ 0) → self.new ≡ self.old };

    // Keeps the readings of all sub-channels at an index.
    fn keep_readings(&mut self, index: u64, readings: &[u32]) -> Result<Kept, Refusal>
        ensures answer { kept result ≡ readings_answer (Self.Asking.meaning self.old) index readings.now }
        ensures done { kept result ≡ 0 → Changed (Self.Asking.meaning self.old) index (listened readings.now) (Self.Asking.meaning self.new) }
        ensures refused { (kept result ≢ 0) → self.new ≡ self.old };

    // Marks an index as sent in.
    fn mark_sent(&mut self, index: u64) -> Result<(), Refusal>
        ensures answer { answered result ≡ first_no (sent_questions (Self.Asking.meaning self.old) index) }
        ensures done { answered result ≡ 0 → Changed (Self.Asking.meaning self.old) index was_sent (Self.Asking.meaning self.new) }
        ensures refused { (answered result ≢ 0) → self.new ≡ self.old };
}

// The record that four bytes hold, with its RSRP, or the first question of 25 to 28 that is answered no.
fn heard(n: u8, resource: u8, bytes: [u8; 4], rsrp: i16) -> Result<Held, Refusal>
    ensures { Heard n resource bytes rsrp result }
{
    let what = read(n, resource, bytes)?;
    if !matches!(rsrp, -1600..=0) {
        return Err(Refusal::Rsrp);
    }
    Ok(Held { what, rsrp })
}

// The record to keep, absent where the same one is held; another one that is held stands in its way.
fn beside(held: Option<Held>, new: Held) -> Result<Option<Held>, Refusal>
    ensures { Compared held new result }
{
    let Some(old) = held else {
        return Ok(Some(new));
    };
    if old == new {
        return Ok(None);
    }
    Err(Refusal::OtherRecord)
}

// The record that a memory is asked to keep: absent where it is held already, or refused by the first question answered
// no. What is left to ask is whether a place is free. Its parameters are those of `keep_record`.
pub fn examine_record<M: Asking>(
    m: &M,
    index: u64,
    resource: u8,
    bytes: [u8; 4],
    rsrp: i16,
) -> Result<Option<Held>, Refusal>
    ensures { Examined (M.meaning m.now) index resource bytes rsrp result }
{
    let held = m.record(index, resource)?;
    let new = heard(m.channels(), resource, bytes, rsrp)?;
    let state = m.state(index)?;
    if state == State::Sent {
        return Err(Refusal::Sent);
    }
    beside(held, new)
}

// Are there n readings, each at most 4,000,000,000? The project wants a `for` here, which checks each against its limit.
#[tactic(auto, using(rules::proofs::Lists::every_below))]
fn readings_ok(n: u8, readings: &[u32]) -> bool
    ensures { result ≡ readings_ok n readings.now }
{
    if readings.len() != usize::from(n) {
        return false;
    }
    for reading in readings {
        if *reading > 4_000_000_000 {
            return false;
        }
    }
    true
}

// Are the readings of an index that was listened to these?
fn same_readings<M: Asking>(m: &M, index: u64, readings: &[u32]) -> bool
    requires { length readings.now ≡ (M.meaning m.now).channels }
    ensures { SameReadings (M.meaning m.now) index readings.now result }
{
    // By number: a memory is asked by that of a sub-channel, and no proof was found of `all` over what it answers.
    for (a, reading) in readings.iter().enumerate() {
        let Ok(Some(held)) = m.reading(index, a as u8) else {
            return false;
        };
        if held != *reading {
            return false;
        }
    }
    true
}

// What becomes of the readings that a memory is asked to keep: they are new or held already, or refused by the first
// question answered no.
pub fn examine_readings<M: Asking>(m: &M, index: u64, readings: &[u32]) -> Result<Kept, Refusal>
    ensures { ExaminedReadings (M.meaning m.now) index readings.now result }
{
    let state = m.state(index)?;
    if !readings_ok(m.channels(), readings) {
        return Err(Refusal::Readings);
    }
    match state {
        State::Sent => Err(Refusal::Sent),
        State::Blank => Ok(Kept::New),
        State::Listened if same_readings(m, index, readings) => Ok(Kept::Already),
        State::Listened => Err(Refusal::OtherReadings),
    }
}

// May a memory mark the index as sent in?
pub fn examine_sent<M: Asking>(m: &M, index: u64) -> Result<(), Refusal>
    ensures { ExaminedSent (M.meaning m.now) index result }
{
    if m.state(index)? != State::Blank || !m.bare_at(index) {
        return Err(Refusal::Occupied);
    }
    Ok(())
}
