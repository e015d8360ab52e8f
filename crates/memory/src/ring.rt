// The half that both kinds of memory share: the rows and the readings, in slices that the caller lends. The row of an
// index i is that at i % (W + 1). It speaks for i only if it is stamped with i: otherwise i is blank, so that nothing has
// to be cleared when the window moves on. The readings of the row at k stand at k * N to k * N + N - 1.
ghost use Rattle.std.specs.Prelude.{◌≡◌, ℕ, ◌+◌, ◌*◌, ◌%◌, ◌<◌, ◌≤◌, not, length, is_ok, if◌then◌else◌, Decides};
ghost use Rattle.answer.specs.Numbers.{answered};
ghost use Rattle.rules.specs.Counting.{first_no};
ghost use Rattle.rules.specs.Sensing.{Nothing, index_questions, resource_questions, asked_mark, asked_reading, listened, sent as was_sent};
ghost use Rattle.sensing.specs.declared.State.TheVariants.{Listened, Sent};
ghost use Rattle.sensing.specs.Memories.{marked, reading_of};
ghost use Rattle.memory.specs.RowCells.{Upto};
ghost use Rattle.memory.specs.Fits.{FitsRing};

use crate::rows::{Row, read, stamp};
use answer::Refusal;
use sensing::State;

#[derive(Drop)]
pub struct Ring<'a> {
    rows: &'a mut [Row],
    readings: &'a mut [u32],
    pub(crate) channels: u8,
    pub(crate) window: u64,
    pub(crate) next: u64,
    ghost short: { window ≤ 1000 },
    ghost long: { window < length rows.now },
    ghost wide: { (window + 1) * channels ≤ length readings.now },
    ghost upto: { Upto next rows.now },
}

// Can a ring for N sub-channels and a window of W be made over these slices? It takes W + 1 rows, and N readings for each
// of them.
pub(crate) fn fits(channels: u8, window: u64, rows: &[Row], readings: &[u32]) -> Result<(), Refusal>
    ensures exact { Decides (is_ok result) (FitsRing channels window (length rows.now) (length readings.now)) }
    ensures answer { answered result ≡ (if is_ok result then 0 else 17) }
{
    if !matches!(channels, 1..=20) || window > 1000 {
        return Err(Refusal::Lent);
    }
    let rows_wanted = window as usize + 1;
    if rows.len() < rows_wanted || readings.len() < rows_wanted * usize::from(channels) {
        return Err(Refusal::Lent);
    }
    Ok(())
}

impl<'a> Ring<'a> {
    ghost use Rattle.memory.specs.Rings.{alone, stamped, place, Claimed, Written, Slid};

    // A ring in which every index is blank, whatever the slices hold. The memory over it says which index is next.
    pub(crate) fn new(
        channels: u8,
        window: u64,
        next: u64,
        rows: &'a mut [Row],
        readings: &'a mut [u32],
    ) -> Ring<'a>
        requires { FitsRing channels window (length rows.old) (length readings.old) }
        ensures channels { result.channels ≡ channels }
        ensures window { result.window ≡ window }
        ensures next { result.next ≡ next }
        ensures nothing { Nothing (alone result) }
    {
        rows.fill(Row::default());
        Ring {
            rows,
            readings,
            channels,
            window,
            next,
        }
    }

    // Is the index inside?
    fn ask(&self, index: u64) -> Result<(), Refusal>
        ensures { answered result ≡ first_no (index_questions (alone self.now) index) }
    {
        if index > self.next || self.next - index > self.window {
            return Err(Refusal::Outside);
        }
        Ok(())
    }

    // Is the index inside, and is the resource one of the pool's?
    pub(crate) fn ask_at(&self, index: u64, resource: u8) -> Result<(), Refusal>
        ensures { answered result ≡ first_no (resource_questions (alone self.now) index resource) }
    {
        self.ask(index)?;
        if resource >= self.channels {
            return Err(Refusal::Resource);
        }
        Ok(())
    }

    // The place of a resource of the index, among as many as there are resources in all rows.
    pub(crate) fn place(&self, index: u64, resource: u8) -> usize
        ensures { result ≡ place self.now index resource }
    {
        (index % (self.window + 1)) as usize * usize::from(self.channels) + usize::from(resource)
    }

    // Is the row of the index stamped with it?
    pub(crate) fn stands(&self, index: u64) -> bool
        ensures { result ≡ stamped self.now index }
    {
        read(self.rows, self.window, index).index == index
    }

    // The state of an index.
    pub(crate) fn state(&self, index: u64) -> Result<State, Refusal>
        ensures { marked result ≡ asked_mark (alone self.now) index }
    {
        self.ask(index)?;
        if !self.stands(index) {
            return Ok(State::Blank);
        }
        Ok(read(self.rows, self.window, index).state)
    }

    // The reading of a sub-channel at an index.
    pub(crate) fn reading(&self, index: u64, resource: u8) -> Result<Option<u32>, Refusal>
        ensures { reading_of result ≡ asked_reading (alone self.now) index resource }
    {
        self.ask_at(index, resource)?;
        if self.state(index)? != State::Listened {
            return Ok(None);
        }
        Ok(Some(self.readings[self.place(index, resource)]))
    }

    // Makes n the next index, and leaves the rows as they are.
    pub(crate) fn slide(&mut self, n: u64)
        requires { self.old.next ≤ n }
        ensures { Slid n self.old self.new }
    {
        self.next = n;
    }

    // Makes the row of the index blank and stamps it, unless it is stamped already. No cell changes by that. Was the row
    // another index's? A bool answers it, since nothing comes with the answer. Each call has an index of its own, so that it
    // is not past the next one is asked here and below, and not of a type.
    pub(crate) fn claim(&mut self, index: u64) -> bool
        requires { index ≤ self.old.next }
        ensures other { result ≡ not (stamped self.old index) }
        ensures done { Claimed index self.old self.new }
        ensures readings { self.new.readings.now ≡ self.old.readings.now }
    {
        if self.stands(index) {
            return false;
        }
        stamp(self.rows, self.window, index, State::Blank);
        true
    }

    // Marks the index as sent in, and stamps its row with it.
    pub(crate) fn mark_sent(&mut self, index: u64)
        requires { index ≤ self.old.next }
        ensures done { Written index Sent was_sent self.old self.new }
        ensures readings { self.new.readings.now ≡ self.old.readings.now }
    {
        stamp(self.rows, self.window, index, State::Sent);
    }

    // Keeps the readings of all sub-channels at the index, and stamps its row with it.
    pub(crate) fn keep_readings(&mut self, index: u64, new: &[u32])
        requires upto { index ≤ self.old.next }
        requires many { length new.now ≡ self.old.channels }
        ensures done { Written index Listened (listened new.now) self.old self.new }
        ensures size { length self.new.readings.now ≡ length self.old.readings.now }
    {
        let at = self.place(index, 0);
        self.readings[at..at + new.len()].copy_from_slice(new);
        stamp(self.rows, self.window, index, State::Listened);
    }
}
