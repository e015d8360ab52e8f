// One list of deliveries, resends and slides over a dense and a sparse memory, with their answers side by side.
#![tactic(auto)]

use answer::Refusal;
use memory::dense::Dense;
use memory::entries::Entry;
use memory::rows::Row;
use memory::sparse::Sparse;
use sensing::{Held, Keeping, Kept, State};
use std::fmt;

// The memories are for three sub-channels and a window of 100 indices.
const CHANNELS: u8 = 3;

const WINDOW: u64 = 100;

// A row for each index of the window, and a reading for each sub-channel of a row. By `as`, since a constant calls no function.
const ROWS: usize = WINDOW as usize + 1;

const CELLS: usize = ROWS * CHANNELS as usize;

// What a memory is lent, with K places. The rows and the readings hold something already, which a new memory does not see.
#[derive(Drop)]
struct Lent<P, const K: usize> {
    rows: [Row; ROWS],
    readings: [u32; CELLS],
    places: [Option<P>; K],
}

impl<P: Copy, const K: usize> Lent<P, K> {
    fn new() -> Lent<P, K> {
        let used = Row {
            index: 7,
            state: State::Sent,
        };
        Lent {
            rows: [used; ROWS],
            readings: [9; CELLS],
            places: [None; K],
        }
    }
}

// A call on a memory.
#[derive(Clone, Copy)]
enum Step {
    Slide(u64),
    Record(u64, u8, [u8; 4], i16),
    Readings(u64, [u32; 3]),
    Sent(u64),
}

impl fmt::Display for Step {
    fn fmt<W: fmt::Write>(&self, f: &mut fmt::Formatter<W>) -> fmt::Result {
        match *self {
            Step::Slide(n) => write!(f, "slide {n}"),
            Step::Record(index, resource, bytes, rsrp) => {
                let word = u32::from_be_bytes(bytes);
                write!(f, "record {index} {resource} {word:08x} {rsrp}")
            }
            Step::Readings(index, readings) => {
                let [a, b, c] = readings;
                write!(f, "readings {index} {a} {b} {c}")
            }
            Step::Sent(index) => write!(f, "sent {index}"),
        }
    }
}

// A record of code 1 and length 1, and one of code 13.
const PLAIN: [u8; 4] = [2, 0, 0, 0];

const WRONG: [u8; 4] = [26, 0, 0, 0];

const STEPS: [Step; 25] = [
    Step::Slide(99),
    Step::Slide(1000),
    Step::Record(1000, 1, PLAIN, -900),
    Step::Record(1000, 1, PLAIN, -900),
    Step::Record(1000, 1, PLAIN, -901),
    Step::Record(1000, 3, PLAIN, -900),
    Step::Record(1000, 0, WRONG, -900),
    Step::Record(1000, 0, [2, 0, 0, 1], -900),
    Step::Record(1000, 0, PLAIN, 1),
    Step::Record(899, 0, PLAIN, -900),
    Step::Record(1001, 0, PLAIN, -900),
    Step::Readings(990, [5, 6, 7]),
    Step::Readings(990, [5, 6, 7]),
    Step::Readings(990, [5, 6, 8]),
    Step::Readings(991, [5, 6, 4_000_000_001]),
    Step::Sent(990),
    Step::Sent(1000),
    Step::Sent(995),
    Step::Record(995, 0, PLAIN, -900),
    Step::Record(996, 0, PLAIN, -900),
    Step::Record(997, 0, PLAIN, -900),
    Step::Record(998, 0, PLAIN, -900),
    Step::Record(999, 0, PLAIN, -900),
    Step::Slide(1097),
    Step::Record(1097, 2, PLAIN, -900),
];

// What a memory answers to a call. Where a slide or a mark is done, something is new.
fn perform<M: Keeping>(m: &mut M, step: Step) -> Result<Kept, Refusal> {
    match step {
        Step::Slide(n) => m.slide(n).map(|()| Kept::New),
        Step::Record(index, resource, bytes, rsrp) => m.keep_record(index, resource, bytes, rsrp),
        Step::Readings(index, readings) => m.keep_readings(index, &readings),
        Step::Sent(index) => m.mark_sent(index).map(|()| Kept::New),
    }
}

// The number of an answer: 0 for new, 1 for what was held already, or the refusal's.
fn number(answer: Result<Kept, Refusal>) -> u8 {
    match answer {
        Ok(Kept::Already) => 1,
        other => console::number(other),
    }
}

fn side_by_side<D: Keeping, S: Keeping>(
    rt: &HostRuntime,
    dense: &mut D,
    sparse: &mut S,
) -> anyhow::Result<()> {
    let mut alike = true;
    for step in STEPS {
        let a = perform(dense, step);
        let b = perform(sparse, step);
        alike = alike && (a == b || b == Err(Refusal::Full));
        let (a, b) = (number(a), number(b));
        println!(rt; "{a:02} {b:02} {step}")?;
    }
    let word = if alike {
        "alike but for 31"
    } else {
        "not alike"
    };
    println!(rt; "{word}")?;
    Ok(())
}

fn run(rt: &HostRuntime) -> anyhow::Result<()> {
    let mut a = Lent::<Held, CELLS>::new();
    let mut b = Lent::<Entry, 4>::new();
    let mut d = Dense::new(
        CHANNELS,
        WINDOW,
        &mut a.rows,
        &mut a.readings,
        &mut a.places,
    );
    let mut s = Sparse::new(
        CHANNELS,
        WINDOW,
        &mut b.rows,
        &mut b.readings,
        &mut b.places,
    );
    side_by_side(rt, &mut d, &mut s)
}

fn main(rt: HostRuntime) -> anyhow::Result<()> {
    run(&rt)
}
