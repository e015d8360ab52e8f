// Shows selections: reads scenes from standard input, fills a memory of each kind, puts the questions, and prints the
// candidates, the raise and the report. With no input it shows a built-in scene.
#![tactic(auto)]

use answer::Refusal;
use anyhow::anyhow;
use choosing::Question;
use choosing::finds::candidates;
use console::Offsets;
use lines::{Given, Line, Step, built_in, said};
use memory::dense::Dense;
use memory::entries::Entry;
use memory::rows::Row;
use memory::sparse::Sparse;
use memory::{dense, sparse};
use pool::{Pool, Settings};
use selecting::chooses::choose;
use selecting::{Raise, Report};
use sensing::{Asking, Held, Keeping, State};
use std::alloc::Global;
use std::io;
use std::ops::Range;

mod lines;

// Shown where the input is empty: the built-in pool, everything listened to, and three records one interval before the first
// candidates.
const EXAMPLE: &str = "listen 30000 30999 7
record 30904 0 02000000 -900
record 30905 1 02000000 -1050
record 30906 2 02000000 -1200
ask 1 1 1 0 4 20
";

// The present subframe of a scene that does not say.
const START: u64 = 31000;

// A pool, the present subframe, and what is given and asked there.
#[derive(Drop)]
struct Scene {
    settings: Settings,
    at: u64,
    steps: Vec<Step>,
}

// A unit at one subframe: its pool, its memory, and the raise that its selections share.
#[derive(Drop)]
struct Unit<'p, 'm, M> {
    pool: &'p Pool,
    memory: &'m mut M,
    at: u64,
    raise: Raise,
}

// The raise, the size and the places of a report, a line each.
fn write_report(text: &mut String, report: &Report) -> anyhow::Result<()> {
    let raise = report.raise();
    let size = report.size();
    writeln!(text, "raise {raise} size {size}")?;
    for (subframe, channel) in (0..size).filter_map(|i| report.place(i).ok()) {
        writeln!(text, "{subframe} {channel}")?;
    }
    Ok(())
}

impl<M: Keeping> Unit<'_, '_, M> {
    // Gives the memory something at an index. Of the refusals of records at all resources, the one of the largest number.
    fn keep(&mut self, index: u64, given: &Given) -> Option<Refusal> {
        let m = &mut *self.memory;
        match given {
            Given::Reading(reading) => {
                let n = usize::from(self.pool.channels().min(20));
                m.keep_readings(index, &[*reading; 20][..n]).err()
            }
            Given::Readings(readings) => m.keep_readings(index, readings.as_slice()).err(),
            Given::Sent => m.mark_sent(index).err(),
            Given::Record { resource, heard } => m
                .keep_record(index, *resource, heard.bytes, heard.rsrp)
                .err(),
            Given::Records(heard) => (0..self.pool.channels())
                .filter_map(|resource| {
                    m.keep_record(index, resource, heard.bytes, heard.rsrp)
                        .err()
                })
                .max_by_key(|refusal| refusal.number()),
        }
    }

    // The same in the set subframes of a range; of the refusals, the one of the largest number.
    fn keep_along(&mut self, subframes: &Range<u64>, given: &Given) -> Option<Refusal> {
        let pool = self.pool;
        (subframes.start..subframes.end)
            .filter_map(|subframe| pool.index(subframe))
            .filter_map(|index| self.keep(index, given))
            .max_by_key(|refusal| refusal.number())
    }

    // Puts a question and writes what it finds.
    fn ask(&mut self, text: &mut String, q: &Question) -> anyhow::Result<()> {
        if let Ok(found) = candidates(self.pool, self.at, q) {
            let many = found.count();
            let subframes = found.slots().len();
            writeln!(text, "candidates {many} in {subframes} subframes")?;
        }
        match choose(self.pool, self.at, &*self.memory, q, &mut self.raise) {
            Ok(report) => write_report(text, &report)?,
            Err(refusal) => writeln!(text, "refused {refusal}")?,
        }
        Ok(())
    }
}

// What a scene says over a new memory.
fn play<M: Keeping>(
    heap: Global,
    pool: &Pool,
    scene: &Scene,
    memory: &mut M,
) -> anyhow::Result<String> {
    let mut text = String::new(heap);
    if let Err(refusal) = memory.slide(pool.next_index(scene.at)) {
        let number = refusal.number();
        writeln!(text, "not slid: {number:02}")?;
    }
    let mut unit = Unit {
        pool,
        memory,
        at: scene.at,
        raise: Raise::new(),
    };
    for step in scene.steps.iter() {
        let refused = match step {
            Step::Ask(q) => {
                unit.ask(&mut text, q)?;
                None
            }
            Step::At { subframe, given } => match pool.index(*subframe) {
                Some(index) => unit.keep(index, given),
                None => Some(Refusal::Unset),
            },
            Step::Along { subframes, given } => unit.keep_along(subframes, given),
        };
        if let Some(refusal) = refused {
            let number = refusal.number();
            writeln!(text, "not kept: {number:02}")?;
        }
    }
    Ok(text)
}

const BLANK: Row = Row {
    index: 0,
    state: State::Blank,
};

// What a scene says over a memory of each kind, the dense one first. Both are lent the same rows and readings, one after
// the other.
fn over_both(heap: Global, pool: &Pool, scene: &Scene) -> anyhow::Result<(String, String)> {
    let n = pool.channels();
    let window = u64::from(pool.window());
    let mut rows = [BLANK; 1001];
    let mut readings = [0u32; 20020];
    let mut held: [Option<Held>; 20020] = [None; 20020];
    let mut listed: [Option<Entry>; 400] = [None; 400];
    let (Ok(()), Ok(())) = (
        dense::fits(n, window, &rows, &readings, &held),
        sparse::fits(n, window, &rows, &readings, &listed),
    ) else {
        return Ok((String::new(heap), String::new(heap)));
    };
    let mut m = Dense::new(n, window, &mut rows, &mut readings, &mut held);
    let dense = play(heap, pool, scene, &mut m)?;
    let mut m = Sparse::new(n, window, &mut rows, &mut readings, &mut listed);
    let sparse = play(heap, pool, scene, &mut m)?;
    Ok((dense, sparse))
}

// Plays a scene over a memory of each kind, and prints what it says.
fn show(rt: &HostRuntime, scene: &Scene) -> anyhow::Result<()> {
    let mut pool = Pool::built_in();
    if let Err(refusal) = pool.configure(&scene.settings) {
        println!(rt; "refused {refusal}")?;
        return Ok(());
    }
    let (dense, sparse) = over_both(rt.alloc(), &pool, scene)?;
    print!(rt; "{dense}")?;
    if dense != sparse {
        println!(rt; "over the sparse memory:")?;
        print!(rt; "{sparse}")?;
    }
    Ok(())
}

impl Scene {
    // Takes a line into account; a pool begins another scene, and the one before it is played.
    fn take(&mut self, rt: &HostRuntime, line: Line) -> anyhow::Result<()> {
        match line {
            Line::Pool(settings) => {
                show(rt, self)?;
                self.settings = settings;
                self.at = START;
                self.steps.clear();
            }
            Line::Offsets(offsets) => {
                let Offsets { used, values } = offsets;
                self.settings.used = used;
                self.settings.offsets = values;
            }
            Line::Allow(mask) => self.settings.intervals = mask,
            Line::Now(at) => self.at = at,
            Line::Do(step) => self.steps.push(step)?,
        }
        Ok(())
    }
}

fn run(rt: &HostRuntime) -> anyhow::Result<()> {
    let heap = rt.alloc();
    let input = io::read_to_string(heap, rt.stdin())?;
    // Each program has such a choice of its own: a call with both texts would be as long.
    let text = if input.is_empty() {
        EXAMPLE
    } else {
        input.as_str()
    };
    let mut scene = Scene {
        settings: built_in(),
        at: START,
        steps: Vec::new(heap),
    };
    for line in text.lines() {
        if line.starts_with('#') {
            continue;
        }
        let words: Vec<&str> = line.split_whitespace().collect(heap)?;
        let said = said(words.as_slice()).map_err(|fault| anyhow!("{fault}: `{line}`"))?;
        if let Some(line) = said {
            scene.take(rt, line)?;
        }
    }
    show(rt, &scene)
}

fn main(rt: HostRuntime) -> anyhow::Result<()> {
    run(&rt)
}
