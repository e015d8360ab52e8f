// A scene, read line by line: a pool, the present subframe, and what a memory is given and asked then.
use arrayvec::ArrayVec;
use choosing::Question;
use console::{Bitmap, Offsets, code_bit, four_bytes};
use pool::Settings;
use std::ops::Range;
use std::str::FromStr;
use thiserror::Error;

// The four bytes of a record, and its RSRP.
#[derive(Clone, Copy)]
pub(crate) struct Heard {
    pub(crate) bytes: [u8; 4],
    pub(crate) rsrp: i16,
}

// What a memory is given in a subframe.
#[derive(Drop)]
pub(crate) enum Given {
    // one reading for all sub-channels
    Reading(u32),
    // a reading for each sub-channel
    Readings(ArrayVec<u32, 20>),
    Sent,
    Record { resource: u8, heard: Heard },
    // the same record at all resources
    Records(Heard),
}

// One thing that a memory is given, or one question of the scheduler.
#[derive(Drop)]
pub(crate) enum Step {
    At { subframe: u64, given: Given },
    // the same in each set subframe of a range
    Along { subframes: Range<u64>, given: Given },
    Ask(Question),
}

// What a line says.
#[derive(Drop)]
pub(crate) enum Line {
    Pool(Settings),
    Offsets(Offsets),
    Allow(u16),
    Now(u64),
    Do(Step),
}

// Why a line cannot be read.
#[derive(Debug, Drop, Error)]
pub(crate) enum Fault {
    #[error("no such word, or not with so many values")]
    Word,
    #[error("not a number, or too large a one")]
    Number,
    #[error("too many values")]
    Many,
    #[error("a bitmap has at most 104 digits 0 and 1")]
    Bit,
    #[error("an interval code is from 1 to 16")]
    Code,
    #[error("a record is eight hexadecimal digits")]
    Bytes,
}

fn parsed<T: FromStr>(text: &str) -> Result<T, Fault>
where
    T::Err: Drop,
{
    text.parse().map_err(|_| Fault::Number)
}

// At most N numbers.
fn numbers<T: FromStr + Default + Drop, const N: usize>(
    words: &[&str],
) -> Result<ArrayVec<T, N>, Fault>
where
    T::Err: Drop,
{
    let mut numbers = ArrayVec::new();
    for word in words {
        if numbers.is_full() {
            return Err(Fault::Many);
        }
        numbers.push(parsed(*word)?);
    }
    Ok(numbers)
}

// A pool without sync offsets that allows every interval, with one level for all priorities.
fn other_pool(channels: &str, uplink: &str, bits: &str, level: &str) -> Result<Line, Fault> {
    let Bitmap { size, bytes } = Bitmap::read(bits)
        .filter(|bitmap| bitmap.size <= 104)
        .ok_or(Fault::Bit)?;
    Ok(Line::Pool(Settings {
        channels: parsed(channels)?,
        uplink: parsed(uplink)?,
        used: 0,
        offsets: [0; 3],
        size,
        bitmap: bytes,
        intervals: 0xfff,
        levels: [parsed(level)?; 64],
    }))
}

// Three sub-channels in every subframe, interval 1, and level 10. It is written out, as above: each pool shows all that is asked.
pub(crate) fn built_in() -> Settings {
    Settings {
        channels: 3,
        uplink: 7,
        used: 0,
        offsets: [0; 3],
        size: 20,
        bitmap: [0xff, 0xff, 0xf0, 0, 0, 0, 0, 0, 0, 0, 0, 0, 0],
        intervals: 1,
        levels: [10; 64],
    }
}

fn offsets(words: &[&str]) -> Result<Line, Fault> {
    let mut offsets = Offsets::default();
    for offset in numbers::<u8, 3>(words)?.as_slice() {
        offsets.push(*offset);
    }
    Ok(Line::Offsets(offsets))
}

// The interval mask: code c sets bit c - 1. The program calendar folds its own fields in the same way: they are separated
// otherwise, and have faults of their own.
fn allow(words: &[&str]) -> Result<Line, Fault> {
    let mask = words.iter().try_fold(0, |mask, word| {
        Ok(mask | code_bit(parsed(*word)?).ok_or(Fault::Code)?)
    })?;
    Ok(Line::Allow(mask))
}

// From the first subframe to the last.
fn range(first: &str, last: &str) -> Result<Range<u64>, Fault> {
    Ok(parsed(first)?..parsed::<u64>(last)?.saturating_add(1))
}

impl Heard {
    fn read(bytes: &str, rsrp: &str) -> Result<Heard, Fault> {
        Ok(Heard {
            bytes: four_bytes(bytes).ok_or(Fault::Bytes)?,
            rsrp: parsed(rsrp)?,
        })
    }
}

fn listen(first: &str, last: &str, reading: &str) -> Result<Step, Fault> {
    Ok(Step::Along {
        subframes: range(first, last)?,
        given: Given::Reading(parsed(reading)?),
    })
}

fn power(subframe: &str, words: &[&str]) -> Result<Step, Fault> {
    let readings = numbers(words)?;
    Ok(Step::At {
        subframe: parsed(subframe)?,
        given: Given::Readings(readings),
    })
}

fn sent(subframe: &str) -> Result<Step, Fault> {
    Ok(Step::At {
        subframe: parsed(subframe)?,
        given: Given::Sent,
    })
}

fn record(subframe: &str, resource: &str, bytes: &str, rsrp: &str) -> Result<Step, Fault> {
    Ok(Step::At {
        subframe: parsed(subframe)?,
        given: Given::Record {
            resource: parsed(resource)?,
            heard: Heard::read(bytes, rsrp)?,
        },
    })
}

fn records(first: &str, last: &str, bytes: &str, rsrp: &str) -> Result<Step, Fault> {
    Ok(Step::Along {
        subframes: range(first, last)?,
        given: Given::Records(Heard::read(bytes, rsrp)?),
    })
}

// A question: its length, interval code, turns, priority, T1 and T2.
fn question(words: &[&str]) -> Result<Step, Fault> {
    let [length, code, turns, priority, from, to] = words else {
        return Err(Fault::Word);
    };
    Ok(Step::Ask(Question {
        length: parsed(*length)?,
        code: parsed(*code)?,
        turns: parsed(*turns)?,
        priority: parsed(*priority)?,
        from: parsed(*from)?,
        to: parsed(*to)?,
    }))
}

impl Step {
    // What is given to a memory, or asked.
    fn read(words: &[&str]) -> Result<Step, Fault> {
        match words {
            ["listen", first, last, reading] => listen(*first, *last, *reading),
            ["power", subframe, readings @ ..] => power(*subframe, readings),
            ["sent", subframe] => sent(*subframe),
            ["record", subframe, resource, bytes, rsrp] => record(
                *subframe, *resource, *bytes, *rsrp,
            ),
            ["records", first, last, bytes, rsrp] => records(*first, *last, *bytes, *rsrp),
            ["ask", values @ ..] => question(values),
            _ => Err(Fault::Word),
        }
    }
}

// What the words of a line say; none on an empty line.
pub(crate) fn said(words: &[&str]) -> Result<Option<Line>, Fault> {
    Ok(Some(match words {
        [] => return Ok(None),
        ["pool", channels, uplink, bits, level] => other_pool(*channels, *uplink, *bits, *level)?,
        ["offsets", values @ ..] => offsets(values)?,
        ["allow", codes @ ..] => allow(codes)?,
        ["now", subframe] => Line::Now(parsed(*subframe)?),
        _ => Line::Do(Step::read(words)?),
    }))
}
