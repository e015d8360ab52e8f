// The input of the program: a pool as it is asked for, and which subframes to show.
use arrayvec::ArrayVec;
use console::{Bitmap, Offsets, code_bit};
use pool::Settings;
use thiserror::Error;

#[derive(Clone, Copy)]
pub(crate) struct Input {
    pub(crate) settings: Settings,
    pub(crate) start: u64,
    pub(crate) show: u64,
}

// Why a line cannot be read.
#[derive(PartialEq, Eq, Debug, Drop, Error)]
pub(crate) enum Fault {
    #[error("not of the form `name = value`")]
    NoEquals,
    #[error("no such name")]
    Name,
    #[error("not a number")]
    Number,
    #[error("a bitmap has only 0s and 1s")]
    Bit,
    #[error("an interval code is from 1 to 16")]
    Code,
    #[error("one level for all, or 64 levels")]
    Levels,
}

// A number of subframes.
fn number(text: &str) -> Result<u64, Fault> {
    text.parse().map_err(|_| Fault::Number)
}

// A number that is kept in a byte. What is above 255 counts as 255, which every question of configure refuses.
fn byte(text: &str) -> Result<u8, Fault> {
    Ok(u8::try_from(number(text.trim())?).unwrap_or(u8::MAX))
}

// Is a list empty?
fn none(text: &str) -> bool {
    text.is_empty() || text == "none"
}

// How many offsets are used, and the first three.
fn offsets(text: &str) -> Result<Offsets, Fault> {
    let mut offsets = Offsets::default();
    if none(text) {
        return Ok(offsets);
    }
    for part in text.split(',') {
        offsets.push(byte(part)?);
    }
    Ok(offsets)
}

// The interval mask: code c sets bit c - 1. The program select folds its own words in the same way, with faults of its own.
fn intervals(text: &str) -> Result<u16, Fault> {
    if none(text) {
        return Ok(0);
    }
    text.split(',').try_fold(0, |mask, part| {
        Ok(mask | code_bit(byte(part)?).ok_or(Fault::Code)?)
    })
}

// One level for all, or 64 of them.
fn levels(text: &str) -> Result<[u8; 64], Fault> {
    let mut levels = ArrayVec::<u8, 64>::new();
    for part in text.split(',') {
        levels.try_push(byte(part)?).map_err(|_| Fault::Levels)?;
    }
    match *levels.as_slice() {
        [level] => Ok([level; 64]),
        _ => levels.into_inner().map_err(|_| Fault::Levels),
    }
}

impl Input {
    // The built-in pool, from the first subframe that a unit may start at. It is written out, so that it shows all that is asked.
    pub(crate) fn built_in() -> Input {
        Input {
            settings: Settings {
                channels: 1,
                uplink: 7,
                used: 0,
                offsets: [0; 3],
                size: 10,
                bitmap: [0xff, 0xc0, 0, 0, 0, 0, 0, 0, 0, 0, 0, 0, 0],
                intervals: 0xfff,
                levels: [66; 64],
            },
            start: 20480,
            show: 10,
        }
    }

    // Takes one line into account; a later line for a name counts.
    pub(crate) fn take(&mut self, line: &str) -> Result<(), Fault> {
        let line = line.trim();
        if line.is_empty() || line.starts_with('#') {
            return Ok(());
        }
        let (name, value) = line.split_once('=').ok_or(Fault::NoEquals)?;
        self.set(name.trim(), value.trim())
    }

    fn set(&mut self, name: &str, value: &str) -> Result<(), Fault> {
        match name {
            "channels" => self.settings.channels = byte(value)?,
            "uplink" => self.settings.uplink = byte(value)?,
            "offsets" => {
                let Offsets { used, values } = offsets(value)?;
                self.settings.used = used;
                self.settings.offsets = values;
            }
            "bitmap" => {
                let Bitmap { size, bytes } = Bitmap::read(value).ok_or(Fault::Bit)?;
                self.settings.size = size;
                self.settings.bitmap = bytes;
            }
            "intervals" => self.settings.intervals = intervals(value)?,
            "levels" => self.settings.levels = levels(value)?,
            "start" => self.start = number(value)?,
            "show" => self.show = number(value)?,
            _ => return Err(Fault::Name),
        }
        Ok(())
    }
}

#[cfg(test)]
mod tests {
    use super::*;
    use pool::Pool;

    // A line that cannot be read, and why.
    const UNREADABLE: [(&str, Fault); 6] = [
        ("channels 3", Fault::NoEquals),
        ("channel = 3", Fault::Name),
        ("channels = three", Fault::Number),
        ("bitmap = 10201", Fault::Bit),
        ("intervals = 0", Fault::Code),
        ("levels = 1,2", Fault::Levels),
    ];

    // A line beside the built-in pool, and the number that configure answers; 0 where it takes it.
    const ANSWERED: [(&str, u8); 16] = [
        ("# channels = 0", 0),
        ("channels = 0", 10),
        ("channels = 21", 10),
        ("channels = 300", 10),
        ("uplink = 8", 11),
        ("offsets = 2, 12, 22, 32", 12),
        ("offsets = 7, 7", 12),
        ("offsets = 160", 12),
        ("bitmap = 11111111111", 13),
        ("bitmap = 0000000000", 13),
        ("bitmap = 0000000001", 0),
        ("intervals = none", 14),
        ("intervals = 13", 14),
        ("levels = 67", 15),
        ("levels = 0", 0),
        ("offsets = 159, 0, 80", 0),
    ];

    #[test]
    fn names_what_is_wrong(rt: HostRuntime) {
        let mut input = Input::built_in();
        for (line, fault) in UNREADABLE {
            assert_eq!(rt; input.take(line), Err(fault));
        }
    }

    #[test]
    fn configure_answers(rt: HostRuntime) {
        for (line, number) in ANSWERED {
            let mut input = Input::built_in();
            assert_eq!(rt; input.take(line), Ok(()));
            let mut pool = Pool::built_in();
            assert_eq!(rt; console::number(pool.configure(&input.settings)), number);
        }
    }
}
