// The bitmap, the intervals and the threshold levels of a pool.
ghost use Rattle.std.specs.Prelude.{◌≡◌, ℕ, ◌<◌, ◌≤◌, Bool, true, false, length, slice_index_or, Decides, count_ones, nat_lt};
ghost use Rattle.rules.specs.Counting.{any};
ghost use Rattle.rules.specs.Calendar.{in_pool, allowed, intervals as allowed_count, distance, milliseconds as milliseconds_of, level, finite};
ghost use Rattle.rules.specs.Closed.{word_bit};
ghost use Rattle.pool.specs.Pools.{meaning};

use crate::{Bitmap, Pool};

// The thresholds of levels 1 to 65, in tenths of a dBm. They are read from a table, as the rules have it.
const THRESHOLDS: [i16; 65] = [
    -1280, -1260, -1240, -1220, -1200, -1180, -1160, -1140, -1120, -1100, -1080, -1060, -1040,
    -1020, -1000, -980, -960, -940, -920, -900, -880, -860, -840, -820, -800, -780, -760, -740,
    -720, -700, -680, -660, -640, -620, -600, -580, -560, -540, -520, -500, -480, -460, -440, -420,
    -400, -380, -360, -340, -320, -300, -280, -260, -240, -220, -200, -180, -160, -140, -120, -100,
    -80, -60, -40, -20, 0,
];

// The threshold of a level from 1 to 65. The levels 0 and 66 have none: they are below and above every RSRP.
pub fn finite_level(level: u8) -> Option<i16>
    ensures { result ≡ finite level }
{
    match level {
        1..=65 => Some(THRESHOLDS[usize::from(level) - 1]),
        _ => None,
    }
}

impl Bitmap {
    // Bit i of the words.
    fn word_bit(&self, i: u8) -> bool
        requires { i < 128 }
        ensures { result ≡ word_bit self.now.words i }
    {
        (self.words[usize::from(i / 32)] >> (31 - i % 32)) % 2 == 1
    }

    // Has some word a bit that is one?
    pub(crate) fn some_bit(&self) -> bool
        ensures { result ≡ any (λ w. nat_lt 0 (count_ones w)) self.now.words }
    {
        self.words.iter().any(|word| word.count_ones() > 0)
    }

    // Are the bits from the length on zero?
    pub(crate) fn rest_zero(&self) -> bool
        requires { self.now.size ≤ 104 }
        ensures { Decides result ((i : ℕ) → self.now.size ≤ i → i < 104 → word_bit self.now.words i ≡ false) }
    {
        (self.size..104).all(|i| !self.word_bit(i))
    }
}

// The milliseconds of an interval code.
fn milliseconds(code: u8) -> u32
    ensures value { result ≡ milliseconds_of code }
    ensures few { result ≤ 1000 }
{
    // A number and no enum: callers fill a code in as a number, and each number has an answer.
    match code {
        0..=10 => 100 * u32::from(code),
        11 => 50,
        12 => 20,
        _ => 0,
    }
}

impl Pool {
    // Bit i of the bitmap; there is none from B on.
    pub fn bit(&self, i: u8) -> bool
        ensures { result ≡ slice_index_or (meaning self.now).bits i false }
    {
        i < self.bitmap.size && self.bitmap.word_bit(i)
    }

    // Is the index in the pool?
    pub fn in_pool(&self, index: u64) -> bool
        ensures { result ≡ in_pool (meaning self.now) index }
    {
        self.bit((index % u64::from(self.bitmap.size)) as u8)
    }

    // Is the interval code allowed?
    pub fn allows(&self, code: u8) -> bool
        ensures { result ≡ allowed (meaning self.now) code }
    {
        matches!(code, 1..=12) && (self.intervals >> (code - 1)) % 2 == 1
    }

    // How many interval codes are allowed.
    pub fn interval_count(&self) -> u32
        ensures { result ≡ allowed_count (meaning self.now) }
    {
        self.intervals.count_ones()
    }

    // D(c), how many subframes of the set an interval code reaches over.
    pub fn distance(&self, code: u8) -> u32
        ensures value { result ≡ distance (meaning self.now) code }
        ensures few { result ≤ 1000 }
    {
        self.step() * milliseconds(code) / 100
    }

    // The threshold level of the unit's own priority and a record's; none where one of them is above 7.
    pub fn level(&self, own: u8, other: u8) -> Option<u8>
        ensures { result ≡ level (meaning self.now) own other }
    {
        (own <= 7 && other <= 7).then(|| self.levels[usize::from(8 * own + other)])
    }
}
