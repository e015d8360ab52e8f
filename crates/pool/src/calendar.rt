// How the pool counts subframes, in closed form.
ghost use Rattle.std.specs.Prelude.{◌≡◌, ℕ, ◌+◌, ◌-◌, ◌*◌, ◌/◌, ◌%◌, ◌^◌, ◌<◌, ◌≤◌, Bool, true, false, length, take};
ghost use Rattle.rules.specs.Counting.{among, count_below};
ghost use Rattle.rules.specs.Calendar.{positions as uplink_positions, step, window, remains, rank, remaining, left_over, kept, cycle, in_set, index, index_of, Next};
ghost use Rattle.rules.specs.Closed.{uplink_mask, uplink_before, sync_before, reserved_before};
ghost use Rattle.pool.specs.Pools.{meaning};

use crate::{Offsets, Pool};

// Subframes come round after this many.
const DAY: u64 = 10240;

// The uplink positions of each code in ten subframes, bit k for position k; a code above 7 has none, and is looked up last.
const UPLINK: [u16; 9] = [
    0b11_1001_1100,
    0b01_1000_1100,
    0b00_1000_0100,
    0b00_0001_1100,
    0b00_0000_1100,
    0b00_0000_0100,
    0b01_1001_1100,
    0b11_1111_1111,
    0,
];

// The uplink mask of a code. Looked up with no branch, so that what several calls have in common is computed once.
fn mask_of(code: u8) -> u16
    ensures { result ≡ uplink_mask code }
{
    UPLINK[usize::from(code.min(8))]
}

// Is place d of the 10,240 on an uplink position of the code?
pub(crate) fn on_uplink(code: u8, d: u16) -> bool
    ensures { result ≡ among (d % 10) (uplink_positions code) }
{
    (mask_of(code) >> (d % 10)) % 2 == 1
}

impl Offsets {
    // Those that are used.
    fn all(&self) -> &[u8]
        ensures value { result.now ≡ take self.now.used self.now.places }
        ensures few { length result.now ≤ 3 }
    {
        &self.places[..usize::from(self.used)]
    }

    // Is place d of the 10,240 on one of them?
    fn has(&self, d: u16) -> bool
        ensures { result ≡ among (d % 160) (take self.now.used self.now.places) }
    {
        let place = d % 160;
        self.all().iter().any(|offset| u16::from(*offset) == place)
    }

    // How many subframes before d are on one of them.
    fn before(&self, d: u16) -> u32
        ensures value { result ≡ sync_before (take self.now.used self.now.places) d }
    {
        let d = u32::from(d);
        self.all()
            .iter()
            .map(|offset| d.saturating_sub(u32::from(*offset)).div_ceil(160))
            .sum()
    }
}

impl Pool {
    // How many uplink positions there are in ten.
    fn positions(&self) -> u32
        ensures value { result ≡ length (uplink_positions (meaning self.now).uplink) }
        ensures some { 1 ≤ result }
        ensures few { result ≤ 10 }
    {
        mask_of(self.uplink).count_ones()
    }

    // How many subframes before d are on an uplink position.
    fn uplink_before(&self, d: u16) -> u32
        ensures value { result ≡ uplink_before (meaning self.now).uplink d }
    {
        let below = mask_of(self.uplink) & ((1 << (d % 10)) - 1);
        self.positions() * u32::from(d / 10) + below.count_ones()
    }

    // The number of sub-channels.
    pub fn channels(&self) -> u8
        ensures { result ≡ (meaning self.now).channels }
    {
        self.channels
    }

    // P_step, ten times the count of uplink positions.
    pub fn step(&self) -> u32
        ensures value { result ≡ step (meaning self.now) }
        ensures few { result ≤ 100 }
    {
        10 * self.positions()
    }

    // W, the length of the sensing window.
    pub fn window(&self) -> u32
        ensures { result ≡ window (meaning self.now) }
    {
        10 * self.step()
    }

    // R, how many subframes of 10,240 remain.
    pub fn remaining(&self) -> u32
        ensures value { result ≡ remaining (meaning self.now) }
        ensures some { 832 ≤ result }
        ensures few { result ≤ 10240 }
    {
        1024 * self.positions() - 64 * u32::from(self.offsets.used)
    }

    // V, how many of them are reserved.
    pub fn left_over(&self) -> u32
        ensures value { result ≡ left_over (meaning self.now) }
        ensures few { result < 100 }
    {
        self.remaining() % u32::from(self.bitmap.size)
    }

    // T, how many subframes of 10,240 are in the set.
    pub fn cycle(&self) -> u32
        ensures value { result ≡ cycle (meaning self.now) }
        ensures some { 1 ≤ result }
        ensures few { result ≤ 10240 }
    {
        self.remaining() - self.left_over()
    }

    // Does the subframe at place d of its 10,240 remain?
    fn remains(&self, d: u16) -> bool
        ensures { result ≡ remains (meaning self.now) d }
    {
        on_uplink(self.uplink, d) && !self.offsets.has(d)
    }

    // How many subframes before place d remain.
    fn rank(&self, d: u16) -> u32
        ensures value { result ≡ rank (meaning self.now) d }
        ensures few { result ≤ d }
    {
        self.uplink_before(d) - self.offsets.before(d)
    }

    // How many reserved ranks are below k.
    fn reserved_before(&self, k: u32) -> u32
        requires { k ≤ 10241 }
        ensures { result ≡ reserved_before (remaining (meaning self.now)) (left_over (meaning self.now)) k }
    {
        (k * self.left_over()).div_ceil(self.remaining())
    }

    // How many set subframes lie before place d.
    fn set_before(&self, d: u16) -> u32
        requires { d ≤ 10240 }
        ensures value { result ≡ count_below (kept (meaning self.now)) d }
        ensures few { result ≤ d }
    {
        let rank = self.rank(d);
        rank - self.reserved_before(rank)
    }

    // Is the subframe in the set?
    pub fn in_set(&self, subframe: u64) -> bool
        ensures { result ≡ in_set (meaning self.now) subframe }
    {
        let d = (subframe % DAY) as u16;
        if !self.remains(d) {
            return false;
        }
        let rank = self.rank(d);
        self.reserved_before(rank + 1) == self.reserved_before(rank)
    }

    // The index of the first set subframe that is not before this one.
    pub fn next_index(&self, subframe: u64) -> u64
        ensures value { result ≡ index (meaning self.now) subframe }
        ensures first { Next (meaning self.now) subframe result }
        ensures bound { result ≤ subframe }
    {
        let d = (subframe % DAY) as u16;
        u64::from(self.cycle()) * (subframe / DAY) + u64::from(self.set_before(d))
    }

    // The index of a subframe of the set.
    pub fn index(&self, subframe: u64) -> Option<u64>
        ensures { result ≡ index_of (meaning self.now) subframe }
    {
        self.in_set(subframe).then(|| self.next_index(subframe))
    }
}
