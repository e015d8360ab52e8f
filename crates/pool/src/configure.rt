// Making a pool: the questions of configure, and the pool that stands before it.
ghost use Rattle.std.specs.Prelude.{◌≡◌, ℕ, ◌+◌, ◌-◌, ◌*◌, ◌/◌, ◌%◌, ◌^◌, ◌<◌, ◌≤◌, Bool, true, false, ◌&&◌, List, [], ◌∷◌, length, ◌≢◌, nat_eq, slice_index, MatchOption, IfOk};
ghost use Rattle.answer.specs.Numbers.{answered};
ghost use Rattle.rules.specs.Counting.{every, among, distinct};
ghost use Rattle.rules.specs.Closed.{word_bit};
ghost use Rattle.rules.specs.Configure.{byte_bit, sizes, offset_ok, offsets_question, bitmap_ok, levels_ok, configured, pool_of, built_in};
ghost use Rattle.pool.specs.Pools.{meaning, asked, SameBits};

use crate::calendar::on_uplink;
use crate::{Bitmap, Offsets, Pool, Settings};
use answer::Refusal;

// Is each level at most 66? The project wants a `for` here, which checks each level against its limit.
#[tactic(auto, using(rules::proofs::Lists::every_below))]
fn levels_ok(levels: &[u8]) -> bool
    ensures { result ≡ levels_ok levels.now }
{
    for level in levels {
        if *level > 66 {
            return false;
        }
    }
    true
}

// Is the offset below 160 and on an uplink position?
fn offset_ok(uplink: u8, offset: u8) -> bool
    ensures { result ≡ offset_ok uplink offset }
{
    offset < 160 && on_uplink(uplink, u16::from(offset))
}

// Is each offset below 160 and on an uplink position?
fn placed(uplink: u8, offsets: &[u8]) -> bool
    ensures { result ≡ every (offset_ok uplink) offsets.now }
{
    offsets.iter().all(|offset| offset_ok(uplink, *offset))
}

// Is no offset there twice?
fn apart(offsets: &[u8]) -> bool
    ensures { result ≡ distinct offsets.now }
{
    match offsets {
        [] => true,
        [first, rest @ ..] => !rest.contains(first) && apart(rest),
    }
}

// Is each place zero?
fn unused(places: &[u8]) -> bool
    ensures { result ≡ every (λ o. nat_eq o 0) places.now }
{
    places.iter().all(|place| *place == 0)
}

// Are at most three offsets used, distinct, below 160 and on uplink positions, and the other places zero?
fn offsets_ok(uplink: u8, used: u8, offsets: &[u8; 3]) -> bool
    ensures { result ≡ offsets_question uplink used offsets.now }
{
    if used > 3 {
        return false;
    }
    let (used, rest) = offsets.split_at(usize::from(used));
    placed(uplink, used) && apart(used) && unused(rest)
}

// May a bitmap have this length?
fn size_ok(size: u8) -> bool
    ensures { result ≡ among size sizes }
{
    matches!(size, 10 | 16 | 20 | 30 | 40 | 50 | 60 | 100)
}

// Four bytes as a word, the first one highest.
fn word(a: u8, b: u8, c: u8, d: u8) -> u32
    ensures { (k : ℕ) → k < 32 → result / 2 ^ (31 - k) % 2 ≡ slice_index (a ∷ b ∷ c ∷ d ∷ []) (k / 8) / 2 ^ (7 - k % 8) % 2 }
{
    u32::from_be_bytes([a, b, c, d])
}

// The bitmap's bytes as words.
fn words(b: &[u8; 13]) -> [u32; 4]
    ensures same { (i : ℕ) → i < 128 → word_bit result i ≡ byte_bit b.now i }
    ensures fits { (k : ℕ) → slice_index result k < 2 ^ 32 }
{
    [
        word(b[0], b[1], b[2], b[3]),
        word(b[4], b[5], b[6], b[7]),
        word(b[8], b[9], b[10], b[11]),
        word(b[12], 0, 0, 0),
    ]
}

// The bitmap, if its length is allowed, some bit is one, and no bit past the length.
fn bitmap(size: u8, bytes: &[u8; 13]) -> Option<Bitmap>
    ensures { MatchOption result (bitmap_ok size bytes.now ≡ false) (SameBits size bytes.now) }
{
    let words = words(bytes);
    let bitmap = Bitmap { size, words };
    (size_ok(size) && bitmap.rest_zero() && bitmap.some_bit()).then_some(bitmap)
}

// The questions of configure in their order, and the bitmap where each is answered yes.
fn check(s: &Settings) -> Result<Bitmap, Refusal>
    ensures answer { answered result ≡ configured (asked s.now) }
    ensures bits { IfOk result (SameBits s.now.size s.now.bitmap) }
{
    if !matches!(s.channels, 1..=20) {
        return Err(Refusal::Channels);
    }
    if s.uplink > 7 {
        return Err(Refusal::Uplink);
    }
    if !offsets_ok(s.uplink, s.used, &s.offsets) {
        return Err(Refusal::Offsets);
    }
    let bitmap = bitmap(s.size, &s.bitmap).ok_or(Refusal::Bitmap)?;
    if !matches!(s.intervals, 1..=4095) {
        return Err(Refusal::Intervals);
    }
    if !levels_ok(&s.levels) {
        return Err(Refusal::Levels);
    }
    Ok(bitmap)
}

impl Pool {
    // The pool that stands until configure replaces it.
    pub fn built_in() -> Pool
        ensures { meaning result ≡ built_in }
    {
        Pool {
            channels: 1,
            uplink: 7,
            offsets: Offsets {
                used: 0,
                places: [0, 0, 0],
            },
            bitmap: Bitmap {
                size: 10,
                words: [0xffc0_0000, 0, 0, 0],
            },
            intervals: 0xfff,
            levels: [66; 64],
        }
    }

    // Replaces the pool by the one that is asked for, or refuses by the first question answered no and leaves it as it was.
    pub fn configure(&mut self, s: &Settings) -> Result<(), Refusal>
        ensures answer { answered result ≡ configured (asked s.now) }
        ensures done { answered result ≡ 0 → meaning self.new ≡ pool_of (asked s.now) }
        ensures refused { (answered result ≢ 0) → self.new ≡ self.old }
    {
        let bitmap = check(s)?;
        *self = Pool {
            channels: s.channels,
            uplink: s.uplink,
            offsets: Offsets {
                used: s.used,
                places: s.offsets,
            },
            bitmap,
            intervals: s.intervals,
            levels: s.levels,
        };
        Ok(())
    }
}
