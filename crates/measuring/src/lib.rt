// The mean S-RSSI of each candidate, as an exact fraction.
#![tactic(auto)]

ghost use Rattle.std.specs.Prelude.{◌≡◌, ℕ, ◌*◌, ◌^◌, ◌<◌, ◌≤◌, slice_index};
ghost use Rattle.measuring.specs.Bounds.{most};

pub mod means;
mod sums;

// A mean as an exact fraction: a sum of readings over a number of samples. Two of them can be compared crosswise.
#[derive(Clone, Copy)]
pub struct Mean {
    over: u64,
    under: u32,
    ghost some: { 1 ≤ under },
    ghost few: { under ≤ 1000 },
    ghost small: { over < 2 ^ 48 },
}

// The samples of a slot so far: the slot's index, how many there are, and the sum of their readings for each first sub-channel.
#[derive(Clone, Copy)]
pub(crate) struct Sum {
    at: u64,
    under: u32,
    over: [u64; 20],
    ghost few: { under ≤ 1000 },
    ghost small: { (x : ℕ) → slice_index over x ≤ under * most },
}

// The readings of an index, added up for each first sub-channel.
#[derive(Clone, Copy)]
pub(crate) struct Powers {
    from: [u64; 20],
    ghost few: { (x : ℕ) → slice_index from x ≤ most },
}
