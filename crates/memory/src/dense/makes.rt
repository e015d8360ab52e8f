// Making a memory.
ghost use Rattle.std.specs.Prelude.{◌≡◌, ℕ, ◌+◌, ◌*◌, length, is_ok, if◌then◌else◌, Decides};
ghost use Rattle.answer.specs.Numbers.{answered};
ghost use Rattle.rules.specs.Sensing.{New as Fresh};
ghost use Rattle.memory.specs.Fits.{Fits};
ghost use Rattle.memory.specs.DenseMemory.{dense as dense_meaning};

use crate::dense::Dense;
use crate::ring::{self, Ring};
use crate::rows::Row;
use answer::Refusal;
use sensing::Held;

// Can a memory for N sub-channels and a window of W be made over these slices? It takes W + 1 rows, and N readings and N
// places for each of them. N and W are a pool's: 17 is also the answer where N is not 1 to 20, or W is above 1000.
// The slices stand each by itself, here and in `new`, since callers hold to both calls as they are.
pub fn fits(
    channels: u8,
    window: u64,
    rows: &[Row],
    readings: &[u32],
    places: &[Option<Held>],
) -> Result<(), Refusal>
    ensures exact { Decides (is_ok result) (Fits channels window (length rows.now) (length readings.now) (length places.now)) }
    ensures answer { answered result ≡ (if is_ok result then 0 else 17) }
{
    ring::fits(channels, window, rows, readings)?;
    if places.len() < (window as usize + 1) * usize::from(channels) {
        return Err(Refusal::Lent);
    }
    Ok(())
}

impl<'a> Dense<'a> {
    // A memory that holds nothing, over slices that the caller lends: `fits` says whether it can be made.
    pub fn new(
        channels: u8,
        window: u64,
        rows: &'a mut [Row],
        readings: &'a mut [u32],
        places: &'a mut [Option<Held>],
    ) -> Dense<'a>
        requires { Fits channels window (length rows.old) (length readings.old) (length places.old) }
        ensures { Fresh channels window ((window + 1) * channels) (dense_meaning result) }
    {
        places.fill(None);
        Dense {
            ring: Ring::new(channels, window, window, rows, readings),
            places,
        }
    }
}
