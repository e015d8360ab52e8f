// Making a memory.
ghost use Rattle.std.specs.Prelude.{◌≡◌, length, is_ok, if◌then◌else◌, Decides};
ghost use Rattle.answer.specs.Numbers.{answered};
ghost use Rattle.rules.specs.Sensing.{New};
ghost use Rattle.memory.specs.Fits.{Fitting};
ghost use Rattle.memory.specs.SparseMemory.{sparse as sparse_meaning};

use crate::entries::Entry;
use crate::ring::{self, Ring};
use crate::rows::Row;
use crate::sparse::Sparse;
use answer::Refusal;

// Can a memory for N sub-channels and a window of W be made over these slices? It takes W + 1 rows, (W + 1) * N readings
// and one place.
// The slices stand each by itself, here and in `new`, since callers hold to both calls as they are.
pub fn fits(
    channels: u8,
    window: u64,
    rows: &[Row],
    readings: &[u32],
    places: &[Option<Entry>],
) -> Result<(), Refusal>
    ensures exact { Decides (is_ok result) (Fitting channels window (length rows.now) (length readings.now) (length places.now)) }
    ensures answer { answered result ≡ (if is_ok result then 0 else 17) }
{
    ring::fits(channels, window, rows, readings)?;
    if places.is_empty() {
        return Err(Refusal::Lent);
    }
    Ok(())
}

impl<'a> Sparse<'a> {
    // An empty memory over the lent slices, whatever they hold: `fits` says whether it can be made.
    pub fn new(
        channels: u8,
        window: u64,
        rows: &'a mut [Row],
        readings: &'a mut [u32],
        places: &'a mut [Option<Entry>],
    ) -> Sparse<'a>
        requires { Fitting channels window (length rows.old) (length readings.old) (length places.old) }
        ensures { New channels window (length places.old) (sparse_meaning result) }
    {
        places.fill(None);
        Sparse {
            ring: Ring::new(channels, window, window, rows, readings),
            places,
        }
    }
}
