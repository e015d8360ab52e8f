// The rows of a sensing memory, in a slice that the caller lends: they are read and changed in place by functions that take it.
// The row of an index i is that at i % (W + 1).
ghost use Rattle.std.specs.Prelude.{◌≡◌, ℕ, ◌+◌, ◌%◌, ◌<◌, length, slice_set};
ghost use Rattle.memory.specs.RowCells.{row_at, row_of};

use sensing::State;

#[derive(Clone, Copy, Default)]
pub struct Row {
    // the index that the row is for
    pub index: u64,
    pub state: State,
}

// The row of an index.
pub(crate) fn read(rows: &[Row], window: u64, index: u64) -> Row
    requires { window < length rows.now }
    ensures { result ≡ row_at window rows.now index }
{
    rows[(index % (window + 1)) as usize]
}

// Stamps the row of an index with it, and gives it a state.
pub(crate) fn stamp(rows: &mut [Row], window: u64, index: u64, state: State)
    requires { window < length rows.old }
    ensures { rows.new ≡ slice_set rows.old (index % (window + 1)) (row_of index state) }
{
    rows[(index % (window + 1)) as usize] = Row { index, state };
}
