// Choosing: the question of a scheduler, and the candidates that it has.
#![tactic(auto)]

ghost use Rattle.std.specs.Prelude.{◌≡◌, ℕ, ◌≤◌, length};
ghost use Rattle.pool.specs.Pools.{meaning};
ghost use Rattle.rules.specs.Choose.{interval};
ghost use Rattle.choosing.specs.Asked.{question_of};

pub mod blinds;
pub mod checks;
pub mod finds;
pub mod searches;
pub mod turns;

use pool::Pool;

// Far past every index and subframe of a unit, so that no sum wraps.
pub const LATEST: u64 = 1 << 63;

// What a scheduler asks for: L sub-channels, an interval code, C turns, a priority, and T1 and T2.
#[derive(Clone, Copy)]
pub struct Question {
    pub length: u8,
    pub code: u8,
    pub turns: u16,
    pub priority: u8,
    pub from: u8,
    pub to: u8,
}

// A subframe in which candidates lie, and its index.
#[derive(Clone, Copy)]
pub struct Slot {
    pub subframe: u64,
    pub index: u64,
}

// The candidates of a question: each of the slots in use, with each first sub-channel below the width.
// The slots have a count beside them, since the type promises Copy, which the list type of arrayvec is not.
#[derive(Clone, Copy)]
pub struct Candidates {
    slots: [Slot; 100],
    count: usize,
    width: u8,
    ghost long: { length slots ≡ 100 },
    ghost few: { count ≤ 100 },
    ghost narrow: { width ≤ 20 },
}

// A search among candidates: the pool, the question, the slots, and the distance between two turns.
#[derive(Clone, Copy)]
pub struct Search<'a> {
    pub pool: &'a Pool,
    pub question: &'a Question,
    pub slots: &'a [Slot],
    apart: u64,
    ghost few: { length slots.now ≤ 100 },
    ghost by_code: { apart ≡ interval (meaning pool.now) (question_of question.now) },
}
