// The two kinds of sensing memory, over rows, readings and record places that the caller lends.
#![tactic(auto)]

pub mod dense;
pub mod entries;
mod ring;
pub mod rows;
pub mod sparse;
