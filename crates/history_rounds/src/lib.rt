//! The headline: `open`, `run`, `into_parts` and `recover` together, by their contracts alone.
#![tactic(auto)]

mod rounds;

pub use rounds::{Made, Unmade, round, round_after};
