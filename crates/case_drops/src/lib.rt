//! What programs of cases read slowly: a source that gives one byte a reading.
#![tactic(auto)]

mod drops;

pub use drops::Drops;
