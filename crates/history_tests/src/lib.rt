//! Tests of what no case can say: ample memory, failing writers, rounds, crates below `history`.
#![tactic(auto)]

#[cfg(test)]
mod growth;
#[cfg(test)]
mod halves;
#[cfg(test)]
mod laws;
#[cfg(test)]
mod memory;
#[cfg(test)]
mod names;
#[cfg(test)]
mod opened;
#[cfg(test)]
mod packed;
#[cfg(test)]
mod rounds;
#[cfg(test)]
mod texts;
#[cfg(test)]
mod walks;
#[cfg(test)]
mod writers;
