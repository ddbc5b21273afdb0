//! Tests of how many calls of the files an object, a command and an opening make, and of other writers' locks.
#![tactic(auto)]

#[cfg(test)]
mod calls;
#[cfg(test)]
mod changes;
#[cfg(test)]
mod readings;
#[cfg(test)]
mod watched;
