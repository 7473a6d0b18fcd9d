// Tests of the messages: what docs/FORMAT.md and docs/REFUSALS.md say, on bytes worked out by hand. They stand in a crate of
// their own, so that the crate that they test is proved only once.
#![tactic(auto)]

#[cfg(test)]
mod common;
#[cfg(test)]
mod numbers;
#[cfg(test)]
mod reader;
#[cfg(test)]
mod writer;
