// Messages of ISO 8583, written.
#![tactic(auto)]

pub mod compose;
mod marks;
pub mod spell;
pub mod writer;
