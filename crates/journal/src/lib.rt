// The journal: transaction numbers, the entries, and the 512 places that hold them.
#![tactic(auto)]

pub mod changes;
pub mod entry;
pub mod journal;
pub mod number;
