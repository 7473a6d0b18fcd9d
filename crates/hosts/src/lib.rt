// Hosts at the bottom, which ask no other.
#![tactic(auto)]

pub mod limit;
