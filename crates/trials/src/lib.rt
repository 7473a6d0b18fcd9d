// A host for trials, whose answers a script tells.
#![tactic(auto)]

pub mod script;
pub mod trial;
