// Layers over any host, which are hosts themselves.
#![tactic(auto)]

pub mod pair;
pub mod retry;
