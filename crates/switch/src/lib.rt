// The switch.
#![tactic(auto)]

pub mod forward;
pub mod messages;
pub mod switch;
