// What a message asks of the switch.
#![tactic(auto)]

mod fields;
pub mod order;
pub mod take;
