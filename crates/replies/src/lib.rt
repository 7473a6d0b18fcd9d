// The reply to a message.
#![tactic(auto)]

pub mod reply;
