// The elements of ISO 8583 messages: their table, what is wrong with one, and numbers in digits.
#![tactic(auto)]

pub mod fault;
pub mod moment;
pub mod number;
pub mod original;
pub mod table;
