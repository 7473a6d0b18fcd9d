// What the hosts at the bottom have in common: a table of lines, and what a line comes to by an answer.
#![tactic(auto)]

pub mod change;
mod places;
pub mod table;
