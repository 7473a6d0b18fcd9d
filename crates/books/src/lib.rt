// The books of the switch: the journal, and the sums of the day and of the day before.
#![tactic(auto)]

pub mod books;
