// A day's sums, by acquirer and issuer, and the net positions that follow from them.
#![tactic(auto)]

pub mod day;
pub mod figures;
pub mod payment;
