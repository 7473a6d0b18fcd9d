// A host at the bottom that keeps accounts: the balance book.
#![tactic(auto)]

pub mod accounts;
pub mod book;
pub mod exchange;
pub mod ledger;
mod serve;
