// The banks that a switch serves, and the routes from cards to the banks that issued them.
#![tactic(auto)]

mod bank_list;
pub mod banks;
mod keeping;
pub mod prefix;
mod route_list;
pub mod routes;
