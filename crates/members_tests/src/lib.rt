// Tests of banks and routes; every expected place and number is worked out by hand.
#![tactic(auto)]

#[cfg(test)]
mod banks;
#[cfg(test)]
mod routes;
