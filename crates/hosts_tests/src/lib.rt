// Tests of the hosts: what docs/HOSTS.md says, row by row.
#![tactic(auto)]

#[cfg(test)]
mod common;
#[cfg(test)]
mod limit;
#[cfg(test)]
mod over;
