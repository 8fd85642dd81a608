//! Tests of both commands, and of `host` and the host in memory that they run over, apart from these, so that each is
//! proved once.
#![tactic(auto)]

#[cfg(test)]
mod fixtures;
#[cfg(test)]
mod tests;
