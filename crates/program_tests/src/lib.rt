//! Tests of the programs over a system in memory: each `run`, and what it comes to.
#![tactic(auto)]

#[cfg(test)]
mod fixtures;
#[cfg(test)]
mod tests;
