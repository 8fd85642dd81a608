//! Tests of `tools` and `memory_system`, and vectors of the definitions of `tools`, apart from them, so that each is proved once.
#![tactic(auto)]

#[cfg(test)]
mod fixtures;
#[cfg(test)]
mod tests;
#[cfg(test)]
mod vectors;
