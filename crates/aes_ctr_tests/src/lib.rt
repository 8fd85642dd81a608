//! Tests of `aes_ctr`, and laws and vectors of its definitions, apart from it, so that it is proved once.
#![tactic(auto)]

#[cfg(test)]
mod laws;
#[cfg(test)]
mod tests;
#[cfg(test)]
mod vectors;
