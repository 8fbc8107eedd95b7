//! Tests of several machines in one host.
#![tactic(auto)]

#[cfg(test)]
mod tests;
