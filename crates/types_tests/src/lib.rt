//! Tests of trees, names and types.
#![tactic(auto)]

#[cfg(test)]
mod tests;
