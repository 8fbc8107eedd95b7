//! Tests of the code that is generated.
#![tactic(auto)]

#[cfg(test)]
mod tests;
