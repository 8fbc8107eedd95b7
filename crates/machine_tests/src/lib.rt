//! Tests of the machine, its files and images, and of runs under scripts.
#![tactic(auto)]

#[cfg(test)]
mod tests;
