//! Tests of the text of sources: files, definitions, conditions, directives, tokens.
#![tactic(auto)]

#[cfg(test)]
mod tests;
