//! The verifier: valid code by its first fault, and files whose code is valid.
#![tactic(auto)]

mod fault;
mod instructions;
mod links;
mod marked;
mod verified;

pub use fault::VerifyFault;
pub use verified::{Verified, verify};
