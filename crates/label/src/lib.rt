#![tactic(auto)]

pub mod field;
pub mod finding;
pub mod fingerprint;
pub mod reading;
