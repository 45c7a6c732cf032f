#![tactic(auto)]

pub mod hashes;
pub mod labels;
pub mod streams;
