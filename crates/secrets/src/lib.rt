#![tactic(auto)]

pub mod util;
pub mod v3;
