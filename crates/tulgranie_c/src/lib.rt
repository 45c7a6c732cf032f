// The library for C (include/tulgranie.h): each function of the crate `tulgranie` under its C name, called as C calls, with
// the same clauses. Nothing else stands here, since a static library is no library for other crates.
#![tactic(auto)]

pub mod hashes;
pub mod labels;
pub mod streams;
